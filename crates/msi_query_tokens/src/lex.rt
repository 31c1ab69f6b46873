//! Cuts the token at the front of a text.

ghost use Rattle.std.specs.Prelude.{◌≡◌, ◌≢◌, ◌<◌, ◌≤◌, ◌+◌, ◌^◌, length, map, slice_index, IfSome, false, true};
ghost use Rattle.std.specs.Str.{str_eq_ignore_ascii_case};
ghost use Rattle.msi_query_tokens.specs.Tokens as spec;

use crate::token::{KEY_WORDS, Kind};

/// Which bytes go on with a token.
#[derive(Clone, Copy)]
enum Class {
    Blank,
    Digit,
    Letter,
    Name,
}

/// What a token is, and how many bytes it has.
pub(crate) type Token = (Kind, usize);

fn is_in(class: Class, byte: u8) -> bool
    ensures { result ≡ spec.is_in class byte }
{
    match class {
        Class::Blank => byte == b' ' || byte == b'\t' || byte == b'\n' || byte == b'\r',
        Class::Digit => byte.is_ascii_digit(),
        Class::Letter => byte.is_ascii_alphabetic() || byte == b'_',
        Class::Name => byte.is_ascii_alphanumeric() || byte == b'_' || byte == b'.',
    }
}

/// Returns 0 past the end.
fn byte_at(text: &[u8], place: usize) -> u8
    ensures value { result ≡ slice_index text.now place }
    ensures within { result ≢ 0 → place < length text.now }
{
    if place < text.len() { text[place] } else { 0 }
}

/// Returns the first place, from `start` on, whose byte isn't of the class.
fn past(class: Class, text: &[u8], start: usize) -> usize
    requires { start ≤ length text.now }
    ensures value { result ≡ spec.past class text.now start }
    ensures within { (start ≤ result) × (result ≤ length text.now) }
{
    let mut end = start;
    while end < text.len() && is_in(class, text[end]) {
        end += 1;
    }
    end
}

/// Ignores the case of letters.
fn same_word(word: &[u8], other: &[u8]) -> bool
    ensures { result ≡ str_eq_ignore_ascii_case word.now other.now }
{
    word.eq_ignore_ascii_case(other)
}

fn word_kind(mut words: &[(&[u8], Kind)], word: &[u8]) -> Kind
    ensures { result ≡ spec.word_kind (map (λ k. (k.0.now, k.1)) words.entry.now) word.now }
{
    while let [first, rest @ ..] = words {
        if same_word(first.0, word) {
            return first.1;
        }
        words = rest;
    }
    Kind::Name
}

#[tactic(auto, unfolding(crate::specs::Tokens::kind_of_word))]
pub(crate) fn kind_of_word(word: &[u8]) -> Kind
    ensures { result ≡ spec.kind_of_word word.now }
{
    word_kind(&KEY_WORDS, word)
}

fn word(text: &[u8]) -> Token
    requires { 0 < length text.now }
    ensures value { result ≡ spec.word text.now }
    ensures within { (1 ≤ result.1) × (result.1 ≤ length text.now) }
{
    let end = past(Class::Name, text, 1);
    (kind_of_word(&text[..end]), end)
}

/// Returns whether a byte inside quotes takes the next one with it: a backslash in double quotes, and in others a
/// doubled quote.
fn takes_next(quote: u8, byte: u8, next: u8) -> bool
    ensures { result ≡ spec.takes_next quote byte next }
{
    if quote == b'"' {
        byte == b'\\'
    } else {
        byte == quote && next == quote
    }
}

/// Returns the place behind the closing quote, where the text begins behind the opening one at place 1.
fn closing(quote: u8, mut text: &[u8]) -> Option<usize>
    requires { length text.now < 2 ^ 63 }
    ensures value { result ≡ spec.closing quote false 1 text.entry.now }
    ensures within { IfSome result (λ end. (2 ≤ end) × (end ≤ length text.entry.now + 1)) }
{
    let mut is_taken = false;
    let mut place = 1;
    while let [byte, rest @ ..] = text {
        let takes = !is_taken && takes_next(quote, *byte, byte_at(rest, 0));
        if !is_taken && !takes && *byte == quote {
            return Some(place + 1);
        }
        is_taken = takes;
        place += 1;
        text = rest;
    }
    None
}

fn quoted(kind: Kind, text: &[u8]) -> Token
    requires { 0 < length text.now }
    ensures value { result ≡ spec.quoted kind text.now }
    ensures within { (1 ≤ result.1) × (result.1 ≤ length text.now) }
{
    match closing(text[0], &text[1..]) {
        Some(end) => (kind, end),
        None => (Kind::Unclosed, 1),
    }
}

fn less(next: u8) -> Token
    ensures value { result ≡ spec.less next }
    ensures within { spec.IsShort next result.1 }
{
    match next {
        b'=' => (Kind::Le, 2),
        b'>' => (Kind::Ne, 2),
        b'<' => (Kind::Shl, 2),
        _ => (Kind::Lt, 1),
    }
}

fn greater(next: u8) -> Token
    ensures value { result ≡ spec.greater next }
    ensures within { spec.IsShort next result.1 }
{
    match next {
        b'=' => (Kind::Ge, 2),
        b'>' => (Kind::Shr, 2),
        _ => (Kind::Gt, 1),
    }
}

fn mark(byte: u8) -> Kind
    ensures { result ≡ spec.mark byte }
{
    match byte {
        b'(' => Kind::Open,
        b')' => Kind::Close,
        b',' => Kind::Comma,
        b'.' => Kind::Dot,
        b'=' => Kind::Eq,
        b'|' => Kind::BitOr,
        b'^' => Kind::BitXor,
        b'&' => Kind::BitAnd,
        b'~' => Kind::BitNot,
        b'+' => Kind::Add,
        b'-' => Kind::Sub,
        b'*' => Kind::Star,
        b'/' => Kind::Div,
        _ => Kind::Unknown,
    }
}

fn marks(byte: u8, next: u8) -> Token
    ensures value { result ≡ spec.marks byte next }
    ensures within { spec.IsShort next result.1 }
{
    match byte {
        b'<' => less(next),
        b'>' => greater(next),
        b'!' if next == b'=' => (Kind::Ne, 2),
        _ => (mark(byte), 1),
    }
}

/// Returns the end of the text for a semicolon that only blanks follow.
fn semicolon(text: &[u8]) -> Token
    requires { 0 < length text.now }
    ensures value { result ≡ spec.semicolon text.now }
    ensures within { result.1 ≤ length text.now }
{
    if past(Class::Blank, text, 1) == text.len() {
        (Kind::End, 0)
    } else {
        (Kind::Unknown, 1)
    }
}

/// Returns the first token of a text that begins with no blank.
pub(crate) fn token(text: &[u8]) -> Token
    ensures value { result ≡ spec.token text.now }
    ensures within { result.1 ≤ length text.now }
{
    if text.is_empty() {
        return (Kind::End, 0);
    }
    let byte = byte_at(text, 0);
    if is_in(Class::Letter, byte) {
        word(text)
    } else if is_in(Class::Digit, byte) {
        (Kind::Number, past(Class::Digit, text, 0))
    } else if byte == b'\'' {
        quoted(Kind::SingleQuoted, text)
    } else if byte == b'"' {
        quoted(Kind::DoubleQuoted, text)
    } else if byte == b'`' {
        quoted(Kind::QuotedName, text)
    } else if byte == b';' {
        semicolon(text)
    } else {
        marks(byte, byte_at(text, 1))
    }
}

#[tactic(auto, unfolding(crate::specs::Tokens::skip_blanks))]
pub(crate) fn skip_blanks(text: &[u8]) -> &[u8]
    ensures value { result.now ≡ spec.skip_blanks text.now }
    ensures within { length result.now ≤ length text.now }
{
    &text[past(Class::Blank, text, 0)..]
}

#[tactic(auto, unfolding(crate::specs::Tokens::same_kind))]
pub(crate) fn same_kind(kind: Kind, other: Kind) -> bool
    ensures value { result ≡ spec.same_kind kind other }
    ensures same { result ≡ true → kind ≡ other }
{
    kind == other
}
