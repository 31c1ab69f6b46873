//! What tokens in quotes and digits stand for.

ghost use Rattle.std.specs.Prelude.{◌≡◌, ◌<◌, ◌≤◌, false, IfErr, IfOk, IfSome, option_map};
ghost use Rattle.std.specs.Str.{is_utf8};
ghost use Rattle.msi_query_tokens.specs.Input.{Reads, ReadsExactly};
ghost use Rattle.msi_query_tokens.specs.Texts as spec;

use crate::refusal::{Expected, ParseError};
use crate::token::Kind;
use crate::tokens::Tokens;
use msi_base::text::Text;
use std::alloc::{AllocError, Global};
use std::str;

fn inside(token: &[u8]) -> &[u8]
    ensures { result.now ≡ spec.inside token.now }
{
    let rest = &token[1.min(token.len())..];
    &rest[..rest.len().saturating_sub(1)]
}

fn undoubled(alloc: Global, quote: u8, mut text: &[u8]) -> Result<Vec<u8>, AllocError>
    ensures { IfOk result (λ bytes. bytes.items ≡ spec.undoubled quote false text.entry.now) }
{
    let mut bytes = Vec::new(alloc);
    let mut is_second = false;
    while let [byte, rest @ ..] = text {
        if !is_second {
            bytes.push(*byte)?;
        }
        is_second = !is_second && *byte == quote;
        text = rest;
    }
    Ok(bytes)
}

/// What the bytes of a text in double quotes that were read last belong to.
#[derive(Clone, Copy)]
pub(crate) enum Mode {
    Plain,
    /// Behind a backslash.
    Escape,
    /// Behind `\u`.
    Brace,
    /// Before the first digit of a number.
    FirstDigit,
    /// In a number, which is this so far.
    Number(u32),
    /// Behind an escape that isn't known.
    Unknown,
}

/// More than the number of any character.
const NO_CHARACTER: u32 = 0x11_0000;

/// Returns the value of a hexadecimal digit.
fn digit_value(byte: u8) -> Option<u32>
    ensures value { result ≡ spec.digit_value byte }
    ensures within { IfSome result (λ digit. digit < 16) }
{
    match byte {
        b'0'..=b'9' => Some(u32::from(byte - b'0')),
        b'a'..=b'f' => Some(u32::from(byte - b'a') + 10),
        b'A'..=b'F' => Some(u32::from(byte - b'A') + 10),
        _ => None,
    }
}

#[tactic(auto, unfolding(crate::specs::Texts::with_digit))]
fn with_digit(number: u32, byte: u8) -> Mode
    ensures { result ≡ spec.with_digit number byte }
{
    match digit_value(byte) {
        Some(digit) if number < NO_CHARACTER => Mode::Number(number * 16 + digit),
        Some(_) => Mode::Number(NO_CHARACTER),
        None => Mode::Unknown,
    }
}

#[tactic(auto, unfolding(crate::specs::Texts::escaped))]
fn escaped(byte: u8) -> Option<u8>
    ensures { result ≡ spec.escaped byte }
{
    match byte {
        b'"' | b'\'' | b'\\' => Some(byte),
        b'n' => Some(b'\n'),
        b'r' => Some(b'\r'),
        b't' => Some(b'\t'),
        b'0' => Some(0),
        _ => None,
    }
}

#[tactic(auto, unfolding(crate::specs::Texts::with_character))]
fn push_character(bytes: &mut Vec<u8>, number: u32) -> Result<Mode, AllocError>
    ensures { IfOk result (λ mode. spec.with_character bytes.old.items number ≡ (mode, bytes.new.items)) }
{
    let Some(character) = char::from_u32(number) else {
        return Ok(Mode::Unknown);
    };
    let mut place = [0; 4];
    bytes.extend_from_slice(character.encode_utf8(&mut place).as_bytes())?;
    Ok(Mode::Plain)
}

#[tactic(auto, unfolding(crate::specs::Texts::unescape))]
fn unescape(bytes: &mut Vec<u8>, mode: Mode, byte: u8) -> Result<Mode, AllocError>
    ensures { IfOk result (λ after. spec.unescape mode bytes.old.items byte ≡ (after, bytes.new.items)) }
{
    match mode {
        Mode::Plain if byte == b'\\' => Ok(Mode::Escape),
        Mode::Plain => {
            bytes.push(byte)?;
            Ok(Mode::Plain)
        }
        Mode::Escape if byte == b'u' => Ok(Mode::Brace),
        Mode::Escape => match escaped(byte) {
            Some(byte) => {
                bytes.push(byte)?;
                Ok(Mode::Plain)
            }
            None => Ok(Mode::Unknown),
        },
        Mode::Brace if byte == b'{' => Ok(Mode::FirstDigit),
        Mode::FirstDigit => Ok(with_digit(0, byte)),
        Mode::Number(number) if byte == b'}' => push_character(bytes, number),
        Mode::Number(number) => Ok(with_digit(number, byte)),
        Mode::Brace | Mode::Unknown => Ok(Mode::Unknown),
    }
}

/// Returns the bytes of a text in double quotes, or None where an escape isn't known.
#[tactic(auto, unfolding(crate::specs::Texts::unescaped))]
fn unescaped(alloc: Global, mut text: &[u8]) -> Result<Option<Vec<u8>>, AllocError>
    ensures { IfOk result (λ found. option_map (λ bytes. bytes.items) found ≡ spec.unescaped text.entry.now) }
{
    let mut bytes = Vec::new(alloc);
    let mut mode = Mode::Plain;
    while let [byte, rest @ ..] = text {
        mode = unescape(&mut bytes, mode, *byte)?;
        text = rest;
    }
    match mode {
        Mode::Plain => Ok(Some(bytes)),
        _ => Ok(None),
    }
}

fn plain_bytes(alloc: Global, kind: Kind, token: &[u8]) -> Result<Option<Vec<u8>>, AllocError>
    ensures { IfOk result (λ found. option_map (λ bytes. bytes.items) found ≡ spec.plain_bytes kind token.now) }
{
    match kind {
        Kind::QuotedName => Ok(Some(undoubled(alloc, b'`', inside(token))?)),
        Kind::SingleQuoted => Ok(Some(undoubled(alloc, b'\'', inside(token))?)),
        Kind::DoubleQuoted => unescaped(alloc, inside(token)),
        _ => Ok(Some(Vec::from_slice(alloc, token)?)),
    }
}

#[tactic(auto, using(crate::proofs::Utf8Lemmas::not_utf8, crate::proofs::Utf8Lemmas::utf8))]
fn is_utf8(bytes: &[u8]) -> bool
    ensures { result ≡ is_utf8 bytes.now }
{
    match str::from_utf8(bytes) {
        Ok(_) => true,
        Err(_) => false,
    }
}

#[tactic(auto, using(crate::proofs::Utf8Lemmas::not_utf8))]
fn utf8_text(bytes: Vec<u8>) -> Option<Text>
    ensures { result ≡ spec.utf8_text bytes.items }
{
    if !is_utf8(bytes.as_slice()) {
        return None;
    }
    match String::from_utf8(bytes) {
        Ok(text) => Some(Text::from_string(text)),
        Err(_) => None,
    }
}

/// Reads what the next token, a name or a text, stands for, and goes past it.
///
/// # Errors
/// `OutOfMemory`; refuses a text with an escape that isn't known, or whose bytes are no UTF-8. After an error the token
/// still comes next.
#[tactic(auto, unfolding(crate::specs::Texts::text))]
pub fn text(alloc: Global, tokens: &mut Tokens<'_>) -> Result<Text, ParseError>
    ensures read { Reads (spec.text tokens.old) result tokens.new }
    ensures same { IfErr result (λ _. tokens.new ≡ tokens.old) }
{
    let Some(bytes) = plain_bytes(alloc, tokens.peek(), tokens.spelling())? else {
        return Err(tokens.refuse(Expected::Escape));
    };
    let Some(text) = utf8_text(bytes) else {
        return Err(tokens.refuse(Expected::Escape));
    };
    tokens.take();
    Ok(text)
}

/// More than any number of 32 bits.
const NO_NUMBER: u64 = 2_147_483_649;

/// Returns the number of decimal digits, at most `NO_NUMBER`.
fn number_of(mut digits: &[u8]) -> u32
    ensures value { result ≡ spec.number_of digits.entry.now }
    ensures within { result ≤ 2147483649 }
{
    let mut number: u64 = 0;
    while let [digit, rest @ ..] = digits {
        number = (number * 10 + u64::from(digit.saturating_sub(b'0'))).min(NO_NUMBER);
        digits = rest;
    }
    number as u32
}

/// Reads the number whose digits the next token is, and goes past it.
///
/// # Errors
/// Refuses digits that are more than 2147483647; then the token still comes next. Memory is never refused.
#[tactic(auto, unfolding(crate::specs::Texts::positive))]
pub fn positive(tokens: &mut Tokens<'_>) -> Result<i32, ParseError>
    ensures read { ReadsExactly (spec.positive tokens.old) result tokens.new }
    ensures same { IfErr result (λ _. tokens.new ≡ tokens.old) }
{
    let number = number_of(tokens.spelling());
    if number <= 2_147_483_647 {
        tokens.take();
        Ok(number as i32)
    } else {
        Err(tokens.refuse(Expected::Number))
    }
}

/// Reads the number below zero whose digits behind the minus the next token is, and goes past it.
///
/// # Errors
/// Refuses digits that are more than 2147483648; then the token still comes next. Memory is never refused.
#[tactic(auto, unfolding(crate::specs::Texts::negative))]
pub fn negative(tokens: &mut Tokens<'_>) -> Result<i32, ParseError>
    ensures read { ReadsExactly (spec.negative tokens.old) result tokens.new }
    ensures same { IfErr result (λ _. tokens.new ≡ tokens.old) }
{
    let number = number_of(tokens.spelling());
    if number <= 2_147_483_648 {
        tokens.take();
        Ok(-i64::from(number) as i32)
    } else {
        Err(tokens.refuse(Expected::Number))
    }
}
