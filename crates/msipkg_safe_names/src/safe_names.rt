//! Names of files for streams. Whatever a stream's name is, its file lies in the folder itself, and no two streams have
//! one file, also where the file system ignores case.

ghost use Rattle.std.specs.Prelude.{◌≡◌, ◌==◌, ◌<◌, ◌%◌, ◌++◌, ◌∷◌, [], IfOk, OnErr, OnOk, false, not, string_bytes};
ghost use Rattle.std.specs.Prelude.{true};
ghost use Rattle.std.specs.Char.{digit_char};
ghost use Rattle.std.specs.List.{list_all, list_any};
ghost use Rattle.std.specs.Str.{str_eq_ignore_ascii_case};
ghost use Rattle.msipkg_safe_names.specs.SafeNames.{IsSafeName, StaysInside, Takes, devices, ending_of, escape};
ghost use Rattle.msipkg_safe_names.specs.SafeNames.{full_spelling, given_name, hexadecimal, is_blank as is_blank_char};
ghost use Rattle.msipkg_safe_names.specs.SafeNames.{is_name_of_device, is_plain as is_plain_char, is_safe, is_taken};
ghost use Rattle.msipkg_safe_names.specs.SafeNames.{never_empty, safe_spelling, spelled, stands, stands_anywhere};

use std::alloc::{AllocError, Global};
use std::collections::BTreeSet;
use std::marker::Model;

/// The names of devices in Windows, which no file may have there.
static DEVICES: [&str; 22] = [
    "CON", "PRN", "AUX", "NUL", "COM1", "COM2", "COM3", "COM4", "COM5", "COM6", "COM7", "COM8",
    "COM9", "LPT1", "LPT2", "LPT3", "LPT4", "LPT5", "LPT6", "LPT7", "LPT8", "LPT9",
];

/// The name of a file that lies in its folder: it isn't empty, parts no path, and is neither `.` nor `..`. Contracts
/// see its bytes.
#[derive(Drop)]
pub struct SafeName {
    text: String,
}

impl Model for SafeName {
    ghost use Rattle.std.specs.Prelude.{List, ℕ, string_bytes};
    ghost use Rattle.msipkg_safe_names.specs.SafeNames.{IsSafeName};

    ghost Value = { List ℕ };

    ghost view = { λ name. string_bytes name.text };

    ghost invariant = { λ name. IsSafeName (string_bytes name.text) };
}

/// What a file's name ends with.
#[derive(Clone, Copy)]
pub enum Ending {
    /// `.csv`, of comma-separated values.
    Csv,
    /// `.idt`, of a text archive.
    Idt,
}

fn ending_text(ending: Ending) -> &'static str
    ensures text { result.now ≡ ending_of ending }
    ensures safe { list_all is_safe result.now ≡ true }
{
    match ending {
        Ending::Csv => ".csv",
        Ending::Idt => ".idt",
    }
}

impl SafeName {
    /// Returns the name as a text.
    pub fn as_str(&self) -> &str
        ensures text { result.now ≡ self.now }
        ensures safe { IsSafeName result.now }
    {
        self.text.as_str()
    }

    /// Returns the name with an ending behind it.
    ///
    /// # Errors
    /// Fails if memory is refused.
    pub fn with_ending(&self, ending: Ending) -> Result<SafeName, AllocError>
        ensures { IfOk result (λ named. named ≡ self.now ++ ending_of ending) }
    {
        let mut text = self.text.clone()?;
        text.push_str(ending_text(ending))?;
        Ok(SafeName { text })
    }
}

/// The names that are given out already. Contracts see them with small letters.
pub struct SafeNames {
    alloc: Global,
    /// The names, with small letters.
    taken: BTreeSet<String>,
}

impl Model for SafeNames {
    ghost use Rattle.std.specs.Prelude.{List, ℕ, map, string_bytes};

    ghost Value = { List (List ℕ) };

    ghost view = { λ names. map string_bytes names.taken.keys };
}

/// Written out, so that a function that owns one calls one drop, and its proof doesn't go through those of the parts.
impl Drop for SafeNames {
    fn drop(self) {
        let SafeNames { alloc: _, taken: _ } = self;
    }
}

impl SafeNames {
    /// Returns a start, with no name given out.
    pub fn new(alloc: Global) -> SafeNames
        ensures { result ≡ [] }
    {
        SafeNames {
            alloc,
            taken: BTreeSet::new(alloc),
        }
    }

    /// Returns the name of a file for a stream: its safe name, or one whose letters are escaped, too, if the safe name
    /// was given out already, in whatever case.
    ///
    /// # Errors
    /// Fails if memory is refused.
    pub fn give(&mut self, name: &str) -> Result<SafeName, AllocError>
        ensures name { IfOk result (λ file. file ≡ given_name self.old name.now) }
        ensures taken { IfOk result (λ file. Takes self.old self.new file) }
        ensures failed { OnErr result (self.new ≡ self.old) }
    {
        let safe = safe_name(self.alloc, name)?;
        if self.take(safe.as_str())? {
            return Ok(safe);
        }
        let spelled = spelled_name(self.alloc, name)?;
        self.take(spelled.as_str())?;
        Ok(spelled)
    }

    fn take(&mut self, name: &str) -> Result<bool, AllocError>
        ensures fresh { IfOk result (λ fresh. fresh ≡ not (is_taken self.old name.now)) }
        ensures taken { OnOk result (Takes self.old self.new name.now) }
        ensures refused { IfOk result (λ fresh. fresh ≡ false → self.new ≡ self.old) }
        ensures failed { OnErr result (self.new ≡ self.old) }
    {
        let mut small = String::from_str(self.alloc, name)?;
        small.make_ascii_lowercase();
        if self.taken.contains(small.as_str()) {
            return Ok(false);
        }
        self.taken.insert(small)?;
        Ok(true)
    }
}

/// Returns the name of a file for a stream. Letters, digits and some signs of ASCII stand for themselves; another
/// character of ASCII is `%` and two digits, and any other `%{..}` with its number. A dot or a space at the ends is
/// escaped, and the first letter where the name would name a device. So different streams have different names. The
/// empty name, which no stream has, becomes `%`.
///
/// # Errors
/// Fails if memory is refused.
pub fn safe_name(alloc: Global, name: &str) -> Result<SafeName, AllocError>
    ensures { IfOk result (λ safe. safe ≡ safe_spelling name.now) }
{
    let mut safe = String::new(alloc);
    let last = name.chars().count().saturating_sub(1);
    let is_device = names_device(name);
    for (place, c) in name.chars().enumerate() {
        push_spelled(
            &mut safe,
            c,
            may_stand(c, place == 0, place == last, is_device),
        )?;
    }
    finished(alloc, safe)
}

/// Returns the name of a file in which letters are escaped, too.
fn spelled_name(alloc: Global, name: &str) -> Result<SafeName, AllocError>
    ensures { IfOk result (λ spelled. spelled ≡ full_spelling name.now) }
{
    let mut spelled = String::new(alloc);
    for c in name.chars() {
        push_spelled(&mut spelled, c, may_stand_anywhere(c))?;
    }
    finished(alloc, spelled)
}

/// Returns the name that a text is. An empty text, which no stream's name is, becomes `%`.
fn finished(alloc: Global, text: String) -> Result<SafeName, AllocError>
    requires { StaysInside (string_bytes text) }
    ensures { IfOk result (λ safe. safe ≡ never_empty (string_bytes text)) }
{
    if text.is_empty() {
        let text = String::from_str(alloc, "%")?;
        return Ok(SafeName { text });
    }
    Ok(SafeName { text })
}

/// Returns whether a character needs no escape at its place. A blank or a dot at the ends needs one, and so does the
/// first character of a device's name.
fn may_stand(c: char, is_first: bool, is_last: bool, is_device: bool) -> bool
    ensures { result ≡ stands c is_first is_last is_device }
{
    !(is_blank(c) && (is_first || is_last)) && !(is_device && is_first)
}

/// Returns whether a character needs no escape at any place of a name in which letters are escaped, too.
fn may_stand_anywhere(c: char) -> bool
    ensures { result ≡ stands_anywhere c }
{
    !c.is_ascii_alphabetic() && !is_blank(c)
}

fn is_plain(c: char) -> bool
    ensures { result ≡ is_plain_char c }
{
    c.is_ascii_alphanumeric()
        || matches!(
            c,
            '.' | '_' | '-' | '#' | '+' | '(' | ')' | '{' | '}' | '@' | ',' | ' '
        )
}

/// Returns whether a character needs an escape at the ends of a name.
fn is_blank(c: char) -> bool
    ensures { result ≡ is_blank_char c }
{
    matches!(c, '.' | ' ')
}

fn push_spelled(safe: &mut String, c: char, may_stand: bool) -> Result<(), AllocError>
    ensures { OnOk result (string_bytes safe.new ≡ string_bytes safe.old ++ spelled may_stand c) }
{
    if is_plain(c) && may_stand {
        safe.push(c)
    } else {
        push_escape(safe, c)
    }
}

fn push_escape(safe: &mut String, c: char) -> Result<(), AllocError>
    ensures { OnOk result (string_bytes safe.new ≡ string_bytes safe.old ++ escape c) }
{
    let code = u32::from(c);
    safe.push('%')?;
    if code < 0x80 {
        push_digit(safe, code >> 4)?;
        return push_digit(safe, code);
    }
    safe.push('{')?;
    push_number(safe, code)?;
    safe.push('}')
}

/// Adds a number to the base 16, without zeros in front.
fn push_number(safe: &mut String, number: u32) -> Result<(), AllocError>
    ensures { 0 < number → OnOk result (string_bytes safe.new ≡ string_bytes safe.old ++ hexadecimal number) }
{
    for place in 1..8u32 {
        let digits = number >> (32 - 4 * place);
        if digits > 0 {
            push_digit(safe, digits)?;
        }
    }
    push_digit(safe, number)
}

fn push_digit(safe: &mut String, number: u32) -> Result<(), AllocError>
    ensures { OnOk result (string_bytes safe.new ≡ string_bytes safe.old ++ digit_char (number % 16) ∷ []) }
{
    safe.push(digit((number % 16) as u8))
}

fn digit(number: u8) -> char
    requires { number < 16 }
    ensures { result ≡ digit_char number }
{
    if number < 10 {
        char::from(b'0' + number)
    } else {
        char::from(b'a' + (number - 10))
    }
}

fn names_device(name: &str) -> bool
    ensures { result ≡ is_name_of_device name.now }
{
    match name.split_once('.') {
        Some((stem, _)) => is_device(stem.trim()),
        None => is_device(name.trim()),
    }
}

fn is_device(name: &str) -> bool
    ensures { result ≡ list_any (λ device. str_eq_ignore_ascii_case device name.now) devices }
{
    is_one_of(&DEVICES, name)
}

fn is_one_of(words: &[&str], name: &str) -> bool
    ensures { result ≡ list_any (λ word. str_eq_ignore_ascii_case word.now name.now) words.now }
{
    words.iter().any(|word| is_same(word, name))
}

fn is_same(word: &str, other: &str) -> bool
    ensures { result ≡ str_eq_ignore_ascii_case word.now other.now }
{
    word.eq_ignore_ascii_case(other)
}
