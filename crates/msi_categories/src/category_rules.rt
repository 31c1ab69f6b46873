//! Which texts a category accepts.

ghost use Rattle.std.specs.Prelude.{◌≡◌, is_some, length, neg_ℤ, pos};
ghost use Rattle.std.specs.Int.{is_in_range};
ghost use Rattle.std.specs.List.{list_all, list_any};
ghost use Rattle.msi_categories.specs.CategoryRules.{continues_name, is_accepted, is_braced_uuid, is_cabinet};
ghost use Rattle.msi_categories.specs.CategoryRules.{is_guid};
ghost use Rattle.msi_categories.specs.CategoryRules.{is_identifier, is_language_list, is_lower, is_property};
ghost use Rattle.msi_categories.specs.CategoryRules.{is_short_name};
ghost use Rattle.msi_categories.specs.CategoryRules.{is_upper, is_version, starts_name};
ghost use Rattle.msi_categories.specs.Numerals.{is_number_within, u16_in};

use crate::category::Category;
use uuid::Uuid;

/// How many bytes a UUID has in braces, with its hyphens.
const BRACED_UUID_LEN: usize = 38;

/// How many numbers a version may have.
const MOST_VERSION_PARTS: usize = 4;

impl Category {
    /// Returns whether a text may stand in a column of this category (MSI SDK, "Column Data Types").
    ///
    /// The rules of UpperCase, LowerCase, Integer, DoubleInteger, Number, Identifier, Property, Guid, Version,
    /// Language and Cabinet stand beside these members; every other category accepts every text. A number may have a
    /// `+` in front, the three signed ones a `-` too. It takes no memory.
    pub fn validate(self, text: &str) -> bool
        ensures { result ≡ is_accepted self text.now }
    {
        match self {
            Category::UpperCase => !has_lower(text),
            Category::LowerCase => !has_upper(text),
            Category::Integer => is_number_of_16_bits(text),
            Category::DoubleInteger | Category::Number => is_number_of_32_bits(text),
            Category::Identifier => is_identifier(text.as_bytes()),
            Category::Property => is_property(text.as_bytes()),
            Category::Guid => is_guid(text),
            Category::Version => is_version(text),
            Category::Language => is_language_list(text),
            Category::Cabinet => is_cabinet(text),
            _ => true,
        }
    }
}

fn has_lower(text: &str) -> bool
    ensures { result ≡ list_any is_lower text.now }
{
    text.as_bytes().iter().any(|byte| byte.is_ascii_lowercase())
}

fn has_upper(text: &str) -> bool
    ensures { result ≡ list_any is_upper text.now }
{
    text.as_bytes().iter().any(|byte| byte.is_ascii_uppercase())
}

fn is_number_of_16_bits(text: &str) -> bool
    ensures { result ≡ is_number_within (neg_ℤ (pos 32768)) (pos 32767) text.now }
{
    text.parse::<i16>().is_ok()
}

fn is_number_of_32_bits(text: &str) -> bool
    ensures { result ≡ is_number_within (neg_ℤ (pos 2147483648)) (pos 2147483647) text.now }
{
    text.parse::<i32>().is_ok()
}

/// Whether a text is a number of 16 bits without a minus.
fn is_unsigned_number(text: &str) -> bool
    ensures { result ≡ is_some (u16_in text.now) }
{
    text.parse::<u16>().is_ok()
}

fn starts_name(byte: u8) -> bool
    ensures { result ≡ starts_name byte }
{
    byte.is_ascii_lowercase() || byte.is_ascii_uppercase() || byte == b'_'
}

fn continues_name(byte: u8) -> bool
    ensures { result ≡ continues_name byte }
{
    starts_name(byte) || byte.is_ascii_digit() || byte == b'.'
}

/// Whether a text is a name of letters, digits, `_` and `.` that begins with a letter or `_`.
fn is_identifier(text: &[u8]) -> bool
    ensures { result ≡ is_identifier text.now }
{
    match text {
        [first, rest @ ..] => starts_name(*first) && all_continue_name(rest),
        [] => false,
    }
}

fn all_continue_name(text: &[u8]) -> bool
    ensures { result ≡ list_all continues_name text.now }
{
    text.iter().all(|byte| continues_name(*byte))
}

/// Whether a text is an identifier, with or without one `%` in front.
fn is_property(text: &[u8]) -> bool
    ensures { result ≡ is_property text.now }
{
    match text {
        [b'%', rest @ ..] => is_identifier(rest),
        _ => is_identifier(text),
    }
}

/// Whether a text is a GUID in braces, without small letters.
fn is_guid(text: &str) -> bool
    ensures { result ≡ is_guid text.now }
{
    is_braced_uuid(text) && !has_lower(text)
}

/// Whether a text is a UUID with its hyphens, in braces. Only this of its forms has so many bytes.
fn is_braced_uuid(text: &str) -> bool
    ensures { result ≡ is_braced_uuid text.now }
{
    text.len() == BRACED_UUID_LEN && Uuid::parse_str(text).is_ok()
}

/// Whether a text is at most four numbers of 16 bits between periods.
fn is_version(text: &str) -> bool
    ensures { result ≡ is_version text.now }
{
    text.split('.').count() <= MOST_VERSION_PARTS && text.split('.').all(is_unsigned_number)
}

fn is_language_list(text: &str) -> bool
    ensures { result ≡ is_language_list text.now }
{
    text.split(',').all(is_unsigned_number)
}

/// Whether a text is `#` and the name of a stream, or a short file name.
fn is_cabinet(text: &str) -> bool
    ensures { result ≡ is_cabinet text.now }
{
    match text.as_bytes() {
        [b'#', rest @ ..] => is_identifier(rest),
        _ => is_short_name(text),
    }
}

/// Whether a text is a file name of 1 to 8 bytes, and at most 3 behind its last period.
fn is_short_name(text: &str) -> bool
    ensures { result ≡ is_short_name text.now }
{
    match text.rsplit_once('.') {
        Some((front, end)) => is_short_front(front) && end.len() <= 3,
        None => is_short_front(text),
    }
}

fn is_short_front(text: &str) -> bool
    ensures { result ≡ is_in_range 1 8 (length text.now) }
{
    matches!(text.len(), 1..=8)
}
