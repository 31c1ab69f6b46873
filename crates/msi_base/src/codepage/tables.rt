//! The tables of the pages that have one byte for a character.

ghost use Rattle.std.specs.Prelude.{◌≡◌, ◌==◌, ◌≤◌, IfOk, IfSome, length, map, position, string_bytes, encode_utf8_all};
ghost use Rattle.std.specs.Prelude.{is_some};
ghost use Rattle.std.specs.List.{list_all};
ghost use Rattle.std.specs.Option.{option_copied};
ghost use Rattle.std.specs.Str.{chars};
ghost use Rattle.msi_base.specs.PageTables.{upper_characters, character_read, byte_of, byte_written};

use crate::codepage::CodePage;
use std::alloc::{AllocError, Global};

/// Windows-1252 from byte 0x80 on, eight bytes a line. Where it leaves a byte open, the control character of that
/// number stands.
static WINDOWS_1252: [char; 128] = [
    '\u{20AC}', '\u{0081}', '\u{201A}', '\u{0192}', '\u{201E}', '\u{2026}', '\u{2020}', '\u{2021}',
    '\u{02C6}', '\u{2030}', '\u{0160}', '\u{2039}', '\u{0152}', '\u{008D}', '\u{017D}', '\u{008F}',
    '\u{0090}', '\u{2018}', '\u{2019}', '\u{201C}', '\u{201D}', '\u{2022}', '\u{2013}', '\u{2014}',
    '\u{02DC}', '\u{2122}', '\u{0161}', '\u{203A}', '\u{0153}', '\u{009D}', '\u{017E}', '\u{0178}',
    '\u{00A0}', '\u{00A1}', '\u{00A2}', '\u{00A3}', '\u{00A4}', '\u{00A5}', '\u{00A6}', '\u{00A7}',
    '\u{00A8}', '\u{00A9}', '\u{00AA}', '\u{00AB}', '\u{00AC}', '\u{00AD}', '\u{00AE}', '\u{00AF}',
    '\u{00B0}', '\u{00B1}', '\u{00B2}', '\u{00B3}', '\u{00B4}', '\u{00B5}', '\u{00B6}', '\u{00B7}',
    '\u{00B8}', '\u{00B9}', '\u{00BA}', '\u{00BB}', '\u{00BC}', '\u{00BD}', '\u{00BE}', '\u{00BF}',
    '\u{00C0}', '\u{00C1}', '\u{00C2}', '\u{00C3}', '\u{00C4}', '\u{00C5}', '\u{00C6}', '\u{00C7}',
    '\u{00C8}', '\u{00C9}', '\u{00CA}', '\u{00CB}', '\u{00CC}', '\u{00CD}', '\u{00CE}', '\u{00CF}',
    '\u{00D0}', '\u{00D1}', '\u{00D2}', '\u{00D3}', '\u{00D4}', '\u{00D5}', '\u{00D6}', '\u{00D7}',
    '\u{00D8}', '\u{00D9}', '\u{00DA}', '\u{00DB}', '\u{00DC}', '\u{00DD}', '\u{00DE}', '\u{00DF}',
    '\u{00E0}', '\u{00E1}', '\u{00E2}', '\u{00E3}', '\u{00E4}', '\u{00E5}', '\u{00E6}', '\u{00E7}',
    '\u{00E8}', '\u{00E9}', '\u{00EA}', '\u{00EB}', '\u{00EC}', '\u{00ED}', '\u{00EE}', '\u{00EF}',
    '\u{00F0}', '\u{00F1}', '\u{00F2}', '\u{00F3}', '\u{00F4}', '\u{00F5}', '\u{00F6}', '\u{00F7}',
    '\u{00F8}', '\u{00F9}', '\u{00FA}', '\u{00FB}', '\u{00FC}', '\u{00FD}', '\u{00FE}', '\u{00FF}',
];

/// Mac OS Roman from byte 0x80 on.
static MACINTOSH_ROMAN: [char; 128] = [
    '\u{00C4}', '\u{00C5}', '\u{00C7}', '\u{00C9}', '\u{00D1}', '\u{00D6}', '\u{00DC}', '\u{00E1}',
    '\u{00E0}', '\u{00E2}', '\u{00E4}', '\u{00E3}', '\u{00E5}', '\u{00E7}', '\u{00E9}', '\u{00E8}',
    '\u{00EA}', '\u{00EB}', '\u{00ED}', '\u{00EC}', '\u{00EE}', '\u{00EF}', '\u{00F1}', '\u{00F3}',
    '\u{00F2}', '\u{00F4}', '\u{00F6}', '\u{00F5}', '\u{00FA}', '\u{00F9}', '\u{00FB}', '\u{00FC}',
    '\u{2020}', '\u{00B0}', '\u{00A2}', '\u{00A3}', '\u{00A7}', '\u{2022}', '\u{00B6}', '\u{00DF}',
    '\u{00AE}', '\u{00A9}', '\u{2122}', '\u{00B4}', '\u{00A8}', '\u{2260}', '\u{00C6}', '\u{00D8}',
    '\u{221E}', '\u{00B1}', '\u{2264}', '\u{2265}', '\u{00A5}', '\u{00B5}', '\u{2202}', '\u{2211}',
    '\u{220F}', '\u{03C0}', '\u{222B}', '\u{00AA}', '\u{00BA}', '\u{03A9}', '\u{00E6}', '\u{00F8}',
    '\u{00BF}', '\u{00A1}', '\u{00AC}', '\u{221A}', '\u{0192}', '\u{2248}', '\u{2206}', '\u{00AB}',
    '\u{00BB}', '\u{2026}', '\u{00A0}', '\u{00C0}', '\u{00C3}', '\u{00D5}', '\u{0152}', '\u{0153}',
    '\u{2013}', '\u{2014}', '\u{201C}', '\u{201D}', '\u{2018}', '\u{2019}', '\u{00F7}', '\u{25CA}',
    '\u{00FF}', '\u{0178}', '\u{2044}', '\u{20AC}', '\u{2039}', '\u{203A}', '\u{FB01}', '\u{FB02}',
    '\u{2021}', '\u{00B7}', '\u{201A}', '\u{201E}', '\u{2030}', '\u{00C2}', '\u{00CA}', '\u{00C1}',
    '\u{00CB}', '\u{00C8}', '\u{00CD}', '\u{00CE}', '\u{00CF}', '\u{00CC}', '\u{00D3}', '\u{00D4}',
    '\u{F8FF}', '\u{00D2}', '\u{00DA}', '\u{00DB}', '\u{00D9}', '\u{0131}', '\u{02C6}', '\u{02DC}',
    '\u{00AF}', '\u{02D8}', '\u{02D9}', '\u{02DA}', '\u{00B8}', '\u{02DD}', '\u{02DB}', '\u{02C7}',
];

/// Returns the characters of the bytes from 0x80 on, where the page has a table.
#[tactic(auto, unfolding(crate::specs::PageTables::windows_1252, crate::specs::PageTables::macintosh_roman))]
pub fn upper_characters(page: CodePage) -> Option<&'static [char]>
    ensures table { option_copied result ≡ upper_characters page }
    ensures few { IfSome result (λ upper. length upper.now ≤ 128) }
{
    match page {
        CodePage::UsAscii => Some(&[]),
        CodePage::Windows1252 | CodePage::Iso88591 => Some(&WINDOWS_1252),
        CodePage::MacintoshRoman => Some(&MACINTOSH_ROMAN),
        _ => None,
    }
}

fn character_read(upper: &[char], byte: u8) -> char
    ensures { result ≡ character_read upper.now byte }
{
    if byte < 0x80 {
        return char::from(byte);
    }
    match upper.get(byte as usize - 0x80) {
        Some(character) => *character,
        None => '\u{FFFD}',
    }
}

fn place_of(upper: &[char], character: char) -> Option<usize>
    ensures { result ≡ position (λ other. other == character) upper.now }
{
    upper.iter().position(|other| *other == character)
}

fn byte_written(upper: &[char], character: char) -> u8
    requires { length upper.now ≤ 128 }
    ensures { result ≡ byte_written upper.now character }
{
    if character < '\u{80}' {
        return character as u8;
    }
    match place_of(upper, character) {
        Some(place) => 0x80 + place as u8,
        None => b'?',
    }
}

fn has_byte(upper: &[char], character: char) -> bool
    ensures { result ≡ is_some (byte_of upper.now character) }
{
    character < '\u{80}' || place_of(upper, character).is_some()
}

pub(crate) fn has_bytes(upper: &[char], text: &str) -> bool
    ensures { result ≡ list_all (λ c. is_some (byte_of upper.now c)) (chars text.now) }
{
    text.chars().all(|character| has_byte(upper, character))
}

pub(crate) fn text_read(alloc: Global, upper: &[char], bytes: &[u8]) -> Result<String, AllocError>
    ensures { IfOk result (λ text. string_bytes text ≡ encode_utf8_all (map (character_read upper.now) bytes.now)) }
{
    let mut text = String::with_capacity(alloc, bytes.len())?;
    for byte in bytes {
        text.push(character_read(upper, *byte))?;
    }
    Ok(text)
}

/// Returns how many characters a text has.
pub fn character_count(text: &str) -> usize
    ensures { result ≡ length (chars text.now) }
{
    text.chars().count()
}

pub(crate) fn bytes_written(
    alloc: Global,
    upper: &[char],
    text: &str,
) -> Result<Vec<u8>, AllocError>
    requires { length upper.now ≤ 128 }
    ensures { IfOk result (λ bytes. bytes.items ≡ map (byte_written upper.now) (chars text.now)) }
{
    let mut bytes = Vec::with_capacity(alloc, character_count(text))?;
    for character in text.chars() {
        bytes.push(byte_written(upper, character))?;
    }
    Ok(bytes)
}
