//! Code pages.

ghost use Rattle.std.specs.Prelude.{◌≡◌, ◌==◌, ◌<◌, ◌≤◌, ◌^◌, pos, true, false, if◌then◌else◌, is_some, length};
ghost use Rattle.std.specs.Prelude.{option_map, MatchOption, IfOk, IfErr, IfSome, IsTrue, ◌↔◌, string_bytes};
ghost use Rattle.std.specs.Option.{option_copied};
ghost use Rattle.msi_base.specs.Pages.{IsWritable, Reads, Writes, all_pages, bytes_in, is_ascii, page_id};
ghost use Rattle.msi_base.specs.Pages.{page_with_id, page_with_signed_id, single_byte_spelling, single_byte_text};
ghost use Rattle.msi_base.specs.Pages.{page_name, text_in};
ghost use Rattle.msi_base.specs.declared.errors.ErrorKind.TheVariants.{InvalidData, InvalidInput, OutOfMemory};

pub(crate) mod tables;

use crate::codepage::tables::{bytes_written, has_bytes, text_read, upper_characters};
use crate::errors::{Error, ErrorKind};
use crate::reasons;
use bstr::ByteSlice;
use std::alloc::Global;
use std::str;

/// A table of bytes and characters. UTF-8 has every character. US-ASCII, Windows-1252, ISO 8859-1 (which reads as
/// Windows-1252) and Mac OS Roman have one byte for a character, and each other page has ASCII alone.
#[derive(Clone, Copy, Default, PartialEq, Eq, Hash, Debug)]
pub enum CodePage {
    /// Japanese, Shift JIS (932).
    Windows932,
    /// Simplified Chinese, GBK (936).
    Windows936,
    /// Korean, Unified Hangul Code (949).
    Windows949,
    /// Traditional Chinese, Big5 (950).
    Windows950,
    /// Traditional Chinese with Hong Kong's characters, Big5-HKSCS (951).
    Windows951,
    /// Central European (1250).
    Windows1250,
    /// Cyrillic (1251).
    Windows1251,
    /// Western European (1252).
    Windows1252,
    /// Greek (1253).
    Windows1253,
    /// Turkish (1254).
    Windows1254,
    /// Hebrew (1255).
    Windows1255,
    /// Arabic (1256).
    Windows1256,
    /// Baltic (1257).
    Windows1257,
    /// Vietnamese (1258).
    Windows1258,
    /// Western European of Mac OS (10000).
    MacintoshRoman,
    /// Cyrillic of Mac OS (10007).
    MacintoshCyrillic,
    /// ASCII alone (20127).
    UsAscii,
    /// Western European, ISO 8859-1 (28591).
    Iso88591,
    /// Central European, ISO 8859-2 (28592).
    Iso88592,
    /// South European, ISO 8859-3 (28593).
    Iso88593,
    /// North European, ISO 8859-4 (28594).
    Iso88594,
    /// Cyrillic, ISO 8859-5 (28595).
    Iso88595,
    /// Arabic, ISO 8859-6 (28596).
    Iso88596,
    /// Greek, ISO 8859-7 (28597).
    Iso88597,
    /// Hebrew, ISO 8859-8 (28598).
    Iso88598,
    /// Unicode, UTF-8 (65001, and 0).
    #[default]
    Utf8,
}

impl CodePage {
    /// Returns every page.
    pub fn all() -> [CodePage; 26]
        ensures { result ≡ all_pages }
    {
        [
            CodePage::Windows932,
            CodePage::Windows936,
            CodePage::Windows949,
            CodePage::Windows950,
            CodePage::Windows951,
            CodePage::Windows1250,
            CodePage::Windows1251,
            CodePage::Windows1252,
            CodePage::Windows1253,
            CodePage::Windows1254,
            CodePage::Windows1255,
            CodePage::Windows1256,
            CodePage::Windows1257,
            CodePage::Windows1258,
            CodePage::MacintoshRoman,
            CodePage::MacintoshCyrillic,
            CodePage::UsAscii,
            CodePage::Iso88591,
            CodePage::Iso88592,
            CodePage::Iso88593,
            CodePage::Iso88594,
            CodePage::Iso88595,
            CodePage::Iso88596,
            CodePage::Iso88597,
            CodePage::Iso88598,
            CodePage::Utf8,
        ]
    }

    /// Returns the page of an id: none for a negative or unknown one, and UTF-8 for 0.
    pub fn from_id(id: i32) -> Option<CodePage>
        ensures { result ≡ page_with_signed_id id }
    {
        if id < 0 {
            None
        } else {
            CodePage::from_number(id as u32)
        }
    }

    pub(crate) fn from_number(number: u32) -> Option<CodePage>
        ensures { result ≡ page_with_id number }
    {
        if number == 0 {
            return Some(CodePage::Utf8);
        }
        for page in CodePage::all() {
            if page.has_number(number) {
                return Some(page);
            }
        }
        None
    }

    fn has_number(self, number: u32) -> bool
        ensures { result ≡ (page_id self == number) }
    {
        self.to_number() == number
    }

    /// Returns the id of the page, as a database stores it.
    pub fn id(self) -> i32
        ensures { result ≡ pos (page_id self) }
    {
        self.to_number() as i32
    }

    pub(crate) fn to_number(self) -> u32
        ensures value { result ≡ page_id self }
        ensures least { 0 < result }
        ensures most { result < 2 ^ 31 }
    {
        match self {
            CodePage::Windows932 => 932,
            CodePage::Windows936 => 936,
            CodePage::Windows949 => 949,
            CodePage::Windows950 => 950,
            CodePage::Windows951 => 951,
            CodePage::Windows1250 => 1250,
            CodePage::Windows1251 => 1251,
            CodePage::Windows1252 => 1252,
            CodePage::Windows1253 => 1253,
            CodePage::Windows1254 => 1254,
            CodePage::Windows1255 => 1255,
            CodePage::Windows1256 => 1256,
            CodePage::Windows1257 => 1257,
            CodePage::Windows1258 => 1258,
            CodePage::MacintoshRoman => 10000,
            CodePage::MacintoshCyrillic => 10007,
            CodePage::UsAscii => 20127,
            CodePage::Iso88591 => 28591,
            CodePage::Iso88592 => 28592,
            CodePage::Iso88593 => 28593,
            CodePage::Iso88594 => 28594,
            CodePage::Iso88595 => 28595,
            CodePage::Iso88596 => 28596,
            CodePage::Iso88597 => 28597,
            CodePage::Iso88598 => 28598,
            CodePage::Utf8 => 65001,
        }
    }

    /// Returns the name of the page, for people.
    pub fn name(self) -> &'static str
        ensures { result.now ≡ page_name self }
    {
        match self {
            CodePage::Windows932 => "Windows Japanese Shift JIS",
            CodePage::Windows936 => "Windows Chinese (simplified) GBK",
            CodePage::Windows949 => "Windows Korean Unified Hangul Code",
            CodePage::Windows950 => "Windows Chinese (traditional) Big5",
            CodePage::Windows951 => "Windows Chinese (traditional) Big5-HKSCS",
            CodePage::Windows1250 => "Windows Latin 2",
            CodePage::Windows1251 => "Windows Cyrillic",
            CodePage::Windows1252 => "Windows Latin 1",
            CodePage::Windows1253 => "Windows Greek",
            CodePage::Windows1254 => "Windows Turkish",
            CodePage::Windows1255 => "Windows Hebrew",
            CodePage::Windows1256 => "Windows Arabic",
            CodePage::Windows1257 => "Windows Baltic",
            CodePage::Windows1258 => "Windows Vietnamese",
            CodePage::MacintoshRoman => "Mac OS Roman",
            CodePage::MacintoshCyrillic => "Macintosh Cyrillic",
            CodePage::UsAscii => "US-ASCII",
            CodePage::Iso88591 => "ISO Latin 1",
            CodePage::Iso88592 => "ISO Latin 2",
            CodePage::Iso88593 => "ISO Latin 3",
            CodePage::Iso88594 => "ISO Latin 4",
            CodePage::Iso88595 => "ISO Latin/Cyrillic",
            CodePage::Iso88596 => "ISO Latin/Arabic",
            CodePage::Iso88597 => "ISO Latin/Greek",
            CodePage::Iso88598 => "ISO Latin/Hebrew",
            CodePage::Utf8 => "UTF-8",
        }
    }

    /// Returns the text that bytes stand for. In UTF-8 any bytes are a text, with U+FFFD for each maximal part that
    /// encodes no character (The Unicode Standard, 3.9, "U+FFFD Substitution of Maximal Subparts"). In Windows-1252
    /// (also for ISO 8859-1) and Mac OS Roman each byte stands for a character, and in US-ASCII a byte past ASCII
    /// reads as U+FFFD. No byte order mark is looked for.
    ///
    /// # Errors
    /// Fails with `InvalidData` for a byte past ASCII in another page, or with `OutOfMemory`.
    pub fn decode(self, alloc: Global, bytes: &[u8]) -> Result<String, Error>
        ensures ok { IfOk result (λ text. Reads self bytes.now (string_bytes text)) }
        ensures kind { IfErr result (λ kind.
            kind ≡ (if is_some (text_in self bytes.now) then OutOfMemory else InvalidData)) }
    {
        match self {
            CodePage::Utf8 => Ok(bytes.to_str_lossy(alloc)?.into_owned(alloc)?),
            _ => single_byte_text(alloc, upper_characters(self), bytes),
        }
    }

    /// Returns the bytes that encode a text. In Windows-1252 (also for ISO 8859-1), Mac OS Roman and US-ASCII `?`
    /// stands for a character that the page lacks.
    ///
    /// # Errors
    /// Fails with `InvalidInput` for a character past ASCII in another page than these and UTF-8, or with
    /// `OutOfMemory`.
    pub fn encode(self, alloc: Global, text: &str) -> Result<Vec<u8>, Error>
        ensures ok { IfOk result (λ bytes. Writes self text.now bytes.items) }
        ensures kind { IfErr result (λ kind.
            kind ≡ (if is_some (bytes_in self text.now) then OutOfMemory else InvalidInput)) }
    {
        match self {
            CodePage::Utf8 => Ok(Vec::from_slice(alloc, text.as_bytes())?),
            _ => single_byte_spelling(alloc, upper_characters(self), text),
        }
    }

    /// Returns whether the page can encode a text, with `?` for what a page with a table lacks.
    pub fn carries(self, text: &str) -> bool
        ensures { result ≡ is_some (bytes_in self text.now) }
    {
        match self {
            CodePage::Utf8 => true,
            _ => upper_characters(self).is_some() || is_ascii(text.as_bytes()),
        }
    }

    /// Returns whether a text that is encoded in the page reads back as it was. It takes no memory.
    pub fn reads_back(self, text: &str) -> bool
        ensures { IsTrue result ↔ IsWritable self text.now }
    {
        match self {
            CodePage::Utf8 => true,
            _ => match upper_characters(self) {
                Some(upper) => has_bytes(upper, text),
                None => is_ascii(text.as_bytes()),
            },
        }
    }
}

/// Decodes bytes where these characters are from byte 0x80 on, or in a page without a table. ASCII reads as itself.
fn single_byte_text(alloc: Global, upper: Option<&[char]>, bytes: &[u8]) -> Result<String, Error>
    ensures ok { IfOk result (λ text. single_byte_text (option_copied upper.entry) bytes.now
        ≡ Some (string_bytes text)) }
    ensures kind { IfErr result (λ kind.
        kind ≡ (if is_some (single_byte_text (option_copied upper.entry) bytes.now) then OutOfMemory
        else InvalidData)) }
{
    if let Some(text) = ascii_text(bytes) {
        return Ok(String::from_str(alloc, text)?);
    }
    match upper {
        Some(upper) => Ok(text_read(alloc, upper, bytes)?),
        None => Err(Error::new(ErrorKind::InvalidData, reasons::PAGE_BYTE)),
    }
}

/// Encodes a text where these characters are from byte 0x80 on, or in a page without a table. ASCII is its own
/// encoding.
fn single_byte_spelling(alloc: Global, upper: Option<&[char]>, text: &str) -> Result<Vec<u8>, Error>
    requires { IfSome upper (λ characters. length characters.now ≤ 128) }
    ensures ok { IfOk result (λ bytes. single_byte_spelling (option_copied upper.entry) text.now ≡ Some bytes.items) }
    ensures kind { IfErr result (λ kind.
        kind ≡ (if is_some (single_byte_spelling (option_copied upper.entry) text.now) then OutOfMemory
        else InvalidInput)) }
{
    if is_ascii(text.as_bytes()) {
        return Ok(Vec::from_slice(alloc, text.as_bytes())?);
    }
    match upper {
        Some(upper) => Ok(bytes_written(alloc, upper, text)?),
        None => Err(Error::new(ErrorKind::InvalidInput, reasons::PAGE_CHARACTER)),
    }
}

fn is_ascii(bytes: &[u8]) -> bool
    ensures { result ≡ is_ascii bytes.now }
{
    bytes.iter().all(|byte| *byte < 0x80)
}

fn ascii_text(bytes: &[u8]) -> Option<&str>
    ensures { MatchOption result (is_ascii bytes.now ≡ false)
        (λ text. (is_ascii bytes.now ≡ true) × (text.now ≡ bytes.now)) }
{
    if !is_ascii(bytes) {
        return None;
    }
    match str::from_utf8(bytes) {
        Ok(text) => Some(text),
        Err(_) => unreachable!(),
    }
}
