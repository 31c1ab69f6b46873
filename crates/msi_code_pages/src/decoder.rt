//! Bytes as text.

ghost use Rattle.std.specs.Prelude.{◌≡◌, ◌<◌, ◌≤◌, ◌∷◌, IfOk, IfErr, is_some, if◌then◌else◌, length, take, drop, map};
ghost use Rattle.std.specs.Prelude.{string_bytes, encode_utf8_all};
ghost use Rattle.std.specs.Str.{chars};
ghost use Rattle.msi_base.specs.Results.{OnlyMemory};
ghost use Rattle.msi_base.specs.declared.errors.ErrorKind.TheVariants.{InvalidData, OutOfMemory};
ghost use Rattle.msi_code_pages.specs.Sequences.{is_lead, character_of, character_at, character_alone};
ghost use Rattle.msi_code_pages.specs.Sequences.{character_in_row};
ghost use Rattle.msi_code_pages.specs.Reading.{Reads, text_in, first_unmapped, sequences, character_read};

use crate::page::Page;
use crate::sequences::row_of;
use crate::tables::page_text;
use msi_base::{Error, ErrorKind, reasons};
use std::alloc::{AllocError, Global};
use std::marker::Model;

/// Reads bytes in a page. It holds the characters of the page, at most 100 KiB, so one serves for many texts.
#[derive(Debug, Drop)]
pub struct Decoder {
    page: Page,
    characters: Vec<char>,
}

/// A contract sees the page.
impl Model for Decoder {
    ghost use Rattle.std.specs.Prelude.{◌≡◌};
    ghost use Rattle.std.specs.Str.{chars};
    ghost use Rattle.msi_code_pages.specs.declared.page.Page.{Page};
    ghost use Rattle.msi_code_pages.specs.Tables.{page_text};

    ghost Value = { Page };

    ghost view = { λ d. d.page };

    ghost invariant = { λ d. d.characters.items ≡ chars (page_text d.page) };
}

impl Page {
    /// Returns what reads bytes in the page.
    ///
    /// # Errors
    /// Fails with `OutOfMemory`.
    pub fn decoder(self, alloc: Global) -> Result<Decoder, Error>
        ensures ok { IfOk result (λ decoder. decoder ≡ self) }
        ensures kind { OnlyMemory result }
    {
        Ok(Decoder {
            page: self,
            characters: characters_of(alloc, page_text(self))?,
        })
    }
}

impl Decoder {
    /// Returns the page that bytes are read in.
    pub fn page(&self) -> Page
        ensures { result ≡ self.now }
    {
        self.page
    }

    /// Returns the text that bytes stand for.
    ///
    /// # Errors
    /// Fails with `InvalidData` where a sequence stands for no character (`first_unmapped` has its place), or with
    /// `OutOfMemory`.
    pub fn decode(&self, alloc: Global, bytes: &[u8]) -> Result<String, Error>
        ensures ok { IfOk result (λ text. Reads self.now bytes.now (string_bytes text)) }
        ensures kind { IfErr result (λ kind.
            kind ≡ (if is_some (text_in self.now bytes.now) then OutOfMemory else InvalidData)) }
    {
        if !self.reads(bytes) {
            return Err(Error::new(ErrorKind::InvalidData, reasons::PAGE_BYTE));
        }
        Ok(self.text_read(alloc, bytes)?)
    }

    /// Returns whether the bytes stand for a text.
    pub fn reads(&self, bytes: &[u8]) -> bool
        ensures { result ≡ is_some (text_in self.now bytes.now) }
    {
        self.first_unmapped(bytes).is_none()
    }

    /// Returns how many bytes stand before the first sequence that stands for no character, or `None` where each
    /// stands for one.
    pub fn first_unmapped(&self, bytes: &[u8]) -> Option<usize>
        ensures { result ≡ first_unmapped self.now bytes.now }
    {
        let mut place = 0;
        let mut rest = bytes;
        while !rest.is_empty() {
            let (length, character) = self.first_sequence(rest);
            if character.is_none() {
                return Some(place);
            }
            place += length;
            rest = behind(rest, length);
        }
        None
    }

    /// Returns the text of the sequences, with U+FFFD where one stands for no character.
    fn text_read(&self, alloc: Global, bytes: &[u8]) -> Result<String, AllocError>
        ensures { IfOk result (λ text. string_bytes text
            ≡ encode_utf8_all (map (character_read self.now) (sequences (is_lead self.now) bytes.now))) }
    {
        let mut text = String::with_capacity(alloc, bytes.len())?;
        let mut rest = bytes;
        while !rest.is_empty() {
            let (length, character) = self.first_sequence(rest);
            text.push(character.unwrap_or('\u{FFFD}'))?;
            rest = behind(rest, length);
        }
        Ok(text)
    }

    fn first_sequence(&self, bytes: &[u8]) -> (usize, Option<char>)
        requires { 0 < length bytes.now }
        ensures least { 0 < result.0 }
        ensures most { result.0 ≤ length bytes.now }
        ensures split { sequences (is_lead self.now) bytes.now
            ≡ take result.0 bytes.now ∷ sequences (is_lead self.now) (drop result.0 bytes.now) }
        ensures character { result.1 ≡ character_of self.now (take result.0 bytes.now) }
    {
        let first = bytes[0];
        match row_of(self.page, first) {
            None => (1, self.character_alone(first)),
            Some(_) if bytes.len() < 2 => (1, None),
            Some(row) => (2, self.character_in_row(bytes[1], row)),
        }
    }

    pub(crate) fn character_alone(&self, byte: u8) -> Option<char>
        ensures { result ≡ character_alone self.now byte }
    {
        if byte < 0x80 {
            return Some(char::from(byte));
        }
        self.character_at(byte as usize - 0x80)
    }

    #[tactic(auto, unfolding(crate::specs::Sequences::character_in_row))]
    pub(crate) fn character_in_row(&self, second: u8, row: usize) -> Option<char>
        requires { row < 512 }
        ensures { result ≡ character_in_row self.now second row }
    {
        if second < 0x40 {
            return None;
        }
        self.character_at(128 + 192 * row + (second as usize - 0x40))
    }

    /// Returns the character at a place of the page's text: none where the text has ended, or an ASCII character fills
    /// the place.
    #[tactic(auto, unfolding(crate::specs::Sequences::character_at))]
    fn character_at(&self, place: usize) -> Option<char>
        ensures { result ≡ character_at self.now place }
    {
        match self.characters.get(place) {
            Some(character) if *character >= '\u{80}' => Some(*character),
            _ => None,
        }
    }
}

fn behind(bytes: &[u8], count: usize) -> &[u8]
    requires { count ≤ length bytes.now }
    ensures { result.now ≡ drop count bytes.now }
{
    &bytes[count..]
}

fn characters_of(alloc: Global, text: &str) -> Result<Vec<char>, AllocError>
    ensures { IfOk result (λ characters. characters.items ≡ chars text.now) }
{
    let mut characters = Vec::new(alloc);
    for character in text.chars() {
        characters.push(character)?;
    }
    Ok(characters)
}
