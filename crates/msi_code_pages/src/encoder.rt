//! Texts as bytes.

ghost use Rattle.std.specs.Prelude.{◌≡◌, ◌+◌, ◌/◌, ◌%◌, ◌++◌, IfOk, IfErr, OnOk, is_some, if◌then◌else◌, chars};
ghost use Rattle.std.specs.Prelude.{ℕ, ◌<◌, slice_get, length};
ghost use Rattle.std.specs.List.{list_all};
ghost use Rattle.msi_base.specs.Results.{OnlyMemory};
ghost use Rattle.msi_base.specs.declared.errors.ErrorKind.TheVariants.{InvalidInput, OutOfMemory};
ghost use Rattle.msi_code_pages.specs.Sequences.{character_of};
ghost use Rattle.msi_code_pages.specs.Spelling.{Writes, bytes_in, bytes_written, first_missing, is_written};
ghost use Rattle.msi_code_pages.specs.Spelling.{number_of, number_written, sequence_of, IsIndex, with_first};
ghost use Rattle.msi_code_pages.specs.Spelling.{written_character};

use crate::decoder::Decoder;
use crate::page::Page;
use crate::sequences::row_of;
use msi_base::{Error, ErrorKind, reasons};
use std::alloc::{AllocError, Global};
use std::marker::Model;

/// Writes texts in a page. It holds an index of 256 KiB from characters to bytes, so one serves for many texts.
#[derive(Debug, Drop)]
pub struct Encoder {
    page: Page,
    numbers: Vec<Option<u16>>,
}

/// A contract sees the page.
impl Model for Encoder {
    ghost use Rattle.msi_code_pages.specs.declared.page.Page.{Page};
    ghost use Rattle.msi_code_pages.specs.Spelling.{IsIndex};

    ghost Value = { Page };

    ghost view = { λ e. e.page };

    ghost invariant = { λ e. IsIndex e.page 0x10000 e.numbers.items };
}

impl Page {
    /// Returns what writes texts in the page.
    ///
    /// # Errors
    /// Fails with `OutOfMemory`.
    pub fn encoder(self, alloc: Global) -> Result<Encoder, Error>
        ensures ok { IfOk result (λ encoder. encoder ≡ self) }
        ensures kind { OnlyMemory result }
    {
        let decoder = self.decoder(alloc)?;
        let mut numbers = nothing(alloc, 0x1_0000)?;
        fill(&decoder, &mut numbers);
        Ok(Encoder {
            page: self,
            numbers,
        })
    }
}

impl Encoder {
    /// Returns the page that texts are written in.
    pub fn page(&self) -> Page
        ensures { result ≡ self.now }
    {
        self.page
    }

    /// Returns the bytes that encode a text.
    ///
    /// # Errors
    /// Fails with `InvalidInput` where the page lacks a character (`first_missing` has its place), or with
    /// `OutOfMemory`.
    pub fn encode(&self, alloc: Global, text: &str) -> Result<Vec<u8>, Error>
        ensures ok { IfOk result (λ bytes. Writes self.now text.now bytes.items) }
        ensures kind { IfErr result (λ kind.
            kind ≡ (if is_some (bytes_in self.now text.now) then OutOfMemory else InvalidInput)) }
    {
        if !self.carries(text) {
            return Err(Error::new(ErrorKind::InvalidInput, reasons::PAGE_CHARACTER));
        }
        Ok(self.bytes_written(alloc, text)?)
    }

    /// Returns how many characters stand before the first that the page lacks, or `None` where it has each.
    pub fn first_missing(&self, text: &str) -> Option<usize>
        ensures { result ≡ first_missing self.now text.now }
    {
        text.chars()
            .position(|character| self.number_of(character).is_none())
    }

    /// Returns whether the page has each character of a text.
    pub fn carries(&self, text: &str) -> bool
        ensures { result ≡ is_some (bytes_in self.now text.now) }
    {
        self.has_all(text)
    }

    fn has_all(&self, text: &str) -> bool
        ensures { result ≡ list_all (λ c. is_some (number_of self.now c)) (chars text.now) }
    {
        text.chars()
            .all(|character| self.number_of(character).is_some())
    }

    fn number_of(&self, character: char) -> Option<u16>
        ensures { result ≡ number_of self.now character }
    {
        match self.numbers.get(character as usize) {
            Some(number) => *number,
            None => None,
        }
    }

    /// Returns the bytes of a text, with `?` where the page lacks a character.
    fn bytes_written(&self, alloc: Global, text: &str) -> Result<Vec<u8>, AllocError>
        ensures { IfOk result (λ bytes. bytes.items ≡ bytes_written self.now (chars text.now)) }
    {
        let mut bytes = Vec::with_capacity(alloc, text.len())?;
        for character in text.chars() {
            push_sequence(&mut bytes, self.number_written(character))?;
        }
        Ok(bytes)
    }

    fn number_written(&self, character: char) -> u16
        ensures { result ≡ number_written self.now character }
    {
        self.number_of(character).unwrap_or(63)
    }
}

/// Adds the bytes of a number: one below 256, and else two, the higher first.
fn push_sequence(bytes: &mut Vec<u8>, number: u16) -> Result<(), AllocError>
    ensures { OnOk result (bytes.new.items ≡ bytes.old.items ++ sequence_of number) }
{
    if number >= 0x100 {
        bytes.push((number / 0x100) as u8)?;
    }
    bytes.push((number % 0x100) as u8)?;
    Ok(())
}

/// Whether the sequence of a number is ever written.
#[tactic(auto, unfolding(crate::specs::Spelling::is_written))]
fn is_written(page: Page, number: u16) -> bool
    ensures { result ≡ is_written page number }
{
    match page {
        Page::Windows932 => number / 0x100 != 0xED && number / 0x100 != 0xEE,
        Page::Windows950 => number != 0xA2CC && number != 0xA2CE,
        _ => true,
    }
}

fn character_of_number(decoder: &Decoder, number: u16) -> Option<char>
    ensures { result ≡ character_of decoder.now (sequence_of number) }
{
    let low = (number % 0x100) as u8;
    if number < 0x100 {
        return match row_of(decoder.page(), low) {
            Some(_) => None,
            None => decoder.character_alone(low),
        };
    }
    match row_of(decoder.page(), (number / 0x100) as u8) {
        Some(row) => decoder.character_in_row(low, row),
        None => None,
    }
}

#[tactic(auto, unfolding(crate::specs::Spelling::written_character))]
fn written_character(decoder: &Decoder, number: u16) -> Option<char>
    ensures { result ≡ written_character decoder.now number }
{
    if is_written(decoder.page(), number) {
        character_of_number(decoder, number)
    } else {
        None
    }
}

fn nothing(alloc: Global, count: usize) -> Result<Vec<Option<u16>>, AllocError>
    ensures size { IfOk result (λ numbers. length numbers.items ≡ count) }
    ensures none { IfOk result (λ numbers. (c : ℕ) → c < count → slice_get numbers.items c ≡ Some None) }
{
    vec![in alloc; None; count]
}

fn fill(decoder: &Decoder, numbers: &mut [Option<u16>])
    requires { IsIndex decoder.now 0 numbers.old }
    ensures { IsIndex decoder.now 0x10000 numbers.new }
{
    for number in 0..0x1_0000_u32 {
        enter(decoder, numbers, number as u16);
    }
}

/// Enters the sequence of a number at its character, unless an earlier one is there.
fn enter(decoder: &Decoder, numbers: &mut [Option<u16>], number: u16)
    requires { IsIndex decoder.now number numbers.old }
    ensures { IsIndex decoder.now (number + 1) numbers.new }
{
    match written_character(decoder, number) {
        Some(character) => put_first(numbers, character as usize, number),
        None => {}
    }
}

/// Puts a number at a place, unless one is there, or the place is past the end.
fn put_first(numbers: &mut [Option<u16>], place: usize, number: u16)
    ensures { numbers.new ≡ with_first numbers.old place number }
{
    if place < numbers.len() && numbers[place].is_none() {
        numbers[place] = Some(number);
    }
}
