//! Reading texts in a page.

ghost use Rattle.std.specs.Prelude.{◌≡◌, IfOk, IfErr, is_some, if◌then◌else◌, string_bytes};
ghost use Rattle.msi_base.specs.Results.{OnlyMemory};
ghost use Rattle.msi_base.specs.declared.errors.ErrorKind.TheVariants.{InvalidData, OutOfMemory};
ghost use Rattle.msi_recode.specs.TextPages.{Reads, text_in};
ghost use Rattle.msi_recode.specs.Readers.{page_of};

use crate::page::TextPage;
use msi_base::{CodePage, Error};
use msi_code_pages::Decoder;
use std::alloc::Global;

/// Reads texts in a page. One serves for all texts of a package.
#[derive(Drop)]
pub enum TextReader {
    /// In a page that packages are read in.
    Plain(CodePage),
    /// In a page with a table.
    Tabled(Decoder),
}

impl TextReader {
    /// Returns a reader of the page.
    ///
    /// # Errors
    /// Fails with `OutOfMemory`.
    pub fn new(alloc: Global, page: TextPage) -> Result<TextReader, Error>
        ensures ok { IfOk result (λ reader. page_of reader ≡ page) }
        ensures kind { OnlyMemory result }
    {
        match page {
            TextPage::Plain(page) => Ok(TextReader::Plain(page)),
            TextPage::Tabled(page) => Ok(TextReader::Tabled(page.decoder(alloc)?)),
        }
    }

    /// Returns the text that bytes stand for.
    ///
    /// # Errors
    /// Fails with `InvalidData` where the page has no text for the bytes, or with `OutOfMemory`.
    pub fn decode(&self, alloc: Global, bytes: &[u8]) -> Result<String, Error>
        ensures ok { IfOk result (λ text. Reads (page_of self.now) bytes.now (string_bytes text)) }
        ensures kind { IfErr result (λ kind.
            kind ≡ (if is_some (text_in (page_of self.now) bytes.now) then OutOfMemory else InvalidData)) }
    {
        match self {
            TextReader::Plain(page) => page.decode(alloc, bytes),
            TextReader::Tabled(decoder) => decoder.decode(alloc, bytes),
        }
    }
}
