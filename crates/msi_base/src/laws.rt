//! Laws of the formats themselves: each is the contract of a function without a body, but for one, which looks at its
//! text.

ghost use Rattle.msi_base.specs.PageTables.{PageTablesAgree};
ghost use Rattle.msi_base.specs.Pages.{AsciiStandsForItself, PageBytesComeBack, PageIdsTellPages};
ghost use Rattle.msi_base.specs.Pages.{PageTextsComeBack, Utf8TextsComeBack};
ghost use Rattle.std.specs.Prelude.{IsUtf8};

use crate::text::Text;

/// The id of a code page is read as that page.
pub fn page_ids_tell_pages()
    ensures { PageIdsTellPages }
{}

/// In a page with a table a byte stands for a character exactly where that character is written as the byte.
pub fn page_tables_agree()
    ensures { PageTablesAgree }
{}

/// A text whose characters all have a place in its page's table is read as it was written.
pub fn page_texts_come_back()
    ensures { PageTextsComeBack }
{}

/// In UTF-8 every text is read as it was written.
pub fn utf8_texts_come_back()
    ensures { Utf8TextsComeBack }
{}

/// In each page ASCII is written as its own bytes, which are read as it.
pub fn ascii_stands_for_itself()
    ensures { AsciiStandsForItself }
{}

/// Bytes that all stand for characters are written for the text that they read as.
pub fn page_bytes_come_back()
    ensures { PageBytesComeBack }
{}

/// Every text is UTF-8.
pub fn texts_are_utf8(text: &Text)
    ensures { IsUtf8 text.now }
{
    let _text = text.as_str();
}
