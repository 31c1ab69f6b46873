//! Laws of the pages: each is the contract of a function without a body.

ghost use Rattle.msi_code_pages.specs.Page.{PageIdsTellPages};
ghost use Rattle.msi_code_pages.specs.Spelling.{BytesStandForCharacters, SequencesComeBack, TextsComeBack};

/// The id of a page is read as that page.
pub fn page_ids_tell_pages()
    ensures { PageIdsTellPages }
{}

/// The bytes that a page has for a character are read as it.
pub fn bytes_stand_for_characters()
    ensures { BytesStandForCharacters }
{}

/// The character of a sequence, where the page has bytes for it, is read from those bytes too.
pub fn sequences_come_back()
    ensures { SequencesComeBack }
{}

/// A text that is written in a page is read as it was.
pub fn texts_come_back()
    ensures { TextsComeBack }
{}
