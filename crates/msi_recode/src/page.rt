//! The pages that bytes of texts are read in.

ghost use Rattle.std.specs.Prelude.{◌≡◌, ◌<◌, ◌^◌, Some};
ghost use Rattle.msi_recode.specs.TextPages.{text_page_with_signed_id, page_for};

use msi_base::CodePage;
use msi_code_pages::Page;

/// A page that bytes of texts are read in.
#[derive(Clone, Copy, PartialEq, Eq, Debug)]
pub enum TextPage {
    /// One that packages are read in: UTF-8, US-ASCII, Windows-1252, ISO 8859-1 and Mac OS Roman, and each other one
    /// with ASCII alone.
    Plain(CodePage),
    /// One with a table of its own.
    Tabled(Page),
}

impl TextPage {
    /// Returns the page of an id: the one with a table, where there is one, and UTF-8 for 0. There is none for a
    /// negative or unknown one.
    pub fn of(id: i32) -> Option<TextPage>
        ensures { result ≡ text_page_with_signed_id id }
    {
        match Page::of(id) {
            Some(page) => Some(TextPage::Tabled(page)),
            None => match CodePage::from_id(id) {
                Some(page) => Some(TextPage::Plain(page)),
                None => None,
            },
        }
    }
}

/// Returns the page of an id, and the given one for 0, which names no page.
pub(crate) fn page_for(given: Option<TextPage>, id: u32) -> Option<TextPage>
    requires { id < 2 ^ 31 }
    ensures { result ≡ page_for given id }
{
    match given {
        Some(page) => page_unless_named(page, id),
        None => TextPage::of(id as i32),
    }
}

fn page_unless_named(page: TextPage, id: u32) -> Option<TextPage>
    requires { id < 2 ^ 31 }
    ensures { result ≡ page_for (Some page) id }
{
    if id == 0 {
        return Some(page);
    }
    TextPage::of(id as i32)
}
