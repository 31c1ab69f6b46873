//! The tables of the pages.

ghost use Rattle.std.specs.Prelude.{◌≡◌};
ghost use Rattle.msi_code_pages.specs.Tables.{page_text, windows_932, windows_936, windows_949, windows_950};

pub(crate) mod single_bytes;
pub(crate) mod windows_932;
pub(crate) mod windows_936;
pub(crate) mod windows_949;
pub(crate) mod windows_950;

use crate::page::Page;

/// Returns the characters of a page: those of the bytes from 0x80 on that are alone, and then a row of 192 for each
/// first byte of two, those of the second bytes from 0x40 on. An ASCII character fills a place that stands for nothing.
#[tactic(auto, unfolding(crate::specs::Tables::page_text))]
pub(crate) fn page_text(page: Page) -> &'static str
    ensures { result.now ≡ page_text page }
{
    match page {
        Page::Windows874 => single_bytes::WINDOWS_874,
        Page::Windows932 => windows_932_text(),
        Page::Windows936 => windows_936_text(),
        Page::Windows949 => windows_949_text(),
        Page::Windows950 => windows_950_text(),
        Page::Windows1250 => single_bytes::WINDOWS_1250,
        Page::Windows1251 => single_bytes::WINDOWS_1251,
        Page::Windows1253 => single_bytes::WINDOWS_1253,
        Page::Windows1254 => single_bytes::WINDOWS_1254,
        Page::Windows1255 => single_bytes::WINDOWS_1255,
        Page::Windows1256 => single_bytes::WINDOWS_1256,
        Page::Windows1257 => single_bytes::WINDOWS_1257,
        Page::Windows1258 => single_bytes::WINDOWS_1258,
        Page::MacintoshCyrillic => single_bytes::MACINTOSH_CYRILLIC,
        Page::Iso88592 => single_bytes::ISO_8859_2,
        Page::Iso88593 => single_bytes::ISO_8859_3,
        Page::Iso88594 => single_bytes::ISO_8859_4,
        Page::Iso88595 => single_bytes::ISO_8859_5,
        Page::Iso88596 => single_bytes::ISO_8859_6,
        Page::Iso88597 => single_bytes::ISO_8859_7,
        Page::Iso88598 => single_bytes::ISO_8859_8,
        Page::Iso88599 => single_bytes::ISO_8859_9,
    }
}

// A function for each large table: the proof of what names one goes through all of it.

#[tactic(auto, unfolding(crate::specs::Tables::windows_932))]
fn windows_932_text() -> &'static str
    ensures { result.now ≡ windows_932 }
{
    windows_932::WINDOWS_932
}

#[tactic(auto, unfolding(crate::specs::Tables::windows_936))]
fn windows_936_text() -> &'static str
    ensures { result.now ≡ windows_936 }
{
    windows_936::WINDOWS_936
}

#[tactic(auto, unfolding(crate::specs::Tables::windows_949))]
fn windows_949_text() -> &'static str
    ensures { result.now ≡ windows_949 }
{
    windows_949::WINDOWS_949
}

#[tactic(auto, unfolding(crate::specs::Tables::windows_950))]
fn windows_950_text() -> &'static str
    ensures { result.now ≡ windows_950 }
{
    windows_950::WINDOWS_950
}
