//! Which bytes begin a pair.

ghost use Rattle.std.specs.Prelude.{◌≡◌, ◌<◌, IfSome};
ghost use Rattle.msi_code_pages.specs.Sequences.{row_among, row_of};

use crate::page::Page;

/// Returns the row of a byte among those from a first to a last one, where the first has this row.
fn row_among(first: u8, last: u8, row: u8, byte: u8) -> Option<usize>
    ensures is { result ≡ row_among first last row byte }
    ensures few { IfSome result (λ place. place < 512) }
{
    if byte < first || last < byte {
        return None;
    }
    Some(row as usize + (byte - first) as usize)
}

#[tactic(auto, unfolding(crate::specs::Sequences::row_of))]
pub(crate) fn row_of(page: Page, byte: u8) -> Option<usize>
    ensures is { result ≡ row_of page byte }
    ensures few { IfSome result (λ row. row < 512) }
{
    match page {
        Page::Windows932 if byte < 0xA0 => row_among(0x81, 0x9F, 0, byte),
        Page::Windows932 => row_among(0xE0, 0xFC, 31, byte),
        Page::Windows936 => row_among(0x81, 0xFE, 0, byte),
        Page::Windows949 => row_among(0x81, 0xFD, 0, byte),
        Page::Windows950 => row_among(0xA1, 0xF9, 0, byte),
        _ => None,
    }
}
