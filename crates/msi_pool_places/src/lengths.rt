//! How many bytes texts take in a code page.

ghost use Rattle.std.specs.Prelude.{◌≡◌, length, option_map};
ghost use Rattle.msi_base.specs.Pages.{bytes_in};

use msi_base::codepage::CodePage;
use msi_base::parts::{character_count, upper_characters};

/// Returns how many bytes encode a text, if the page can encode it. It takes no memory.
pub fn encoded_len(page: CodePage, text: &str) -> Option<usize>
    ensures { result ≡ option_map length (bytes_in page text.now) }
{
    match upper_characters(page) {
        Some(_) => Some(character_count(text)),
        None if page.carries(text) => Some(text.len()),
        None => None,
    }
}
