//! The texts of a stream as pieces of one text. Many ids of a set may share a text, and texts may overlap, so copies
//! could take far more memory than the stream. The stream is read as one text instead, which is cut where its texts
//! begin and end.

ghost use Rattle.std.specs.Prelude.{◌≡◌, ℕ, ◌<◌, ◌≤◌, ◌↔◌, List, true, IsTrue, IfOk, IfSome, length, slice_range};
ghost use Rattle.std.specs.Str.{IsCharBoundary};
ghost use Rattle.msi_base.specs.Pages.{Reads};
ghost use Rattle.msi_base.specs.Results.{OnlyMemory};
ghost use Rattle.msi_summary_properties.specs.SharedTexts.{AreCuts, BeginsCharacter, ReadsAll};
ghost use Rattle.msi_summary_properties.specs.SharedTexts.{page_for_all, reads_any};

use crate::piece::Piece;
use crate::texts::PropertyText;
use msi_base::codepage::CodePage;
use msi_base::errors::Error;
use std::alloc::Global;
use std::collections::BTreeMap;
use std::rc::RcStr;

/// The text that a stream reads as, and where it is cut: for a byte of the stream the byte of the text.
#[derive(Drop)]
pub(crate) struct SharedTexts {
    whole: RcStr,
    cuts: BTreeMap<usize, usize>,
}

/// Whether any bytes are a text of the page, that is, the page has more than ASCII.
fn reads_any(page: CodePage) -> bool
    ensures { result ≡ reads_any page }
{
    page.carries("\u{80}")
}

/// Returns the page in which a stream is read whose texts are in this one.
fn page_for_all(page: CodePage) -> CodePage
    ensures page { result ≡ page_for_all page }
    ensures all { ReadsAll result }
{
    if reads_any(page) {
        page
    } else {
        CodePage::UsAscii
    }
}

/// Whether a character begins at a byte in each page, since it is ASCII or follows an ASCII byte.
fn begins_character(bytes: &[u8], at: usize) -> bool
    ensures { IsTrue result ↔ BeginsCharacter bytes.now at }
{
    0 < at && at < bytes.len() && (bytes[at - 1] < 0x80 || bytes[at] < 0x80)
}

/// Cuts the text of the bytes at these places, which ascend, in a page that reads all bytes. A place where no character
/// begins is left out.
fn cut_at(
    alloc: Global,
    page: CodePage,
    bytes: &[u8],
    places: &[usize],
) -> Result<SharedTexts, Error>
    requires { ReadsAll page }
    ensures ok { IfOk result (λ texts. AreCuts page bytes.now texts) }
    ensures kind { OnlyMemory result }
{
    let mut whole = String::new(alloc);
    let mut cuts = BTreeMap::new(alloc);
    let mut start = 0;
    for &place in places {
        if start < place && begins_character(bytes, place) {
            let text = page.decode(alloc, &bytes[start..place])?;
            whole.push_str(text.as_str())?;
            cuts.insert(place, whole.as_str().len())?;
            start = place;
        }
    }
    let whole = RcStr::from_string(whole)?;
    Ok(SharedTexts { whole, cuts })
}

impl SharedTexts {
    pub(crate) fn new(
        alloc: Global,
        page: CodePage,
        bytes: &[u8],
        places: &[usize],
    ) -> Result<SharedTexts, Error>
        ensures ok { IfOk result (λ texts. AreCuts (page_for_all page) bytes.now texts) }
        ensures kind { OnlyMemory result }
    {
        cut_at(alloc, page_for_all(page), bytes, places)
    }

    /// Returns the text between two bytes, if the whole text is cut there. It takes no memory for its bytes.
    pub(crate) fn text(
        &self,
        page: CodePage,
        start: usize,
        end: usize,
    ) -> Result<Option<PropertyText>, Error>
        requires { start ≤ end }
        ensures ok { (bytes : List ℕ) → AreCuts (page_for_all page) bytes self.now
            → IfOk result (λ text. IfSome text (λ text. Reads page (slice_range bytes start end) text)) }
        ensures kind { OnlyMemory result }
    {
        let Some(piece) = self.piece(start, end)? else {
            return Ok(None);
        };
        // In US-ASCII a byte past ASCII reads as three bytes, and in a page with ASCII alone as none.
        if reads_any(page) || piece.as_str().len() == end - start {
            return Ok(Some(PropertyText::from_piece(piece)));
        }
        Ok(None)
    }

    fn piece(&self, start: usize, end: usize) -> Result<Option<Piece>, Error>
        requires { start ≤ end }
        ensures ok { (page : CodePage) (bytes : List ℕ) → ReadsAll page → AreCuts page bytes self.now
            → IfOk result (λ piece. IfSome piece (λ text. Reads page (slice_range bytes start end) text)) }
        ensures within { (page : CodePage) (bytes : List ℕ) → AreCuts page bytes self.now
            → IfOk result (λ piece. IfSome piece (λ text. end < length bytes)) }
        ensures kind { OnlyMemory result }
    {
        let (Some(&from), Some(&to)) = (self.cuts.get(&start), self.cuts.get(&end)) else {
            return Ok(None);
        };
        let whole = self.whole.as_str();
        if from <= to && whole.is_char_boundary(from) && whole.is_char_boundary(to) {
            return Ok(Some(Piece::new(self.whole.clone()?, from, to)));
        }
        Ok(None)
    }
}
