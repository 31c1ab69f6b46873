//! Reading the pool of the bytes of its two streams.

ghost use Rattle.std.specs.Prelude.{◌≡◌, ◌⊎◌, ◌<◌, ◌^◌, List, IfOk, IfErr, OnOk, Some, drop, length, slice_get, true};
ghost use Rattle.msi_base.specs.declared.errors.ErrorKind.TheVariants.{InvalidData, OutOfMemory};
ghost use Rattle.msi_base.specs.Pages.{page_with_id, text_in};
ghost use Rattle.msi_base.specs.declared.codepage.CodePage.TheVariants.{Utf8};
ghost use Rattle.msi_pool_places.specs.Pool as pools;
ghost use Rattle.msi_pool_places.specs.Pool.{IsPoolStream, PoolStream, SpellsTexts};
ghost use Rattle.msi_pool_places.specs.Pool.{pool_with};
ghost use Rattle.msi_pool_places.specs.JoinedTexts.{IsJoined, places_joined};
ghost use Rattle.msi_pool_places.specs.TextJoining.{IsJoining, entries_left, places_read};
ghost use Rattle.msi_pool_places.specs.PoolReading.{IsPut, place_in_front, header_in};
ghost use Rattle.msi_pool.specs.PoolPieces.{IsPiecePut};
ghost use Rattle.msi_base.specs.Results.{FailsAs, Gives, IsUnlessMemory};

use crate::reasons;
use crate::stringpool::pool::{LONG, StringPool};
use bstr::ByteSlice;
use msi_base::codepage::CodePage;
use msi_base::errors::{Error, ErrorKind};
use msi_base::fields::u32_at;
use msi_base::parts::Part;
use msi_pool_places::{Entries, Entry, JoinedTexts, MAX_PLACES, TextJoiner};
use std::alloc::Global;
use std::marker::Model;

/// What the pool's stream says: the page, whether references are long, and the entries.
#[derive(Drop)]
pub struct StringPoolBuilder {
    codepage: CodePage,
    long: bool,
    entries: Entries,
}

impl Model for StringPoolBuilder {
    ghost use Rattle.msi_pool_places.specs.Pool.{PoolStream};
    ghost use Rattle.std.specs.Prelude.{◌≤◌, length};

    ghost Value = { PoolStream };

    ghost view = { λ b. record { page = b.codepage; long = b.long; entries = b.entries } };

    ghost invariant = { λ b. length b.entries ≤ 16777215 };
}

/// Returns what the bytes of the pool's stream (`_StringPool`) say.
///
/// # Errors
/// Fails with `InvalidData` if the bytes encode no pool, and otherwise with `OutOfMemory`.
pub fn pool_builder_of(alloc: Global, bytes: &[u8]) -> Result<StringPoolBuilder, Error>
    ensures found { IfOk result (λ stream. IsPoolStream bytes.now stream) }
    ensures only { (stream : PoolStream) → IsPoolStream bytes.now stream → IsUnlessMemory result stream }
    ensures kinds { IfErr result (λ kind. (kind ≡ InvalidData) ⊎ (kind ≡ OutOfMemory)) }
{
    let (header, rest) = u32_at(bytes, reasons::POOL_CUT)?;
    let (codepage, long) = page_of(header)?;
    let entries = Entries::read(alloc, rest)?;
    if entries.len() > MAX_PLACES {
        return Err(Error::new(ErrorKind::InvalidData, reasons::POOL_PLACES));
    }
    Ok(StringPoolBuilder {
        codepage,
        long,
        entries,
    })
}

/// Returns the pool whose texts stand in the bytes of the data stream (`_StringData`), in order; bytes past the last
/// are ignored. Where the stream is a part of shared bytes, the texts stay in them up to the first that stands there
/// otherwise than in UTF-8, and it and those behind it are copied.
///
/// # Errors
/// Fails with `InvalidData` if the bytes end before a text does, or the page can't read a text, and otherwise with
/// `OutOfMemory`.
pub fn pool_of(
    alloc: Global,
    stream: StringPoolBuilder,
    bytes: &[u8],
    part: Option<&Part>,
) -> Result<StringPool, Error>
    ensures found { IfOk result (λ pool.
        (pool ≡ pool_with stream pool.places)
        × SpellsTexts stream.page bytes.now stream.entries pool.places) }
    ensures only { (places : List pools.Place) → SpellsTexts stream.page bytes.now stream.entries places
        → IsUnlessMemory result (pool_with stream places) }
    ensures kinds { IfErr result (λ kind. (kind ≡ InvalidData) ⊎ (kind ≡ OutOfMemory)) }
{
    let StringPoolBuilder {
        codepage,
        long,
        entries,
    } = stream;
    let texts = texts_of(alloc, codepage, entries, bytes, part)?;
    Ok(StringPool::from_parts(codepage, long, texts))
}

/// Returns the page of a header, and whether references are long.
fn page_of(header: u32) -> Result<(CodePage, bool), Error>
    ensures { Gives (λ x. x) result (header_in header) }
{
    if header < LONG {
        return Ok((known_page(header)?, false));
    }
    Ok((known_page(header - LONG)?, true))
}

fn known_page(id: u32) -> Result<CodePage, Error>
    requires { id < 2 ^ 31 }
    ensures { Gives (λ page. page) result (page_with_id id) }
{
    match CodePage::from_id(id as i32) {
        Some(codepage) => Ok(codepage),
        None => Err(Error::new(ErrorKind::InvalidData, reasons::POOL_PAGE)),
    }
}

fn texts_of(
    alloc: Global,
    codepage: CodePage,
    entries: Entries,
    bytes: &[u8],
    part: Option<&Part>,
) -> Result<JoinedTexts, Error>
    ensures joined { IfOk result (λ texts. IsJoined texts) }
    ensures found { IfOk result (λ texts. SpellsTexts codepage bytes.now entries (places_joined texts)) }
    ensures only { (places : List pools.Place)
        → SpellsTexts codepage bytes.now entries places → Gives places_joined result (Some places) }
    ensures kinds { IfErr result (λ kind. (kind ≡ InvalidData) ⊎ (kind ≡ OutOfMemory)) }
{
    let mut joiner = TextJoiner::new(alloc, entries, part, bytes.len())?;
    let mut rest = bytes;
    while let Some(entry) = joiner.next_entry() {
        rest = push_text(alloc, &mut joiner, codepage, entry, rest)?;
    }
    Ok(joiner.finish())
}

/// Appends the text at the front of the bytes, and returns the bytes after it.
fn push_text<'a>(
    alloc: Global,
    joiner: &mut TextJoiner,
    codepage: CodePage,
    entry: Entry,
    bytes: &'a [u8],
) -> Result<&'a [u8], Error>
    requires joining { IsJoining joiner.old }
    requires next { slice_get (entries_left joiner.old) 0 ≡ Some entry }
    ensures joining { OnOk result (IsJoining joiner.new) }
    ensures ok { IfOk result (λ rest.
        IsPut codepage entry bytes.now (places_read joiner.old) (places_read joiner.new) rest.now) }
    ensures left { OnOk result (entries_left joiner.new ≡ drop 1 (entries_left joiner.old)) }
    ensures err { IfErr result (λ kind. FailsAs kind (place_in_front codepage entry bytes.now)) }
{
    let len = entry.len() as usize;
    if bytes.len() < len {
        return Err(Error::new(ErrorKind::InvalidData, reasons::POOL_DATA));
    }
    let (piece, rest) = bytes.split_at(len);
    push_piece(alloc, joiner, codepage, piece)?;
    Ok(rest)
}

fn push_piece(
    alloc: Global,
    joiner: &mut TextJoiner,
    codepage: CodePage,
    piece: &[u8],
) -> Result<(), Error>
    requires joining { IsJoining joiner.old }
    requires left { 0 < length (entries_left joiner.old) }
    ensures joining { OnOk result (IsJoining joiner.new) }
    ensures ok { (entry : pools.Entry) → slice_get (entries_left joiner.old) 0 ≡ Some entry → OnOk result
        (IsPiecePut codepage piece.now entry.count (places_read joiner.old) (places_read joiner.new)) }
    ensures left { OnOk result (entries_left joiner.new ≡ drop 1 (entries_left joiner.old)) }
    ensures err { IfErr result (λ kind. FailsAs kind (text_in codepage piece.now)) }
{
    if reads_as_utf8(codepage, piece) {
        let text = piece.to_str_lossy(alloc)?;
        return joiner.push(text.as_ref());
    }
    let text = codepage.decode(alloc, piece)?;
    joiner.push(text.as_str())
}

/// Returns whether the page is known to read the bytes as UTF-8 does, so that no string has to be made to look at them.
fn reads_as_utf8(codepage: CodePage, piece: &[u8]) -> bool
    ensures { result ≡ true → text_in codepage piece.now ≡ text_in Utf8 piece.now }
{
    match codepage {
        CodePage::Utf8 => true,
        _ => piece.is_ascii(),
    }
}
