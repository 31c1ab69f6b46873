//! Writing the pool's two streams.

ghost use Rattle.std.specs.Prelude.{◌≡◌, ◌+◌, ◌≤◌, ◌^◌, ◌⊎◌, ◌↔◌, ◌∷◌, ◌++◌, [], IsTrue, false, length};
ghost use Rattle.std.specs.Prelude.{OnOk, IfOk, IfErr, IsErrOf, Some, option_map, unwrap_or, is_some, if◌then◌else◌};
ghost use Rattle.std.specs.List.{flat_map};
ghost use Rattle.msi_base.specs.Pages.{page_id};
ghost use Rattle.msi_pool_places.specs.Pool.{place_bytes, plain_entry, pool_stream, data_stream};
ghost use Rattle.msi_pool_places.specs.Pool.{CountsFit};
ghost use Rattle.msi_pool.specs.PoolLaws.{ReadsBack};
ghost use Rattle.msi_pool.specs.PoolWriting.{is_refused_spelling, is_refused, piece_of};
ghost use Rattle.msi_pool.specs.PoolWriting.{entry_in};
ghost use Rattle.msi_base.specs.Refusals.{unless_refused};
ghost use Rattle.msi_base.specs.Results.{OnlyMemory};
ghost use Rattle.msi_base.specs.declared.errors.ErrorKind.TheVariants.{InvalidInput, OutOfMemory};

use crate::reasons;
use crate::stringpool::pool::{LONG, StringPool};
use msi_base::codepage::CodePage;
use msi_base::errors::{Error, ErrorKind, Reason};
use msi_base::fields::{push_u16, push_u32};
use msi_base::reasons::PAGE_CHARACTER;
use msi_pool_places::{PlaceRef, encoded_len};
use std::alloc::AllocError;

/// From how many bytes on a text has a long entry.
const SHORT_END: u32 = 65536;

/// From how many bytes on a text isn't written.
const LONG_END: usize = 1 << 32;

/// Returns the stream of the entries (`_StringPool`) in its plain encoding.
///
/// # Errors
/// Fails with `InvalidInput` if the page can't encode a text in use, or if its encoding has 2^32 bytes or more.
/// Otherwise it fails with `OutOfMemory`.
pub fn pool_stream_of(pool: &StringPool) -> Result<Vec<u8>, Error>
    ensures ok { IfOk result (λ bytes. pool_stream pool.now ≡ Some bytes.items) }
    ensures spelled { OnOk result (ReadsBack pool.now) }
    ensures refused { IsErrOf result InvalidInput ↔ IsTrue (is_refused pool.now) }
    ensures kinds { IfErr result (λ kind. (kind ≡ InvalidInput) ⊎ (kind ≡ OutOfMemory)) }
{
    if let Some(reason) = refusal(pool) {
        return Err(Error::new(ErrorKind::InvalidInput, reason));
    }
    let mut held = Vec::new(pool.allocator());
    push_u32(&mut held, header(pool.codepage(), pool.long_string_refs()))?;
    push_entries(&mut held, pool)?;
    Ok(held)
}

/// Returns the stream of the texts (`_StringData`).
///
/// # Errors
/// Fails with `InvalidInput` if the page can't encode a text in use, or if its encoding has 2^32 bytes or more.
/// Otherwise it fails with `OutOfMemory`.
pub fn data_stream_of(pool: &StringPool) -> Result<Vec<u8>, Error>
    ensures ok { IfOk result (λ bytes. data_stream pool.now ≡ Some bytes.items) }
    ensures spelled { OnOk result (ReadsBack pool.now) }
    ensures refused { IsErrOf result InvalidInput ↔ IsTrue (is_refused pool.now) }
    ensures kinds { IfErr result (λ kind. (kind ≡ InvalidInput) ⊎ (kind ≡ OutOfMemory)) }
{
    if let Some(reason) = refusal(pool) {
        return Err(Error::new(ErrorKind::InvalidInput, reason));
    }
    let mut held = Vec::new(pool.allocator());
    push_texts(&mut held, pool)?;
    Ok(held)
}

/// Checks that the texts can be written. It takes no memory.
///
/// # Errors
/// Fails with `InvalidInput` if the page can't encode a text in use, or if its encoding has 2^32 bytes or more.
pub fn check_texts(pool: &StringPool) -> Result<(), Error>
    ensures { result ≡ unless_refused ((is_refused pool.now, InvalidInput) ∷ []) tt }
{
    match refusal(pool) {
        Some(reason) => Err(Error::new(ErrorKind::InvalidInput, reason)),
        None => Ok(()),
    }
}

fn header(page: CodePage, long: bool) -> u32
    ensures { result ≡ page_id page + (if long then 2 ^ 31 else 0) }
{
    let id = page.id() as u32;
    if long { id + LONG } else { id }
}

fn refusal(pool: &StringPool) -> Option<Reason>
    ensures refused { is_some result ≡ is_refused pool.now }
    ensures many { length pool.now.places ≤ 16777215 }
    ensures counts { CountsFit pool.now.places }
{
    let page = pool.codepage();
    for at in 0..pool.num_strings() {
        let reason = place_refusal(page, &pool.place(at));
        if reason.is_some() {
            return reason;
        }
    }
    None
}

fn place_refusal(page: CodePage, place: &PlaceRef) -> Option<Reason>
    ensures { is_some result ≡ is_refused_spelling (place_bytes page place.now) }
{
    match place_len(page, place) {
        None => Some(PAGE_CHARACTER),
        Some(len) if len < LONG_END => None,
        Some(_) => Some(reasons::TEXT_LONG),
    }
}

/// Returns how many bytes a place has in the data stream, if the page can hold its text.
fn place_len(page: CodePage, place: &PlaceRef) -> Option<usize>
    ensures { result ≡ option_map length (place_bytes page place.now) }
{
    if place.count() == 0 {
        return Some(0);
    }
    encoded_len(page, place.text())
}

fn push_entries(held: &mut Vec<u8>, pool: &StringPool) -> Result<(), AllocError>
    requires { is_refused pool.now ≡ false }
    ensures { OnOk result
        (held.new.items ≡ held.old.items ++ flat_map (entry_in pool.now.page) pool.now.places) }
{
    let page = pool.codepage();
    for at in 0..pool.num_strings() {
        push_place(held, page, &pool.place(at))?;
    }
    Ok(())
}

fn push_place(held: &mut Vec<u8>, page: CodePage, place: &PlaceRef) -> Result<(), AllocError>
    requires { is_refused_spelling (place_bytes page place.now) ≡ false }
    ensures { OnOk result (held.new.items ≡ held.old.items ++ entry_in page place.now) }
{
    let len = place_len(page, place).unwrap_or(0);
    push_entry(held, len as u32, place.count())
}

/// Adds an entry, which is a long one for a long text and for an empty text in use.
fn push_entry(held: &mut Vec<u8>, len: u32, count: u16) -> Result<(), AllocError>
    requires { count ≡ 0 → len ≡ 0 }
    ensures { OnOk result (held.new.items ≡ held.old.items ++ plain_entry (record { len = len; count = count })) }
{
    if count == 0 || (0 < len && len < SHORT_END) {
        push_u16(held, len as u16)?;
        return push_u16(held, count);
    }
    push_u16(held, 0)?;
    push_u16(held, count)?;
    push_u32(held, len)
}

fn push_texts(held: &mut Vec<u8>, pool: &StringPool) -> Result<(), Error>
    requires { is_refused pool.now ≡ false }
    ensures ok { OnOk result
        (held.new.items ≡ held.old.items ++ flat_map (piece_of pool.now.page) pool.now.places) }
    ensures kind { OnlyMemory result }
{
    let page = pool.codepage();
    for at in 0..pool.num_strings() {
        push_text(held, page, &pool.place(at))?;
    }
    Ok(())
}

fn push_text(held: &mut Vec<u8>, page: CodePage, place: &PlaceRef) -> Result<(), Error>
    requires { is_refused_spelling (place_bytes page place.now) ≡ false }
    ensures ok { OnOk result (held.new.items ≡ held.old.items ++ piece_of page place.now) }
    ensures kind { OnlyMemory result }
{
    if place.count() > 0 {
        let bytes = page.encode(*held.allocator(), place.text())?;
        held.extend_from_slice(bytes.as_slice())?;
    }
    Ok(())
}
