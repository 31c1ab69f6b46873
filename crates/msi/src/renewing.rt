//! The streams that a flush writes anew, and contents with them.

ghost use Rattle.std.specs.Prelude.{◌≡◌, ◌&&◌, ◌∷◌, ◌++◌, [], IfErr, IfOk, OnOk, Some, true};
ghost use Rattle.std.specs.FinMap.{entries};
ghost use Rattle.std.specs.Vec.Iter.{into_iter_items};
ghost use Rattle.msi_base.specs.Results.{OnlyMemory};
ghost use Rattle.msi_base.specs.declared.errors.ErrorKind.TheVariants.{InvalidInput};
ghost use Rattle.msi_pool.specs.PoolWriting.{is_refused as is_pool_refused};
ghost use Rattle.msi_summary.specs.PropertyWriting.{is_refused as is_summary_refused};
ghost use Rattle.msi_container_write.specs.Borrowed.{contents_of};
ghost use Rattle.msi_base.specs.Refusals.{AnswersFirst, IsRefusal, or_refused};
ghost use Rattle.msi_database_storage.specs.Streams.{Streams};
ghost use Rattle.msi.specs.Renewing.{IsUnwritten, keys_in, opened, pool_keys, pool_put, renewed_keys};
ghost use Rattle.msi.specs.Renewing.{renewed_over, summary_keys, summary_over, text_refusals, with_renewed};

use crate::OpenStream;
use msi_base::errors::Error;
use msi_container_format::contents::{Bytes, StreamMap};
use msi_container_format::name::Name;
use msi_container_write::parts::BorrowedContents;
use msi_database_schema::names::{string_data_key, string_pool_key, summary_key};
use msi_database_storage::{copied_bytes, copied_streams};
use msi_pool::parts::{check_texts, data_stream_of, pool_stream_of};
use msi_pool::stringpool::StringPool;
use msi_summary::SummaryInfo;
use msi_summary::parts::summary_bytes;
use std::alloc::Global;
use std::vec::IntoIter;

/// Returns the summary's stream where it has to be written. Fails with `InvalidInput` where the summary's page doesn't
/// carry a text.
fn renewed_summary(
    alloc: Global,
    summary: &SummaryInfo,
    is_lent: bool,
) -> Result<Vec<(Name, Bytes)>, Error>
    ensures ok { IfOk result (λ renewed. (streams : Streams)
        → summary_over is_lent summary.now streams ≡ Some (with_renewed renewed.items streams)) }
    ensures names { IfOk result (λ renewed. keys_in renewed.items ≡ summary_keys is_lent) }
    ensures kind { IfErr result (λ kind. (is_lent ≡ true) × IsUnwritten (is_summary_refused summary.now) kind) }
    ensures early { AnswersFirst ((is_lent && is_summary_refused summary.now, InvalidInput) ∷ []) result }
{
    if !is_lent {
        return Ok(Vec::new(alloc));
    }
    let bytes = Bytes::from_vec(summary_bytes(summary)?);
    Ok(Vec::from_array(alloc, [(summary_key(), bytes)])?)
}

/// Adds the pool's two streams, that of the texts first. Fails with `InvalidInput` where the database's page doesn't
/// carry a text.
fn add_pool(pool: &StringPool, renewed: &mut Vec<(Name, Bytes)>) -> Result<(), Error>
    ensures ok { OnOk result ((streams : Streams)
        → pool_put pool.now (with_renewed renewed.old.items streams)
        ≡ Some (with_renewed renewed.new.items streams)) }
    ensures names { OnOk result (keys_in renewed.new.items ≡ keys_in renewed.old.items ++ pool_keys) }
    ensures kind { IfErr result (IsUnwritten (is_pool_refused pool.now)) }
{
    let texts = Bytes::from_vec(data_stream_of(pool)?);
    let entries = Bytes::from_vec(pool_stream_of(pool)?);
    renewed.push((string_data_key(), texts))?;
    renewed.push((string_pool_key(), entries))?;
    Ok(())
}

/// Returns the streams that are to be written anew: the summary's if it was borrowed for writing, the pool's if it
/// was changed.
///
/// # Errors
/// Fails with `InvalidInput` if a page can't encode a text. Otherwise it fails with `OutOfMemory`, which never comes
/// in place of that.
pub fn renewed_streams(
    alloc: Global,
    summary: &SummaryInfo,
    is_summary_lent: bool,
    pool: &StringPool,
    is_pool_changed: bool,
) -> Result<Vec<(Name, Bytes)>, Error>
    ensures ok { IfOk result (λ renewed. (streams : Streams)
        → renewed_over is_summary_lent summary.now is_pool_changed pool.now streams
        ≡ Some (with_renewed renewed.items streams)) }
    ensures names { IfOk result (λ renewed. keys_in renewed.items ≡ renewed_keys is_summary_lent is_pool_changed) }
    ensures kind { let written = renewed_over is_summary_lent summary.now is_pool_changed pool.now in
        IfErr result (λ kind. (streams : Streams) → IsRefusal (or_refused InvalidInput (written streams)) kind) }
    ensures early { let refusals = text_refusals is_summary_lent summary.now is_pool_changed pool.now in
        AnswersFirst refusals result }
{
    // Before the summary's bytes take memory, which may be refused.
    if is_pool_changed {
        check_texts(pool)?;
    }
    let mut renewed = renewed_summary(alloc, summary, is_summary_lent)?;
    if is_pool_changed {
        add_pool(pool, &mut renewed)?;
    }
    Ok(renewed)
}

/// Returns a copy of streams, of which one may lie open.
///
/// # Errors
/// Fails with `OutOfMemory`.
pub fn settled_copy(
    alloc: Global,
    streams: &StreamMap,
    name: &Option<Name>,
    current: &OpenStream,
) -> Result<StreamMap, Error>
    ensures ok { IfOk result (λ copy. entries copy ≡ opened name.now current.now.bytes (entries streams.now)) }
    ensures kind { OnlyMemory result }
{
    let mut copy = copied_streams(alloc, streams)?;
    if let Some(name) = name {
        copy.insert(name.duplicate(), copied_bytes(alloc, current.as_slice())?)?;
    }
    Ok(copy)
}

/// Puts these streams among others.
///
/// # Errors
/// Fails with `OutOfMemory`; some may then be put.
pub fn put_all(streams: &mut StreamMap, renewed: IntoIter<(Name, Bytes)>) -> Result<(), Error>
    ensures ok { OnOk result (entries streams.new ≡ with_renewed (into_iter_items renewed) (entries streams.old)) }
    ensures kind { OnlyMemory result }
{
    for (name, bytes) in renewed {
        streams.insert(name, bytes)?;
    }
    Ok(())
}

/// Returns the contents of a container: a root with this CLSID and these streams, which are borrowed.
pub fn contents_under(
    clsid: [u8; 16],
    has_storages: bool,
    streams: &StreamMap,
) -> BorrowedContents<'_>
    ensures { contents_of result ≡ record {
      clsid = clsid;
      streams = streams.now;
      has_storages = has_storages;
    } }
{
    BorrowedContents {
        clsid,
        streams,
        has_storages,
    }
}
