//! Packages, with their texts in UTF-8.

ghost use Rattle.std.specs.FinMap as finite;
ghost use Rattle.std.specs.Prelude.{◌≡◌, ℕ, List, None, Some, IfOk, IfErr, OnErr};
ghost use Rattle.msi_base.specs.Results.{OnlyMemory};
ghost use Rattle.msi_base.specs.declared.errors.ErrorKind.TheVariants.{InvalidData, OutOfMemory};
ghost use Rattle.msi_container_format.specs.Container.{Holds};
ghost use Rattle.msi_container_format.specs.declared.contents.Contents as held;
ghost use Rattle.msi_recode.specs.Errors.{kind_of};
ghost use Rattle.msi_recode.specs.Recoding as packages;
ghost use Rattle.msi_recode.specs.Recoding.{AreStreamsRecoded, AreTextsRecoded, CannotBeRecodedIn, HaveTextStreams};
ghost use Rattle.msi_recode.specs.Recoding.{IsFileError, IsFileRecoded, IsRecoded, IsStreamsError};
ghost use Rattle.msi_recode.specs.Recoding.{with_text_streams};

use crate::errors::RecodeError;
use crate::page::TextPage;
use crate::pool::{RecodedPool, recode_pool};
use crate::reasons;
use crate::summary::recode_summary;
use msi_base::{Error, ErrorKind, Reason};
use msi_container_format::contents::{Bytes, Contents, StreamMap};
use msi_container_format::name::Name;
use msi_container_read::read;
use msi_container_write::write;
use msi_database_schema::names::{string_data_key, string_pool_key, summary_key};
use std::alloc::Global;
use std::marker::Model;

/// Returns the bytes of a package with its pool and its summary in UTF-8. Texts are read in the page that the pool
/// names, and those of the summary in its own; for page 0 in the one that is given, and as UTF-8 where none is. All
/// other streams keep their bytes, and places of the pool their numbers and counts.
///
/// # Errors
/// Fails with `InvalidData` if the bytes hold no compound file or a stream of the pool or the summary is missing. Fails
/// as `recode_pool` does, and where the pool is recoded as `recode_summary` does: also with `InvalidInput` if the
/// summary would have more than four times its bytes and 64 KiB, or more than 2^31 bytes. Fails with `InvalidInput` if
/// storages lie below the root, or if the file would pass 2^31 bytes, and otherwise with `OutOfMemory`.
pub fn recode(alloc: Global, given: Option<TextPage>, bytes: &[u8]) -> Result<Vec<u8>, RecodeError>
    ensures ok { IfOk result (λ after. IsFileRecoded given bytes.now after.items) }
    // What can be recoded is recoded, unless memory is refused.
    ensures only { (after : List ℕ) → IsFileRecoded given bytes.now after
        → IfErr result (λ error. kind_of error ≡ OutOfMemory) }
    ensures exact { IfErr result (λ error. IsFileError given bytes.now error) }
    ensures refused { IfErr result (λ error. kind_of error ≡ InvalidData → (contents : held.Contents)
        → Holds bytes.now contents → CannotBeRecodedIn given contents.streams) }
{
    let contents = recode_contents(alloc, given, read(alloc, bytes)?)?;
    Ok(write(alloc, &contents, 0)?)
}

/// Returns the contents of a package with its pool and its summary in UTF-8, as `recode` reads them. All other streams
/// keep their bytes.
///
/// # Errors
/// Fails with `InvalidData` if a stream of the pool or the summary is missing. Fails as `recode_pool` does, and where
/// the pool is recoded as `recode_summary` does.
pub fn recode_contents(
    alloc: Global,
    given: Option<TextPage>,
    contents: Contents,
) -> Result<Contents, RecodeError>
    ensures ok { IfOk result (λ after. IsRecoded given contents after) }
    ensures only { (after : held.Contents) → IsRecoded given contents after
        → IfErr result (λ error. kind_of error ≡ OutOfMemory) }
    ensures exact { IfErr result (λ error. IsStreamsError given contents.streams error) }
    ensures refused { IfErr result (λ error. kind_of error ≡ InvalidData → CannotBeRecodedIn given contents.streams) }
{
    let Contents {
        clsid,
        streams,
        has_storages,
    } = contents;
    let streams = recode_streams(alloc, given, streams)?;
    Ok(Contents {
        clsid,
        streams,
        has_storages,
    })
}

fn recode_streams(
    alloc: Global,
    given: Option<TextPage>,
    streams: StreamMap,
) -> Result<StreamMap, RecodeError>
    ensures ok { IfOk result (λ after. AreStreamsRecoded given streams after) }
    ensures exact { IfErr result (λ error. IsStreamsError given streams error) }
{
    let texts = texts_recoded(alloc, given, &streams)?;
    Ok(with_texts(streams, texts)?)
}

/// The three streams that have texts.
#[derive(Drop)]
struct TextStreams {
    entries: Vec<u8>,
    texts: Vec<u8>,
    summary: Vec<u8>,
}

impl Model for TextStreams {
    ghost use Rattle.msi_recode.specs.Recoding as packages;

    ghost Value = { packages.TextStreams };

    ghost view = { λ t. record { entries = t.entries.items; texts = t.texts.items; summary = t.summary.items } };
}

fn texts_recoded(
    alloc: Global,
    given: Option<TextPage>,
    streams: &StreamMap,
) -> Result<TextStreams, RecodeError>
    ensures ok { IfOk result (λ new. (old : packages.TextStreams)
        × HaveTextStreams streams.now old × AreTextsRecoded given old new) }
    ensures exact { IfErr result (λ error. IsStreamsError given streams.now error) }
{
    let pool = bytes_at(streams, &string_pool_key(), reasons::NO_POOL)?;
    let data = bytes_at(streams, &string_data_key(), reasons::NO_POOL)?;
    let summary = bytes_at(streams, &summary_key(), reasons::NO_SUMMARY)?;
    let recoded = recode_pool(alloc, given, pool, data)?;
    let summary = recode_summary(alloc, given, summary)?;
    let RecodedPool { entries, texts } = recoded;
    Ok(TextStreams {
        entries,
        texts,
        summary,
    })
}

fn bytes_at<'a>(streams: &'a StreamMap, name: &Name, missing: Reason) -> Result<&'a [u8], Error>
    ensures ok { IfOk result (λ bytes. finite.get streams.now name.now ≡ Some bytes.now) }
    ensures missing { OnErr result (finite.get streams.now name.now ≡ None) }
    ensures kind { IfErr result (λ kind. kind ≡ InvalidData) }
{
    match streams.get(name) {
        Some(bytes) => Ok(bytes.as_slice()),
        None => Err(Error::new(ErrorKind::InvalidData, missing)),
    }
}

fn with_texts(streams: StreamMap, these: TextStreams) -> Result<StreamMap, Error>
    ensures ok { IfOk result (λ after. after ≡ with_text_streams these streams) }
    ensures kind { OnlyMemory result }
{
    let TextStreams {
        entries,
        texts,
        summary,
    } = these;
    let mut streams = streams;
    streams.insert(string_pool_key(), Bytes::from_vec(entries))?;
    streams.insert(string_data_key(), Bytes::from_vec(texts))?;
    streams.insert(summary_key(), Bytes::from_vec(summary))?;
    Ok(streams)
}
