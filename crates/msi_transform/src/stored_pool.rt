//! The string pool in the streams of a container.

ghost use Rattle.std.specs.Prelude.{◌≡◌, ◌∷◌, [], IfErr, IfOk, None, Some};
ghost use Rattle.std.specs.FinMap.{entries};
ghost use Rattle.msi_base.specs.declared.errors.ErrorKind.TheVariants.{NotFound};
ghost use Rattle.msi_base.specs.Results.{IsUnlessMemory};
ghost use Rattle.msi_pool.specs.Pool.{Pool, PoolStream};
ghost use Rattle.msi_database_storage.specs.Streams.{stream_at};
ghost use Rattle.msi_transform.specs.StoredPools.{PoolIs, PoolStopsAmong, PoolStreamIs, has_pool, pool_steps};
ghost use Rattle.msi_transform.specs.StoredPools.{reads_pool, stored_page_id};

use crate::reasons;
use msi_base::errors::{Error, ErrorKind};
use msi_container_format::contents::{Bytes, StreamMap};
use msi_container_format::name::Name;
use msi_container_format::parts::{number32, shared_part};
use msi_database_schema::names::{string_data_key, string_pool_key};
use msi_pool::parts::{pool_builder_of, pool_of};
use msi_pool::stringpool::{StringPool, StringPoolBuilder};
use std::alloc::Global;

/// The bit above a page's id that says that references are long.
const LONG: u32 = 1 << 31;

fn bytes_at<'a>(streams: &'a StreamMap, name: &Name) -> Result<&'a Bytes, Error>
    ensures ok { IfOk result (λ bytes. stream_at name.now (entries streams.now) ≡ Some bytes.now) }
    ensures kind { IfErr result (λ kind. (stream_at name.now (entries streams.now) ≡ None) × (kind ≡ NotFound)) }
{
    match streams.get(name) {
        Some(bytes) => Ok(bytes),
        None => Err(Error::new(ErrorKind::NotFound, reasons::NO_POOL)),
    }
}

fn pool_stream_in(alloc: Global, streams: &StreamMap) -> Result<StringPoolBuilder, Error>
    ensures found { IfOk result (PoolStreamIs (entries streams.now)) }
    ensures only { (stream : PoolStream) → PoolStreamIs (entries streams.now) stream → IsUnlessMemory result stream }
    ensures kind { IfErr result (PoolStopsAmong (entries streams.now) (has_pool ∷ reads_pool ∷ [])) }
{
    let bytes = bytes_at(streams, &string_pool_key())?;
    pool_builder_of(alloc, bytes.as_slice())
}

/// Returns the pool that two of these streams hold. Its texts stay in the bytes of a file that the second is a part
/// of, up to the first that isn't there in UTF-8.
///
/// # Errors
/// Fails with the first of these that applies: `NotFound` if the first stream (`_StringPool`) is missing, `InvalidData`
/// if it doesn't have its form; `NotFound` if that of the texts (`_StringData`) is missing, `InvalidData` if it has no
/// such texts. It may fail with `OutOfMemory` in place of each.
pub fn pool_in(alloc: Global, streams: &StreamMap) -> Result<StringPool, Error>
    ensures found { IfOk result (PoolIs (entries streams.now)) }
    ensures only { (pool : Pool) → PoolIs (entries streams.now) pool → IsUnlessMemory result pool }
    ensures kind { IfErr result (PoolStopsAmong (entries streams.now) pool_steps) }
{
    let stream = pool_stream_in(alloc, streams)?;
    let bytes = bytes_at(streams, &string_data_key())?;
    pool_of(alloc, stream, bytes.as_slice(), shared_part(bytes))
}

/// Returns the id of the pool's page as the pool's stream has it, which may be 0 for UTF-8; 0 without that stream.
pub fn page_id_in(streams: &StreamMap) -> u32
    ensures { result ≡ stored_page_id (entries streams.now) }
{
    match streams.get(&string_pool_key()) {
        Some(bytes) => number32(bytes.as_slice(), 0) % LONG,
        None => 0,
    }
}
