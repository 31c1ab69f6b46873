//! The streams of a transform's file.

ghost use Rattle.std.specs.Prelude.{◌≡◌, ◌⊎◌, ◌∷◌, [], IfErr, IfOk, IsTrue, OnOk, Some, not};
ghost use Rattle.std.specs.FinMap.{entries};
ghost use Rattle.std.specs.List.{list_any};
ghost use Rattle.msi_base.specs.declared.errors.ErrorKind.TheVariants.{InvalidInput, OutOfMemory};
ghost use Rattle.msi_base.specs.Refusals.{unless_refused};
ghost use Rattle.msi_base.specs.Results.{OnlyMemory};
ghost use Rattle.msi_database_schema.specs.Keys.{is_table_name as is_of_table};
ghost use Rattle.msi_pool.specs.PoolWriting.{is_refused};
ghost use Rattle.msi_transform.specs.WrittenTransforms.{with_page_id, with_pool, with_table_stream};

use crate::reasons;
use crate::records_by_table::RecordsByTable;
use msi_base::errors::{Error, ErrorKind};
use msi_base::fields::push_u32;
use msi_container_format::contents::{Bytes, StreamMap};
use msi_database_schema::names::{is_table_name, string_data_key, string_pool_key, table_key};
use msi_pool::parts::{data_stream_of, pool_stream_of};
use msi_pool::stringpool::StringPool;
use std::alloc::{AllocError, Global};

/// The bit above a page's id that says that references are long.
const LONG: u32 = 1 << 31;

/// How many bytes the header of the pool's stream has.
const HEADER: usize = 4;

/// Checks that each name is one that a table may have. It takes no memory.
///
/// # Errors
/// Fails with `InvalidInput` if one isn't.
pub fn check_names(tables: &RecordsByTable) -> Result<(), Error>
    ensures { result ≡ unless_refused
        ((list_any (λ e. not (is_of_table e.0)) (entries tables.now), InvalidInput) ∷ []) tt }
{
    for (name, _) in tables.iter() {
        if !is_table_name(name.as_str()) {
            return Err(Error::new(ErrorKind::InvalidInput, reasons::TABLE_NAME));
        }
    }
    Ok(())
}

/// Puts the records of a table among streams, if its name isn't too long for a container.
///
/// # Errors
/// Fails with `OutOfMemory`.
pub fn put_records(streams: &mut StreamMap, name: &str, records: Bytes) -> Result<(), Error>
    ensures ok { OnOk result (entries streams.new ≡ with_table_stream (entries streams.old) (name.now, records)) }
    ensures kind { OnlyMemory result }
{
    if let Some(key) = table_key(name) {
        streams.insert(key, records)?;
    }
    Ok(())
}

/// Puts the pool's streams among others, with this id of its page.
///
/// # Errors
/// Fails with `InvalidInput` if the page can't encode a text in use, or if its encoding has 2^32 bytes or more.
/// Otherwise it fails with `OutOfMemory`.
pub fn put_pool(
    alloc: Global,
    streams: &mut StreamMap,
    page_id: u32,
    pool: &StringPool,
) -> Result<(), Error>
    ensures ok { OnOk result (with_pool page_id pool.now (entries streams.old) ≡ Some (entries streams.new)) }
    ensures kind { IfErr result (λ kind.
        (kind ≡ OutOfMemory) ⊎ (kind ≡ InvalidInput) × IsTrue (is_refused pool.now)) }
{
    let listed = pool_stream_of(pool)?;
    let texts = data_stream_of(pool)?;
    let listed = paged(alloc, page_id, pool.long_string_refs(), listed.as_slice())?;
    streams.insert(string_pool_key(), Bytes::from_vec(listed))?;
    streams.insert(string_data_key(), Bytes::from_vec(texts))?;
    Ok(())
}

/// Returns the bytes of the pool's stream with this id of its page.
fn paged(alloc: Global, page_id: u32, long: bool, bytes: &[u8]) -> Result<Vec<u8>, AllocError>
    ensures { IfOk result (λ held. held.items ≡ with_page_id page_id long bytes.now) }
{
    let id = page_id % LONG;
    let (_, listed) = bytes.split_at(bytes.len().min(HEADER));
    let mut held = Vec::new(alloc);
    push_u32(&mut held, if long { id + LONG } else { id })?;
    held.extend_from_slice(listed)?;
    Ok(held)
}
