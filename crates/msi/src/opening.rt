//! Opening packages.

ghost use Rattle.std.specs.Prelude.{◌≡◌, ◌⊎◌, ◌∷◌, [], Err, IfErr, IfOk, None, Ok, Some, false};
ghost use Rattle.std.specs.FinMap.{entries};
ghost use Rattle.msi_base.specs.declared.errors.ErrorKind.TheVariants.{InvalidData, Io, NotFound, OutOfMemory};
ghost use Rattle.msi_pool.specs.Pool.{Pool, PoolStream};
ghost use Rattle.msi_base.specs.Results.{IsUnlessMemory};
ghost use Rattle.msi_container_device.specs.Faults.{is_io};
ghost use Rattle.msi_container_device.specs.Held.{bytes_told};
ghost use Rattle.msi_database_storage.specs.Streams.{stream_at};
ghost use Rattle.msi.specs.Kinds.{clsid_of};
ghost use Rattle.msi.specs.Meaning.{FailsFirst, OpensTo, RawPoolIs, SummaryIs, open_steps};
ghost use Rattle.msi.specs.Meaning.{has_pool, has_summary, has_texts};
ghost use Rattle.msi.specs.Meaning.{knows_kind, reads_pool, reads_summary, reads_texts};
ghost use Rattle.msi.specs.Opening.{IsOpenRefusal, IsOpened, OpensSource, PoolStreamIs, StopsAmong};

use crate::kinds::PackageType;
use crate::package::Package;
use crate::{OpenStream, reasons};
use msi_base::errors::{Error, ErrorKind, Reason};
use msi_container_device::Source;
use msi_container_device::parts::read_all;
use msi_container_format::contents::{Bytes, Contents, StreamMap};
use msi_container_format::name::Name;
use msi_container_format::parts::shared_part;
use msi_container_read::read_shared;
use msi_database::Database;
use msi_database_schema::names::{string_data_key, string_pool_key, summary_key};
use msi_pool::parts::{pool_builder_of, pool_of};
use msi_pool::stringpool::{StringPool, StringPoolBuilder};
use msi_summary::SummaryInfo;
use msi_summary::parts::summary_of;
use std::alloc::Global;
use std::marker::Model;
use std::rc::Rc;

/// What the bytes of a package say. A contract sees the package as it is just opened.
#[derive(Drop)]
pub(crate) struct Opened {
    pub(crate) kind: PackageType,
    pub(crate) summary: SummaryInfo,
    pub(crate) database: Database,
    pub(crate) has_storages: bool,
}

impl Model for Opened {
    ghost use Rattle.std.specs.Prelude.{false};
    ghost use Rattle.msi.specs.State.{State};
    ghost use Rattle.msi.specs.Whole.{state_of};

    ghost Value = { State };

    ghost view = { λ o. state_of o.kind o.summary o.database o.has_storages false false false };
}

fn kind_of(contents: &Contents) -> Result<PackageType, Error>
    ensures ok { IfOk result (λ kind. contents.now.clsid ≡ clsid_of kind) }
    ensures kind { IfErr result (FailsFirst contents.now (knows_kind ∷ [])) }
{
    match PackageType::from_clsid(&contents.clsid) {
        Some(kind) => Ok(kind),
        None => Err(Error::new(ErrorKind::InvalidData, reasons::NO_KIND)),
    }
}

fn bytes_at<'a>(streams: &'a StreamMap, name: &Name, missing: Reason) -> Result<&'a Bytes, Error>
    ensures ok { IfOk result (λ bytes. stream_at name.now (entries streams.now) ≡ Some bytes.now) }
    ensures kind { IfErr result (λ kind. (stream_at name.now (entries streams.now) ≡ None) × (kind ≡ NotFound)) }
{
    match streams.get(name) {
        Some(bytes) => Ok(bytes),
        None => Err(Error::new(ErrorKind::NotFound, missing)),
    }
}

fn summary_in(alloc: Global, contents: &Contents) -> Result<SummaryInfo, Error>
    ensures ok { IfOk result (SummaryIs (entries contents.now.streams)) }
    ensures kind { IfErr result (StopsAmong contents.now (has_summary ∷ reads_summary ∷ [])) }
{
    let bytes = bytes_at(&contents.streams, &summary_key(), reasons::NO_SUMMARY)?;
    summary_of(alloc, bytes.as_slice())
}

fn pool_stream_in(alloc: Global, contents: &Contents) -> Result<StringPoolBuilder, Error>
    ensures found { IfOk result (PoolStreamIs (entries contents.now.streams)) }
    ensures only { (stream : PoolStream)
        → PoolStreamIs (entries contents.now.streams) stream → IsUnlessMemory result stream }
    ensures kind { IfErr result (StopsAmong contents.now (has_pool ∷ reads_pool ∷ [])) }
{
    let bytes = bytes_at(&contents.streams, &string_pool_key(), reasons::NO_POOL)?;
    pool_builder_of(alloc, bytes.as_slice())
}

/// Checks in this order: `NotFound` without the first stream, `InvalidData` for its form, `NotFound` without the stream
/// of texts, `InvalidData` for its texts.
fn pool_in(alloc: Global, contents: &Contents) -> Result<StringPool, Error>
    ensures found { IfOk result (λ pool. RawPoolIs (entries contents.now.streams) pool) }
    ensures only { (raw : Pool) → RawPoolIs (entries contents.now.streams) raw
        → IsUnlessMemory result raw }
    ensures kind { IfErr result
        (StopsAmong contents.now (has_pool ∷ reads_pool ∷ has_texts ∷ reads_texts ∷ [])) }
{
    let stream = pool_stream_in(alloc, contents)?;
    let bytes = bytes_at(&contents.streams, &string_data_key(), reasons::NO_POOL)?;
    pool_of(alloc, stream, bytes.as_slice(), shared_part(bytes))
}

fn open_contents(alloc: Global, contents: Contents) -> Result<Opened, Error>
    ensures ok { IfOk result (IsOpened contents) }
    ensures kind { IfErr result (StopsAmong contents open_steps) }
{
    let kind = kind_of(&contents)?;
    let summary = summary_in(alloc, &contents)?;
    let pool = pool_in(alloc, &contents)?;
    let database = Database::read(alloc, pool, contents.streams)?;
    Ok(Opened {
        kind,
        summary,
        database,
        has_storages: contents.has_storages,
    })
}

/// The bytes are freed once no stream is a part of them.
pub(crate) fn open_bytes(alloc: Global, bytes: Vec<u8>) -> Result<Opened, Error>
    ensures ok { IfOk result (λ opened. OpensTo bytes.items (Ok opened)) }
    ensures kind { IfErr result (IsOpenRefusal bytes.items) }
{
    let bytes = Rc::new(alloc, bytes)?;
    let contents = read_shared(alloc, bytes)?;
    open_contents(alloc, contents)
}

impl<F: Source + Drop> Package<F> {
    /// Opens the package that a source holds: all its bytes are read, from the first to the end. Nothing is
    /// unwritten.
    ///
    /// # Errors
    /// Fails with `Io` if a call of the source fails, and otherwise with the first of these that applies:
    /// `InvalidData` if the bytes are no compound file, or the root's CLSID is that of no package; `NotFound` if the
    /// summary's stream is missing, `InvalidData` if it encodes no summary; `NotFound` if the stream of the pool is
    /// missing, `InvalidData` if it doesn't have its form; `NotFound` if that of its texts is missing, `InvalidData`
    /// if it has no such texts; `InvalidData` if a system table can't be read, or they describe no tables. If none
    /// applies, it fails with `OutOfMemory`, which may also come in place of the others. The source is dropped.
    pub fn open(alloc: Global, inner: F) -> Result<Package<F>, Error>
        ensures ok { IfOk result (λ opened. OpensSource (F.held inner) (Ok opened.state)) }
        ensures bytes { IfOk result (λ opened. bytes_told opened.held ≡ bytes_told (F.held inner)) }
        ensures failed { IfOk result (λ opened. opened.failed ≡ false) }
        ensures pending { IfOk result (λ opened. opened.pending ≡ F.pending inner) }
        ensures kind { IfErr result
            (λ kind. (kind ≡ Io) ⊎ (kind ≡ OutOfMemory) ⊎ OpensSource (F.held inner) (Err kind)) }
        ensures faultless { F.can_fail ≡ false → is_io result ≡ false }
    {
        let mut device = inner;
        device.clear_failed();
        let bytes = read_all(alloc, &mut device)?;
        let opened = open_bytes(alloc, bytes)?;
        let Opened {
            kind,
            summary,
            database,
            has_storages,
        } = opened;
        Ok(Package {
            device,
            alloc,
            kind,
            summary,
            database,
            open: None,
            current: OpenStream::new(alloc),
            has_storages,
            is_unwritten: false,
            is_summary_lent: false,
            is_pool_changed: false,
        })
    }
}
