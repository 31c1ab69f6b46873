//! The pool and the tables of a package that is looked at.

ghost use Rattle.std.specs.Prelude.{◌≡◌, ℕ, List, [], ◌∷◌, Err, IfErr, IfOk, IsSome, None, Ok, Some, ◌⊎◌, OnOk};
ghost use Rattle.std.specs.Prelude.{◌++◌, All, IfSome, map};
ghost use Rattle.std.specs.FinMap as finite;
ghost use Rattle.std.specs.FinMap.{entries};
ghost use Rattle.msi_base.specs.declared.errors.ErrorKind.TheVariants.{InvalidData, NotFound};
ghost use Rattle.msi_base.specs.Refusals.{IsRefusal, or_refused};
ghost use Rattle.msi_container_view.specs.Reading.{IsReadRefusal, Tells};
ghost use Rattle.msi_container_view.specs.Views.{streams_at};
ghost use Rattle.msi_database_schema.specs.Keys.{string_pool_name, table_key as key_of};
ghost use Rattle.msi_database_storage.specs.Agreement.{schema_in};
ghost use Rattle.msi_database.specs.Transforming.{database_read};
ghost use Rattle.msi_pool.specs.Pool.{Pool, PoolStream};
ghost use Rattle.msi_view.specs.Looking.{AreStreamsOf, AreTablesLoaded, IsCatalog, IsLoaded, IsLook, IsPartRefusal};
ghost use Rattle.msi_view.specs.Looking.{IsSchemaLoaded, ReadsDatabase, ReadsStreams, tables_read, catalog_names};
ghost use Rattle.msi_view.specs.Looking.{pool_names, root_in, table_steps};
ghost use Rattle.msi.specs.Meaning.{RawPoolIs, has_pool, has_texts, reads_pool, reads_texts};
ghost use Rattle.msi.specs.Opening.{PoolStreamIs};

use crate::loading::{load_query, load_schema, load_tables_of};
use msi::reasons;
use msi_base::{Error, ErrorKind, Items, Reason};
use msi_container_device::Seekable;
use msi_container_format::contents::StreamMap;
use msi_container_format::name::Name;
use msi_container_format::parts::{part_of, shared_part};
use msi_container_view::ContainerView;
use msi_database::Database;
use msi_database::reasons::{NO_TABLE, UNREADABLE};
use msi_database_schema::names::{string_data_key, string_pool_key};
use msi_database_storage::listing::table_named;
use msi_database_storage::{DescribedTables, look_at, table_rows, tables_in};
use msi_pool::parts::{pool_builder_of, pool_of};
use msi_pool::{StringPool, StringPoolBuilder};
use msi_query::Select;
use msi_query::parts::select_tree;
use msi_query_rows::Tables;
use msi_table::Table;
use msi_table::parts::StoredRows;
use std::alloc::Global;
use std::marker::Model;
use std::rc::Rc;

/// The pool of texts, the tables, and those streams of the root that were read: of the system tables, and of tables
/// that were asked for. The tables refer to texts in the pool's width.
pub(crate) struct Catalog {
    pub(crate) pool: StringPool,
    pub(crate) tables: Items<Table>,
    pub(crate) streams: StreamMap,
}

/// Written out, so that a function that owns one calls one drop, and its proof doesn't go through those of the parts.
impl Drop for Catalog {
    fn drop(self) {
        let Catalog {
            pool: _,
            tables: _,
            streams: _,
        } = self;
    }
}

impl Model for Catalog {
    ghost use Rattle.std.specs.FinMap.{entries};
    ghost use Rattle.msi_database_storage.specs.Kept.{AreAsLong};
    ghost use Rattle.msi_view.specs.Looking.{Catalogued};

    ghost Value = { Catalogued };

    ghost view = { λ c. record { pool = c.pool; tables = c.tables; streams = entries c.streams } };

    ghost invariant = { λ c. AreAsLong c.pool.long c.tables };
}

impl Catalog {
    /// The database of the pool and of the streams that were read.
    pub(crate) fn into_database(self, alloc: Global) -> Result<Database, Error>
        ensures read { IfOk result (λ d. database_read self.pool self.streams ≡ Some d) }
        ensures streams { IfOk result (λ d. d.streams ≡ self.streams) }
        ensures kind { IfErr result (IsRefusal (or_refused InvalidData (schema_in self.streams self.pool))) }
    {
        let Catalog {
            pool,
            tables: _,
            streams,
        } = self;
        Database::read(alloc, pool, streams)
    }
}

/// The bytes of the stream of a name. Fails with `NotFound` without one.
fn bytes_at<S: Seekable + Drop>(
    alloc: Global,
    container: &mut ContainerView<S>,
    name: &Name,
    missing: Reason,
) -> Result<Vec<u8>, Error>
    ensures reads { ReadsStreams container.old container.new (name.now ∷ []) }
    ensures ok { IfOk result (λ bytes. (file : List ℕ) → Tells container.old.held file
        → finite.get (streams_at file container.old.streams) name.now ≡ Some bytes.items) }
    ensures kind { IfErr result (λ kind. IsReadRefusal S.can_fail kind
        ⊎ ((kind ≡ NotFound) × ((file : List ℕ) → Tells container.old.held file
        → finite.get (streams_at file container.old.streams) name.now ≡ None))) }
{
    match container.read(alloc, name)? {
        Some(bytes) => Ok(bytes),
        None => Err(Error::new(ErrorKind::NotFound, missing)),
    }
}

/// What the first stream of the pool says: the page of the texts, and how long each is.
pub(crate) fn read_pool_stream<S: Seekable + Drop>(
    alloc: Global,
    container: &mut ContainerView<S>,
) -> Result<StringPoolBuilder, Error>
    ensures reads { ReadsStreams container.old container.new (key_of string_pool_name ∷ []) }
    ensures found { IfOk result (λ stream. (file : List ℕ) → Tells container.old.held file
        → PoolStreamIs (root_in file container.old) stream) }
    ensures only { IfOk result (λ stream. (file : List ℕ) → Tells container.old.held file → (other : PoolStream)
        → PoolStreamIs (root_in file container.old) other → stream ≡ other) }
    ensures kind { IfErr result (IsPartRefusal S.can_fail container.old (has_pool ∷ reads_pool ∷ [])) }
{
    let bytes = bytes_at(alloc, container, &string_pool_key(), reasons::NO_POOL)?;
    pool_builder_of(alloc, bytes.as_slice())
}

/// The pool of texts, as its two streams encode it.
pub(crate) fn read_pool<S: Seekable + Drop>(
    alloc: Global,
    container: &mut ContainerView<S>,
) -> Result<StringPool, Error>
    ensures reads { ReadsStreams container.old container.new pool_names }
    ensures ok { IfOk result (λ pool. (file : List ℕ) → Tells container.old.held file
        → RawPoolIs (root_in file container.old) pool) }
    ensures only { IfOk result (λ pool. (file : List ℕ) → Tells container.old.held file → (other : Pool)
        → RawPoolIs (root_in file container.old) other → pool ≡ other) }
    ensures kind { IfErr result (IsPartRefusal S.can_fail container.old
        (has_pool ∷ reads_pool ∷ has_texts ∷ reads_texts ∷ [])) }
{
    let stream = read_pool_stream(alloc, container)?;
    let texts = bytes_at(alloc, container, &string_data_key(), reasons::NO_POOL)?;
    let len = texts.len();
    let bytes = part_of(Rc::new(alloc, texts)?, 0, len);
    pool_of(alloc, stream, bytes.as_slice(), shared_part(&bytes))
}

/// The pool, and the tables that the system tables describe. Only their streams are read.
pub(crate) fn read_catalog<S: Seekable + Drop>(
    alloc: Global,
    container: &mut ContainerView<S>,
) -> Result<Catalog, Error>
    ensures reads { ReadsStreams container.old container.new catalog_names }
    ensures ok { IfOk result (λ c. (file : List ℕ) → Tells container.old.held file
        → IsCatalog (root_in file container.old) c.pool c.tables
        × AreStreamsOf (root_in file container.old) c.streams
        × IsSchemaLoaded (root_in file container.old) c.streams) }
    ensures kind { IfErr result (IsPartRefusal S.can_fail container.old table_steps) }
{
    let pool = read_pool(alloc, container)?;
    let mut streams = StreamMap::new(alloc);
    load_schema(alloc, container, &mut streams)?;
    look_at(&streams);
    let DescribedTables {
        standard: _,
        tables,
        validation: _,
    } = tables_in(alloc, &pool, &streams)?;
    Ok(Catalog {
        pool,
        tables,
        streams,
    })
}

/// Reads the pool and the tables, unless they were read before.
pub(crate) fn look<S: Seekable + Drop>(
    alloc: Global,
    container: &mut ContainerView<S>,
    catalog: &mut Option<Catalog>,
) -> Result<(), Error>
    requires before { IsLook container.old catalog.old }
    ensures look { IsLook container.new catalog.new }
    ensures there { OnOk result (IsSome catalog.new) }
    ensures reads { ReadsStreams container.old container.new catalog_names }
    ensures kind { IfErr result (IsPartRefusal S.can_fail container.old table_steps) }
{
    if catalog.is_none() {
        *catalog = Some(read_catalog(alloc, container)?);
    }
    Ok(())
}

/// Reads the pool, the tables, and the streams of the tables that a query is for, unless they were read before.
pub(crate) fn look_for<S: Seekable + Drop>(
    alloc: Global,
    container: &mut ContainerView<S>,
    catalog: &mut Option<Catalog>,
    query: &Select,
) -> Result<(), Error>
    requires before { IsLook container.old catalog.old }
    ensures look { IsLook container.new catalog.new }
    ensures there { OnOk result (IsSome catalog.new) }
    ensures loaded { OnOk result ((file : List ℕ) → Tells container.old.held file → IfSome catalog.new
        (λ c. All (λ table. IsLoaded (root_in file container.old) c.streams (key_of table)) (tables_read query.now))) }
    ensures reads { ReadsStreams container.old container.new
        (catalog_names ++ map key_of (tables_read query.now)) }
    ensures kind { IfErr result (IsPartRefusal S.can_fail container.old table_steps) }
{
    look(alloc, container, catalog)?;
    match catalog {
        Some(catalog) => load_query(alloc, container, &mut catalog.streams, select_tree(query)),
        None => unreachable!(),
    }
}

/// Reads the pool, the tables, and the streams of all tables, unless they were read before.
pub(crate) fn look_at_all<S: Seekable + Drop>(
    alloc: Global,
    container: &mut ContainerView<S>,
    catalog: &mut Option<Catalog>,
) -> Result<(), Error>
    requires before { IsLook container.old catalog.old }
    ensures look { IsLook container.new catalog.new }
    ensures there { OnOk result (IsSome catalog.new) }
    ensures loaded { OnOk result ((file : List ℕ) → Tells container.old.held file → IfSome catalog.new
        (λ c. AreTablesLoaded (root_in file container.old) c.streams c.tables)) }
    ensures reads { ReadsDatabase container.old container.new }
    ensures kind { IfErr result (IsPartRefusal S.can_fail container.old table_steps) }
{
    look(alloc, container, catalog)?;
    match catalog {
        Some(catalog) => load_tables_of(
            alloc,
            container,
            &mut catalog.streams,
            catalog.tables.as_slice(),
        ),
        None => unreachable!(),
    }
}

impl Tables for Catalog {
    ghost use Rattle.msi_database_changes.specs.Database.{table_at};
    ghost use Rattle.msi_view.specs.Looking.{database_seen};

    ghost table = { λ c name. table_at name (database_seen c.streams c.pool c.tables) };

    fn stored(&self, name: &str) -> Result<StoredRows<'_>, Error> {
        look_at(&self.streams);
        let Some(table) = table_named(self.tables.as_slice(), name) else {
            return Err(Error::new(ErrorKind::NotFound, NO_TABLE));
        };
        match table_rows(&self.streams, table) {
            Some(stored) => Ok(stored),
            None => Err(Error::new(ErrorKind::InvalidData, UNREADABLE)),
        }
    }
}
