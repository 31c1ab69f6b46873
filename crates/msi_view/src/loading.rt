//! Reading those streams of a container that are needed, each once.

ghost use Rattle.std.specs.Prelude.{ℕ, List, [], ◌∷◌, map, All, IfErr, OnOk};
ghost use Rattle.std.specs.FinMap.{entries};
ghost use Rattle.msi_container_view.specs.Reading.{IsReadRefusal, Tells};
ghost use Rattle.msi_database_schema.specs.Keys.{table_key as key_of};
ghost use Rattle.msi_database_schema.specs.System.{columns_name, tables_name, validation_name};
ghost use Rattle.msi_query.specs.QueryTrees.{query_of};
ghost use Rattle.msi_view.specs.Looking.{AreStreamsOf, AreTablesLoaded, IsLoaded, IsSchemaLoaded, ReadsStreams};
ghost use Rattle.msi_view.specs.Looking.{root_in, table_keys, tables_read};

use msi_base::Error;
use msi_container_device::Seekable;
use msi_container_format::contents::{Bytes, StreamMap};
use msi_container_format::name::Name;
use msi_container_view::ContainerView;
use msi_database_schema::names::table_key;
use msi_database_schema::system::{COLUMNS, TABLES, VALIDATION};
use msi_query::parts::{SelectTree, Side};
use msi_table::Table;
use std::alloc::Global;

/// Reads the stream of a name, unless it was read before or there is none.
pub(crate) fn load<S: Seekable + Drop>(
    alloc: Global,
    container: &mut ContainerView<S>,
    streams: &mut StreamMap,
    name: Name,
) -> Result<(), Error>
    ensures reads { ReadsStreams container.old container.new (name ∷ []) }
    ensures streams { (file : List ℕ) → Tells container.old.held file
        → AreStreamsOf (root_in file container.old) (entries streams.old)
        → AreStreamsOf (root_in file container.old) (entries streams.new) }
    ensures loaded { OnOk result ((file : List ℕ) → Tells container.old.held file
        → AreStreamsOf (root_in file container.old) (entries streams.old)
        → IsLoaded (root_in file container.old) (entries streams.new) name) }
    ensures others { (file : List ℕ) → Tells container.old.held file → (other : List ℕ)
        → IsLoaded (root_in file container.old) (entries streams.old) other
        → IsLoaded (root_in file container.old) (entries streams.new) other }
    ensures kinds { IfErr result (IsReadRefusal S.can_fail) }
{
    if streams.contains(&name) {
        return Ok(());
    }
    match container.read(alloc, &name)? {
        Some(bytes) => {
            streams.insert(name, Bytes::from_vec(bytes))?;
            Ok(())
        }
        None => Ok(()),
    }
}

/// Reads the stream of a table, if there is one.
pub(crate) fn load_table<S: Seekable + Drop>(
    alloc: Global,
    container: &mut ContainerView<S>,
    streams: &mut StreamMap,
    table: &str,
) -> Result<(), Error>
    ensures reads { ReadsStreams container.old container.new (key_of table.now ∷ []) }
    ensures streams { (file : List ℕ) → Tells container.old.held file
        → AreStreamsOf (root_in file container.old) (entries streams.old)
        → AreStreamsOf (root_in file container.old) (entries streams.new) }
    ensures loaded { OnOk result ((file : List ℕ) → Tells container.old.held file
        → AreStreamsOf (root_in file container.old) (entries streams.old)
        → IsLoaded (root_in file container.old) (entries streams.new) (key_of table.now)) }
    ensures others { (file : List ℕ) → Tells container.old.held file → (other : List ℕ)
        → IsLoaded (root_in file container.old) (entries streams.old) other
        → IsLoaded (root_in file container.old) (entries streams.new) other }
    ensures kinds { IfErr result (IsReadRefusal S.can_fail) }
{
    match table_key(table) {
        Some(name) => load(alloc, container, streams, name),
        None => {
            container.kept();
            Ok(())
        }
    }
}

/// Reads the streams of the tables that describe tables.
pub(crate) fn load_schema<S: Seekable + Drop>(
    alloc: Global,
    container: &mut ContainerView<S>,
    streams: &mut StreamMap,
) -> Result<(), Error>
    ensures reads { ReadsStreams container.old container.new
        (key_of validation_name ∷ key_of tables_name ∷ key_of columns_name ∷ []) }
    ensures streams { (file : List ℕ) → Tells container.old.held file
        → AreStreamsOf (root_in file container.old) (entries streams.old)
        → AreStreamsOf (root_in file container.old) (entries streams.new) }
    ensures loaded { OnOk result ((file : List ℕ) → Tells container.old.held file
        → AreStreamsOf (root_in file container.old) (entries streams.old)
        → IsSchemaLoaded (root_in file container.old) (entries streams.new)) }
    ensures kinds { IfErr result (IsReadRefusal S.can_fail) }
{
    load_table(alloc, container, streams, VALIDATION)?;
    load_table(alloc, container, streams, TABLES)?;
    load_table(alloc, container, streams, COLUMNS)
}

/// Reads the streams of these tables.
pub(crate) fn load_tables_of<S: Seekable + Drop>(
    alloc: Global,
    container: &mut ContainerView<S>,
    streams: &mut StreamMap,
    tables: &[Table],
) -> Result<(), Error>
    ensures reads { ReadsStreams container.old container.new (table_keys tables.now) }
    ensures streams { (file : List ℕ) → Tells container.old.held file
        → AreStreamsOf (root_in file container.old) (entries streams.old)
        → AreStreamsOf (root_in file container.old) (entries streams.new) }
    ensures loaded { OnOk result ((file : List ℕ) → Tells container.old.held file
        → AreStreamsOf (root_in file container.old) (entries streams.old)
        → AreTablesLoaded (root_in file container.old) (entries streams.new) tables.now) }
    ensures others { (file : List ℕ) → Tells container.old.held file → (other : List ℕ)
        → IsLoaded (root_in file container.old) (entries streams.old) other
        → IsLoaded (root_in file container.old) (entries streams.new) other }
    ensures kinds { IfErr result (IsReadRefusal S.can_fail) }
{
    for table in tables {
        load_table(alloc, container, streams, table.name())?;
    }
    Ok(())
}

fn load_sides<S: Seekable + Drop>(
    alloc: Global,
    container: &mut ContainerView<S>,
    streams: &mut StreamMap,
    sides: &[Side],
) -> Result<(), Error>
    ensures reads { ReadsStreams container.old container.new (map (λ side. key_of side.table) sides.now) }
    ensures streams { (file : List ℕ) → Tells container.old.held file
        → AreStreamsOf (root_in file container.old) (entries streams.old)
        → AreStreamsOf (root_in file container.old) (entries streams.new) }
    ensures loaded { OnOk result ((file : List ℕ) → Tells container.old.held file
        → AreStreamsOf (root_in file container.old) (entries streams.old)
        → All (λ side. IsLoaded (root_in file container.old) (entries streams.new) (key_of side.table)) sides.now) }
    ensures others { (file : List ℕ) → Tells container.old.held file → (other : List ℕ)
        → IsLoaded (root_in file container.old) (entries streams.old) other
        → IsLoaded (root_in file container.old) (entries streams.new) other }
    ensures kinds { IfErr result (IsReadRefusal S.can_fail) }
{
    for side in sides {
        load_table(alloc, container, streams, side.table().as_str())?;
    }
    Ok(())
}

/// Reads the streams of all tables that a query is for.
pub(crate) fn load_query<S: Seekable + Drop>(
    alloc: Global,
    container: &mut ContainerView<S>,
    streams: &mut StreamMap,
    tree: &SelectTree,
) -> Result<(), Error>
    ensures reads { ReadsStreams container.old container.new (map key_of (tables_read (query_of tree.now))) }
    ensures streams { (file : List ℕ) → Tells container.old.held file
        → AreStreamsOf (root_in file container.old) (entries streams.old)
        → AreStreamsOf (root_in file container.old) (entries streams.new) }
    ensures loaded { OnOk result ((file : List ℕ) → Tells container.old.held file
        → AreStreamsOf (root_in file container.old) (entries streams.old)
        → All (λ table. IsLoaded (root_in file container.old) (entries streams.new) (key_of table))
        (tables_read (query_of tree.now))) }
    ensures others { (file : List ℕ) → Tells container.old.held file → (other : List ℕ)
        → IsLoaded (root_in file container.old) (entries streams.old) other
        → IsLoaded (root_in file container.old) (entries streams.new) other }
    ensures kinds { IfErr result (IsReadRefusal S.can_fail) }
{
    match tree {
        SelectTree::Table { name, .. } => load_table(alloc, container, streams, name.as_str()),
        SelectTree::Join { left, right, .. } => {
            load_query(alloc, container, streams, left)?;
            load_query(alloc, container, streams, right)
        }
        SelectTree::Product { sides, .. } => {
            load_sides(alloc, container, streams, sides.as_slice())
        }
    }
}
