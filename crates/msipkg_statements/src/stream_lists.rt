//! The installer's lists of the streams and of the storages of a package, which no file has as tables.

use msi_query::parts::{SelectTree, Side, select_tree};
use msipkg_looking::PackageView;
use msipkg_packages::msi::compound::list_storages;
use msipkg_packages::msi::{
    Column, Error, Insert, Package, PackageType, Select, Text, Value, ValueView,
};
use msipkg_packages::output::{Failure, Opened, System};
use msipkg_packages::{PackageTables, new_package, rows_of};
use std::alloc::{AllocError, Global};
use std::collections::BTreeSet;

/// The list of streams: their names, and their bytes as streams.
pub const STREAMS: &str = "_Streams";

/// The list of storages, which has the same columns.
pub const STORAGES: &str = "_Storages";

/// Returns the package that a query for the package of a file is asked of: none if it is that package itself, and else
/// one that has the lists that it names as tables.
///
/// # Errors
/// Fails if a query names such a list beside a table, if the file can't be read once more for its storages, and as
/// `with_stream_lists` does.
pub fn lists_for(
    rt: &System,
    file: &str,
    package: &PackageView,
    query: &Select,
) -> Result<Option<Package<Opened>>, Failure> {
    let named = named_in(package, select_tree(query));
    if named.streams == 0 && named.storages == 0 {
        return Ok(None);
    }
    if named.tables > 0 {
        return Err(Failure::rule("_Streams and _Storages are asked without other tables"));
    }
    let names = package.stream_names()?;
    let mut lists = stream_lists(rt.alloc(), package.package_type(), names)?;
    if named.storages > 0 && package.has_storages() {
        let rows = storage_rows(rt, file)?;
        lists.insert_rows(Insert::into(rt.alloc(), STORAGES)?.rows(rows)?)?;
    }
    Ok(Some(lists))
}

/// The storages that lie in the root.
fn storage_rows(rt: &System, file: &str) -> Result<Vec<Vec<Value>>, Failure> {
    let bytes = rt.read(file)?;
    let mut rows = Vec::new(rt.alloc());
    for storage in list_storages(rt.alloc(), bytes.as_slice())? {
        if storage.parent.is_none() {
            rows.push(list_row(rt.alloc(), storage.name.to_text(rt.alloc())?)?)?;
        }
    }
    Ok(rows)
}

/// A row of a list: a name, and what it names.
fn list_row(alloc: Global, name: String) -> Result<Vec<Value>, Error> {
    let mut row = Vec::new(alloc);
    row.push(Value::Str(Text::from_string(name)))?;
    row.push(Value::Binary)?;
    Ok(row)
}

/// How often a query names each list, and tables.
#[derive(Clone, Copy)]
struct Named {
    streams: usize,
    storages: usize,
    tables: usize,
}

/// No list and no table is named.
const NONE: Named = Named {
    streams: 0,
    storages: 0,
    tables: 0,
};

impl Named {
    fn of(package: &PackageView, name: &str) -> Named {
        match name {
            STREAMS if package.get_table(STREAMS).is_none() => Named { streams: 1, ..NONE },
            STORAGES if package.get_table(STORAGES).is_none() => Named {
                storages: 1,
                ..NONE
            },
            _ => Named { tables: 1, ..NONE },
        }
    }

    fn and(self, other: Named) -> Named {
        Named {
            streams: self.streams.saturating_add(other.streams),
            storages: self.storages.saturating_add(other.storages),
            tables: self.tables.saturating_add(other.tables),
        }
    }
}

fn named_in(package: &PackageView, tree: &SelectTree) -> Named {
    match tree {
        SelectTree::Table { name, .. } => Named::of(package, name.as_str()),
        SelectTree::Join { left, right, .. } => {
            named_in(package, left).and(named_in(package, right))
        }
        SelectTree::Product { sides, .. } => named_among(package, sides.as_slice()),
    }
}

fn named_among(package: &PackageView, sides: &[Side]) -> Named {
    let mut named = NONE;
    for side in sides {
        named = named.and(Named::of(package, side.table().as_str()));
    }
    named
}

/// Returns a package that has the lists of the streams and of the storages of another one, which has none, as tables.
///
/// # Errors
/// Fails if a name of a stream can't be read, and if memory is refused.
pub fn with_stream_lists(
    alloc: Global,
    package: &Package<Opened>,
) -> Result<Package<Opened>, Failure> {
    let mut names = Vec::new(alloc);
    for name in package.streams() {
        names.push(name?)?;
    }
    stream_lists(alloc, package.package_type(), names)
}

/// Returns a package that has as tables the list of these streams, and the one of storages, which is empty.
fn stream_lists(
    alloc: Global,
    kind: PackageType,
    names: Vec<String>,
) -> Result<Package<Opened>, Failure> {
    let mut lists = new_package(alloc, kind)?;
    lists.create_table(STREAMS, list_columns(alloc)?)?;
    lists.create_table(STORAGES, list_columns(alloc)?)?;
    lists.insert_rows(Insert::into(alloc, STREAMS)?.rows(stream_rows(alloc, names)?)?)?;
    Ok(lists)
}

fn list_columns(alloc: Global) -> Result<Vec<Column>, Error> {
    let mut columns = Vec::new(alloc);
    columns.push(Column::build(alloc, "Name")?.primary_key().string(0))?;
    columns.push(Column::build(alloc, "Data")?.binary())?;
    Ok(columns)
}

fn stream_rows(alloc: Global, names: Vec<String>) -> Result<Vec<Vec<Value>>, Failure> {
    let mut rows = Vec::with_capacity(alloc, names.len())?;
    for name in names {
        rows.push(list_row(alloc, name)?)?;
    }
    Ok(rows)
}

/// Returns the names in the list of streams of a package that has it as a table.
///
/// # Errors
/// Fails if memory is refused.
pub fn listed_names(alloc: Global, lists: &Package<Opened>) -> Result<BTreeSet<String>, Failure> {
    let mut names = BTreeSet::new(alloc);
    let mut rows = rows_of(alloc, lists, STREAMS)?;
    for _ in 0..rows.len() {
        if let Some(ValueView::Str(name)) = rows.get(0) {
            names.insert(String::from_str(alloc, name)?)?;
        }
        rows.advance();
    }
    Ok(names)
}
