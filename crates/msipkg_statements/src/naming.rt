//! The tables and columns that a text names, and the first of them that a package lacks.

use msi_query_tokens::token::Kind;
use msipkg_format::{Shown, near_text};
use msipkg_packages::PackageTables;
use msipkg_packages::msi::Table;
use msipkg_queries::pieces::{Piece, has_kind, is_at, own_name_at, table_at};
use std::alloc::{AllocError, Global};

/// A table that a text names, and the name that its columns go by there.
#[derive(Clone, Copy)]
pub(crate) struct NamedTable<'a> {
    pub(crate) name: &'a str,
    pub(crate) table: &'a Table,
}

pub(crate) fn table_fault<P: PackageTables>(
    alloc: Global,
    package: &P,
    pieces: &[Piece<'_>],
) -> Result<Option<String>, AllocError> {
    for i in 0..pieces.len() {
        if let Some(name) = table_at(pieces, i)
            && package.get_table(name).is_none()
        {
            return Ok(Some(missing_table(alloc, package, name)?));
        }
    }
    Ok(None)
}

fn missing_table<P: PackageTables>(
    alloc: Global,
    package: &P,
    name: &str,
) -> Result<String, AllocError> {
    let mut names = Vec::new(alloc);
    for table in package.tables() {
        names.push(table.name())?;
    }
    let near = near_text(alloc, name, names.as_slice())?;
    let name = Shown::escaped(name);
    if !near.is_empty() {
        return format!(in alloc; "table {name} isn't there{near}");
    }
    let count = names.len();
    format!(in alloc; "table {name} isn't there; msipkg tables FILE lists the {count} tables")
}

/// Returns the tables that a text names, as far as a package has them.
pub(crate) fn tables_in<'a, P: PackageTables>(
    alloc: Global,
    package: &'a P,
    pieces: &[Piece<'a>],
) -> Result<Vec<NamedTable<'a>>, AllocError> {
    let mut tables = Vec::new(alloc);
    for i in 0..pieces.len() {
        if let Some(name) = table_at(pieces, i)
            && let Some(table) = package.get_table(name)
        {
            let name = own_name_at(pieces, i).unwrap_or(name);
            tables.push(NamedTable { name, table })?;
        }
    }
    Ok(tables)
}

/// Returns what is wrong with the first missing column of a text. Which columns exist in a query within brackets isn't
/// known.
pub(crate) fn column_fault(
    alloc: Global,
    tables: &[NamedTable<'_>],
    pieces: &[Piece<'_>],
) -> Result<Option<String>, AllocError> {
    if has_inner_query(pieces) || has_kind(pieces, Kind::Insert) {
        return Ok(None);
    }
    let known = known_columns(alloc, tables)?;
    for i in 0..pieces.len() {
        if let Some(name) = column_at(alloc, pieces, i)?
            && !known.iter().any(|other| other.as_str() == name.as_str())
        {
            let fault = missing_column(alloc, tables, known.as_slice(), name.as_str())?;
            return Ok(Some(fault));
        }
    }
    Ok(None)
}

fn has_inner_query(pieces: &[Piece<'_>]) -> bool {
    pieces
        .iter()
        .filter(|piece| piece.kind == Kind::Select)
        .count()
        > 1
}

/// Returns the names of the columns of tables, with those that the tables go by in front and without: first as most
/// write them.
pub(crate) fn known_columns(
    alloc: Global,
    tables: &[NamedTable<'_>],
) -> Result<Vec<String>, AllocError> {
    let mut names = Vec::new(alloc);
    for NamedTable { name, table } in tables {
        let (first, second) = if tables.len() > 1 {
            (*name, "")
        } else {
            ("", *name)
        };
        add_columns(alloc, table, first, &mut names)?;
        add_columns(alloc, table, second, &mut names)?;
    }
    Ok(names)
}

fn add_columns(
    alloc: Global,
    table: &Table,
    front: &str,
    names: &mut Vec<String>,
) -> Result<(), AllocError> {
    let dot = if front.is_empty() { "" } else { "." };
    for column in table.columns() {
        let name = column.name();
        names.push(format!(in alloc; "{front}{dot}{name}")?)?;
    }
    Ok(())
}

fn column_at(
    alloc: Global,
    pieces: &[Piece<'_>],
    place: usize,
) -> Result<Option<String>, AllocError> {
    let Some(name) = first_name(pieces, place) else {
        return Ok(None);
    };
    match second_name(pieces, place) {
        Some(second) => Ok(Some(format!(in alloc; "{name}.{second}")?)),
        None => Ok(Some(String::from_str(alloc, name)?)),
    }
}

/// Returns the name at a place that is neither that of a table nor the second half of one.
fn first_name<'a>(pieces: &[Piece<'a>], place: usize) -> Option<&'a str> {
    let is_half = place > 0 && is_at(pieces, place.saturating_sub(1), Kind::Dot);
    if is_half || table_at(pieces, place).is_some() || is_own_name(pieces, place) {
        return None;
    }
    pieces.get(place)?.name()
}

fn is_own_name(pieces: &[Piece<'_>], place: usize) -> bool {
    let before = place.saturating_sub(1);
    table_at(pieces, before).is_some() && own_name_at(pieces, before).is_some() && before < place
}

fn second_name<'a>(pieces: &[Piece<'a>], place: usize) -> Option<&'a str> {
    if is_at(pieces, place.saturating_add(1), Kind::Dot) {
        pieces.get(place.saturating_add(2))?.name()
    } else {
        None
    }
}

pub(crate) fn missing_column(
    alloc: Global,
    tables: &[NamedTable<'_>],
    known: &[String],
    name: &str,
) -> Result<String, AllocError> {
    let mut names = Vec::new(alloc);
    for other in known {
        names.push(other.as_str())?;
    }
    let near = near_text(alloc, name, names.as_slice())?;
    let name = Shown::escaped(name);
    match tables {
        [NamedTable { table, .. }] => {
            let table = Shown::escaped(table.name());
            format!(in alloc; "{table}: column {name} isn't there{near}")
        }
        _ => format!(in alloc; "column {name} isn't there{near}"),
    }
}
