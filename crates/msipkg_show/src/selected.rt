//! What else there is of the rows that a query selects: all their columns, and the tables that they are of.

use msi_query::parts::{SelectTree, Side, select_tree};
use msipkg_packages::PackageTables;
use msipkg_packages::msi::{Error, Select, Table};
use std::alloc::{AllocError, Global};

/// Returns a query for the rows that another one selects, in their order, with all columns. Queries in brackets stay as
/// they are, since other columns of theirs could have the names of these. Of a query whose equal rows count once there
/// is none, since a row may stand for several.
///
/// # Errors
/// Fails if memory is refused.
pub(crate) fn wide_select(alloc: Global, query: &Select) -> Result<Option<Select>, Error> {
    if is_distinct(select_tree(query)) {
        return Ok(None);
    }
    Ok(Some(query.clone(alloc)?.columns(&[])?))
}

fn is_distinct(tree: &SelectTree) -> bool {
    match tree {
        SelectTree::Table { clauses, .. } => clauses.is_distinct(),
        SelectTree::Join { clauses, .. } => clauses.is_distinct(),
        SelectTree::Product { clauses, .. } => clauses.is_distinct(),
    }
}

/// Returns the tables of a query, as far as a package has them.
///
/// # Errors
/// Fails if memory is refused.
pub(crate) fn selected_tables<'a, P: PackageTables>(
    alloc: Global,
    package: &'a P,
    query: &Select,
) -> Result<Vec<&'a Table>, AllocError> {
    let mut tables = Vec::new(alloc);
    add_tables(package, select_tree(query), &mut tables)?;
    Ok(tables)
}

fn add_tables<'a, P: PackageTables>(
    package: &'a P,
    tree: &SelectTree,
    tables: &mut Vec<&'a Table>,
) -> Result<(), AllocError> {
    match tree {
        SelectTree::Table { name, .. } => add_table(package, name.as_str(), tables),
        SelectTree::Join { left, right, .. } => {
            add_tables(package, left, tables)?;
            add_tables(package, right, tables)
        }
        SelectTree::Product { sides, .. } => add_sides(package, sides.as_slice(), tables),
    }
}

fn add_sides<'a, P: PackageTables>(
    package: &'a P,
    sides: &[Side],
    tables: &mut Vec<&'a Table>,
) -> Result<(), AllocError> {
    for side in sides {
        add_table(package, side.table().as_str(), tables)?;
    }
    Ok(())
}

fn add_table<'a, P: PackageTables>(
    package: &'a P,
    name: &str,
    tables: &mut Vec<&'a Table>,
) -> Result<(), AllocError> {
    if let Some(table) = package.get_table(name) {
        tables.push(table)?;
    }
    Ok(())
}
