//! The tables that a file has rows of, listed or not.

use crate::package_view::FileView;
use msi::{Error, ErrorKind, Metered};
use msi_view::View;
use msipkg_format::{Failure, System};
use msipkg_packages::TableNames;
use std::alloc::Global;
use std::fs;

/// Returns the names of the tables of which a file has streams. A pipe or a device, which can't be read twice, and a
/// file that is no package have none.
///
/// # Errors
/// Fails if the file can't be read, and if memory is refused.
pub fn stored_tables(rt: &System, path: &str) -> Result<TableNames, Failure> {
    let alloc = rt.alloc();
    if rt.input_at(path).is_none() && !is_regular(rt, path) {
        return Ok(TableNames::none(alloc));
    }
    match View::open(alloc, Metered::new(rt.open(path)?)) {
        Ok(view) => Ok(tables_among(alloc, &view)?),
        Err(error) if matches!(error.kind(), ErrorKind::Io | ErrorKind::OutOfMemory) => {
            Err(Failure::from(error))
        }
        Err(_) => Ok(TableNames::none(alloc)),
    }
}

fn is_regular(rt: &System, path: &str) -> bool {
    match fs::metadata(&rt.rt, path) {
        Ok(metadata) => metadata.is_file(),
        Err(_) => false,
    }
}

pub(crate) fn tables_among(alloc: Global, view: &FileView) -> Result<TableNames, Error> {
    let mut tables = TableNames::none(alloc);
    for (name, _) in view.streams().iter() {
        tables.add_stored(alloc, name)?;
    }
    Ok(tables)
}
