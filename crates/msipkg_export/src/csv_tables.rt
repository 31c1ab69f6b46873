//! Tables as comma-separated values: the names of the columns, and then a line for each row.

use crate::folders::make_folder;
use msipkg_looking::PackageView;
use msipkg_packages::msi::{Rows, Table};
use msipkg_packages::output::{
    Failure, NullCells, Output, RowPrinting, System, at_file, write_rows,
};
use msipkg_packages::{Folder, chosen_tables, null_cells_of, open_new, rows_of};
use msipkg_safe_names::{Ending, SafeName, SafeNames};
use std::alloc::{AllocError, Global};

/// Writes each table to a file of a folder, which is made if it doesn't exist. Nothing is written if a table doesn't
/// exist or a file is in the way. After other failures the files of earlier tables stay.
pub(crate) fn export_csv(
    rt: &System,
    package: &PackageView,
    names: &[&str],
    printing: RowPrinting<'_>,
    folder: &Folder<'_>,
) -> Result<(), Failure> {
    let tables = chosen_tables(rt.alloc(), package, names, false)?;
    export_tables(rt, package, tables.as_slice(), printing, folder)
}

fn export_tables(
    rt: &System,
    package: &PackageView,
    tables: &[&Table],
    printing: RowPrinting<'_>,
    folder: &Folder<'_>,
) -> Result<(), Failure> {
    check_files(rt, tables, folder)?;
    make_folder(rt, folder.path)?;
    let mut given = SafeNames::new(rt.alloc());
    for table in tables {
        export_table(rt, package, table, printing, folder, &mut given)?;
    }
    Ok(())
}

fn check_files(rt: &System, tables: &[&Table], folder: &Folder<'_>) -> Result<(), Failure> {
    let mut given = SafeNames::new(rt.alloc());
    for table in tables {
        folder.check(rt, &file_name(table, &mut given)?)?;
    }
    Ok(())
}

fn export_table(
    rt: &System,
    package: &PackageView,
    table: &Table,
    printing: RowPrinting<'_>,
    folder: &Folder<'_>,
    given: &mut SafeNames,
) -> Result<(), Failure> {
    let rows = rows_of(rt.alloc(), package, table.name())?;
    let nulls = null_cells_of(rt.alloc(), package, table)?;
    let path = folder.path_of(rt.alloc(), &file_name(table, given)?)?;
    let written = write_file(rt, path.as_str(), folder.is_forced, printing, rows, &nulls);
    at_file(rt.alloc(), path.as_str(), written)
}

fn file_name(table: &Table, given: &mut SafeNames) -> Result<SafeName, AllocError> {
    given.give(table.name())?.with_ending(Ending::Csv)
}

fn write_file(
    rt: &System,
    path: &str,
    is_forced: bool,
    printing: RowPrinting<'_>,
    rows: Rows<'_>,
    nulls: &NullCells,
) -> Result<(), Failure> {
    let (new, bytes) = open_new(rt, path, is_forced)?;
    let mut output = Output::to_file(rt.alloc(), bytes);
    let written = write_synced(rt.alloc(), printing, rows, nulls, &mut output);
    new.settle(rt, written)
}

fn write_synced(
    alloc: Global,
    printing: RowPrinting<'_>,
    rows: Rows<'_>,
    nulls: &NullCells,
    output: &mut Output,
) -> Result<(), Failure> {
    write_rows(alloc, printing, rows, nulls, output)?;
    Ok(output.end_synced()?)
}

pub(crate) fn write_csv(
    alloc: Global,
    package: &PackageView,
    table: &Table,
    printing: RowPrinting<'_>,
    output: &mut Output,
) -> Result<(), Failure> {
    let rows = rows_of(alloc, package, table.name())?;
    let nulls = null_cells_of(alloc, package, table)?;
    write_rows(alloc, printing, rows, &nulls, output)
}
