//! `tables FILE`: the names of a package's tables, and how many rows they have.

use crate::listing::{Listing, Subject};
use msipkg_format::{Shown, Style};
use msipkg_looking::PackageView;
use msipkg_packages::PackageTables;
use msipkg_packages::msi::{Error, Select};
use msipkg_packages::output::{Failure, Output};
use std::alloc::Global;

/// What is printed of tables.
static TABLES: Subject = Subject {
    heads: ["Table", "Rows"],
    list: "tables",
    members: ["table", "rows"],
};

/// Prints the name of each table and the number of its rows, and returns whether all tables can be read. One that can't
/// be has no number, and a line in `notes`.
pub(crate) fn print_tables(
    alloc: Global,
    style: Style,
    file: &str,
    package: &PackageView,
    is_json: bool,
    output: &mut Output,
    notes: &mut Output,
) -> bool {
    let mut listing = Listing::new(alloc, style, file, is_json, &TABLES);
    let mut is_read = true;
    for table in package.tables() {
        let count = count_or_note(alloc, file, package, table.name(), notes);
        is_read &= count.is_some();
        listing.put(
            table.name(),
            count.and_then(|count| u64::try_from(count).ok()),
        );
    }
    listing.print(output);
    is_read
}

pub(crate) fn count_rows(
    alloc: Global,
    package: &PackageView,
    table: &str,
) -> Result<usize, Error> {
    let rows = package.select_rows(Select::table(alloc, table)?)?;
    Ok(rows.len())
}

fn count_or_note(
    alloc: Global,
    file: &str,
    package: &PackageView,
    table: &str,
    notes: &mut Output,
) -> Option<usize> {
    match count_rows(alloc, package, table) {
        Ok(count) => Some(count),
        Err(error) => {
            let failure = Failure::from(error).at(alloc, "table", table);
            note_unread(file, &failure, notes);
            None
        }
    }
}

pub(crate) fn note_unread(file: &str, failure: &Failure, notes: &mut Output) {
    let file = Shown::escaped(file);
    writeln!(notes, "msipkg: {file}: {failure}");
}
