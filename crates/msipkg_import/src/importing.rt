//! Giving a package what files have.

use crate::null_streams::remove_null_streams;
use crate::summary::apply_summary;
use crate::tables::apply_tables;
use msipkg_import_files::{Given, GivenStream};
use msipkg_packages::fill_stream;
use msipkg_packages::msi::Package;
use msipkg_packages::output::{Failure, Opened};
use std::alloc::Global;

/// What becomes of a row whose key a file gives.
#[derive(Clone, Copy)]
pub enum Merging {
    /// The file is refused.
    Refuse,
    /// The file's row takes its place.
    Replace,
    /// The columns that the file gives are changed.
    Update,
}

/// Gives a package what files have: the code page, tables and rows, streams, and the summary, of which nothing of the
/// old one stays.
///
/// # Errors
/// Fails as the changes of the package do, at the table, the row and the column. Some changes are made then, so the
/// package is to be dropped.
pub fn import_given(
    alloc: Global,
    package: &mut Package<Opened>,
    given: &Given,
    merging: Merging,
) -> Result<(), Failure> {
    if let Some(page) = given.page {
        package.set_database_codepage(page)?;
    }
    apply_tables(alloc, package, given.tables.as_slice(), merging)?;
    remove_null_streams(alloc, package, given.tables.as_slice())?;
    apply_streams(alloc, package, given.streams.as_slice())?;
    if given.has_summary {
        apply_summary(alloc, package, given.summary.as_slice())
    } else {
        Ok(())
    }
}

fn apply_streams(
    alloc: Global,
    package: &mut Package<Opened>,
    streams: &[GivenStream],
) -> Result<(), Failure> {
    for stream in streams {
        let name = stream.name.as_str();
        if let Err(failure) = fill_stream(package, name, stream.bytes.as_slice()) {
            return Err(failure.at(alloc, "stream", name));
        }
    }
    Ok(())
}
