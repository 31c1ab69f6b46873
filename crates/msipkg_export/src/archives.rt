//! A folder of text archives: one for each table, and those of what isn't in a table, with the files of streams.

use crate::archive_texts::StoredText;
use crate::exporting::BARE;
use crate::folders::{make_folder, make_inner_folder};
use crate::other_archives::{
    PAGE, STREAMS, SUMMARY, page_archive, stream_files, streams_archive, summary_archive,
};
use crate::table_archives::{StreamFile, TableArchive};
use msipkg_looking::{PackageView, write_stream};
use msipkg_packages::output::{Failure, Output, System, at_file};
use msipkg_packages::{Folder, chosen_tables, open_new, table_named};
use msipkg_safe_names::{Ending, SafeName, SafeNames, safe_name};
use std::alloc::{AllocError, Global};
use std::collections::BTreeSet;

/// What was exported.
struct Exported {
    /// The names of the tables' files.
    given: SafeNames,
    /// The streams of rows.
    streams: BTreeSet<String>,
}

/// Written out, so that a function that owns one calls one drop, and its proof doesn't go through those of the parts.
impl Drop for Exported {
    fn drop(self) {
        let Exported {
            given: _,
            streams: _,
        } = self;
    }
}

impl Exported {
    /// Returns an empty export. No table's file is named as that of the code page, the summary or the streams.
    fn new(alloc: Global) -> Result<Exported, AllocError> {
        let mut given = SafeNames::new(alloc);
        for name in [PAGE, SUMMARY, STREAMS] {
            given.give(name)?;
        }
        Ok(Exported {
            given,
            streams: BTreeSet::new(alloc),
        })
    }

    fn add(&mut self, files: Vec<StreamFile>) -> Result<(), AllocError> {
        for file in files {
            self.streams.insert(file.into_stream())?;
        }
        Ok(())
    }
}

/// Writes each table to a text archive, and its streams to an inner folder named as that file. If no table is named,
/// the code page, the summary and the other streams are written too, as `_ForceCodepage`, `_SummaryInformation` and
/// `_Streams`. After a failure earlier files stay.
pub(crate) fn export_archives(
    rt: &System,
    package: &mut PackageView,
    names: &[&str],
    folder: &Folder<'_>,
) -> Result<(), Failure> {
    let tables = table_names(rt.alloc(), package, names)?;
    check_archives(rt, tables.as_slice(), folder)?;
    if names.is_empty() {
        check_others(rt, folder)?;
    }
    make_folder(rt, folder.path)?;
    let mut exported = Exported::new(rt.alloc())?;
    export_chosen(rt, package, names, tables.as_slice(), folder, &mut exported)
}

/// Returns the names of the tables of these names, or of all where there is none.
fn table_names(
    alloc: Global,
    package: &PackageView,
    names: &[&str],
) -> Result<Vec<String>, Failure> {
    let mut chosen = Vec::new(alloc);
    for table in chosen_tables(alloc, package, names, false)? {
        chosen.push(String::from_str(alloc, table.name())?)?;
    }
    Ok(chosen)
}

fn check_archives(rt: &System, tables: &[String], folder: &Folder<'_>) -> Result<(), Failure> {
    let mut exported = Exported::new(rt.alloc())?;
    for table in tables {
        let name = exported.given.give(table.as_str())?;
        folder.check(rt, &name.with_ending(Ending::Idt)?)?;
    }
    Ok(())
}

fn check_others(rt: &System, folder: &Folder<'_>) -> Result<(), Failure> {
    for archive in [PAGE, SUMMARY] {
        folder.check(rt, &archive_name(rt.alloc(), archive)?)?;
    }
    Ok(())
}

fn archive_name(alloc: Global, archive: &str) -> Result<SafeName, AllocError> {
    safe_name(alloc, archive)?.with_ending(Ending::Idt)
}

fn export_chosen(
    rt: &System,
    package: &mut PackageView,
    names: &[&str],
    tables: &[String],
    folder: &Folder<'_>,
    exported: &mut Exported,
) -> Result<(), Failure> {
    export_tables(rt, package, tables, folder, exported)?;
    if names.is_empty() {
        return export_others(rt, package, &exported.streams, folder);
    }
    Ok(())
}

fn export_tables(
    rt: &System,
    package: &mut PackageView,
    tables: &[String],
    folder: &Folder<'_>,
    exported: &mut Exported,
) -> Result<(), Failure> {
    for table in tables {
        match export_table(rt, package, table.as_str(), folder, exported) {
            Ok(()) => {}
            Err(failure) => return Err(failure.at(rt.alloc(), "table", table.as_str())),
        }
    }
    Ok(())
}

fn export_table(
    rt: &System,
    package: &mut PackageView,
    table: &str,
    folder: &Folder<'_>,
    exported: &mut Exported,
) -> Result<(), Failure> {
    let safe = exported.given.give(table)?;
    let files = write_table(rt, package, table, &safe, folder)?;
    write_streams(rt, package, &safe, files.as_slice(), folder)?;
    Ok(exported.add(files)?)
}

fn write_table(
    rt: &System,
    package: &PackageView,
    table: &str,
    safe: &SafeName,
    folder: &Folder<'_>,
) -> Result<Vec<StreamFile>, Failure> {
    let table = table_named(rt.alloc(), package, table)?;
    let mut archive = TableArchive::new(rt.alloc(), package, table)?;
    write_archive(rt, &mut archive, safe, folder)?;
    Ok(archive.into_files())
}

fn write_archive(
    rt: &System,
    archive: &mut TableArchive<'_>,
    safe: &SafeName,
    folder: &Folder<'_>,
) -> Result<(), Failure> {
    let path = folder.path_of(rt.alloc(), &safe.with_ending(Ending::Idt)?)?;
    let written = write_file(rt, archive, path.as_str(), folder.is_forced);
    at_file(rt.alloc(), path.as_str(), written)
}

fn write_file(
    rt: &System,
    archive: &mut TableArchive<'_>,
    path: &str,
    is_forced: bool,
) -> Result<(), Failure> {
    let (new, bytes) = open_new(rt, path, is_forced)?;
    let mut output = Output::to_file(rt.alloc(), bytes);
    let written = write_synced(archive, &mut output);
    new.settle(rt, written)
}

fn write_synced(archive: &mut TableArchive<'_>, output: &mut Output) -> Result<(), Failure> {
    archive.write(BARE, output)?;
    Ok(output.end_synced()?)
}

/// Writes the code page, the summary, and the streams that no row has. Those of rows are `named`.
fn export_others(
    rt: &System,
    package: &mut PackageView,
    named: &BTreeSet<String>,
    folder: &Folder<'_>,
) -> Result<(), Failure> {
    export_page(rt, package, folder)?;
    export_summary(rt, package, folder)?;
    export_streams(rt, package, named, folder)
}

fn export_page(rt: &System, package: &PackageView, folder: &Folder<'_>) -> Result<(), Failure> {
    let page = page_archive(rt.alloc(), package.database_codepage())?;
    write_text(rt, PAGE, &page, folder)
}

fn export_summary(rt: &System, package: &PackageView, folder: &Folder<'_>) -> Result<(), Failure> {
    match package.summary_info() {
        Some(summary) => {
            let summary = summary_archive(rt.alloc(), summary)?;
            write_text(rt, SUMMARY, &summary, folder)
        }
        None => Ok(()),
    }
}

fn export_streams(
    rt: &System,
    package: &mut PackageView,
    named: &BTreeSet<String>,
    folder: &Folder<'_>,
) -> Result<(), Failure> {
    let files = stream_files(rt.alloc(), package, named)?;
    if files.is_empty() {
        return Ok(());
    }
    let page = package.database_codepage();
    let streams = streams_archive(rt.alloc(), page, files.as_slice())?;
    write_text(rt, STREAMS, &streams, folder)?;
    let safe = safe_name(rt.alloc(), STREAMS)?;
    write_streams(rt, package, &safe, files.as_slice(), folder)
}

fn write_text(
    rt: &System,
    archive: &str,
    text: &StoredText,
    folder: &Folder<'_>,
) -> Result<(), Failure> {
    let name = archive_name(rt.alloc(), archive)?;
    match text.encoded(rt.alloc()) {
        Ok(bytes) => folder.write(rt, &name, bytes.as_slice()),
        Err(error) => at_file(rt.alloc(), name.as_str(), Err(Failure::from(error))),
    }
}

fn write_streams(
    rt: &System,
    package: &mut PackageView,
    safe: &SafeName,
    files: &[StreamFile],
    folder: &Folder<'_>,
) -> Result<(), Failure> {
    if files.is_empty() {
        return Ok(());
    }
    let path = folder.path_of(rt.alloc(), safe)?;
    make_inner_folder(rt, path.as_str())?;
    let inner = Folder {
        path: path.as_str(),
        is_forced: folder.is_forced,
    };
    for file in files {
        write_stream(rt, package, None, file.stream.as_str(), &file.file, &inner)?;
    }
    Ok(())
}
