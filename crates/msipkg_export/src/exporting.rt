//! The command `export`: which files it writes, or what it prints.

use crate::archives::export_archives;
use crate::csv_tables::{export_csv, write_csv};
use crate::json_packages::write_package;
use crate::losses::{note_losses, note_unlisted};
use crate::table_archives::print_archive;
use msipkg_format::{Escapes, Shown, Style};
use msipkg_looking::{PackageView, look_at, open_to_look};
use msipkg_packages::msi::Table;
use msipkg_packages::output::{Failure, Output, RowFormat, RowPrinting, System, at_file};
use msipkg_packages::{
    Folder, PackageFile, PackageTables, is_list, open_output, rows_of, table_named,
};
use std::alloc::Global;

/// How a file is written: as it is.
pub(crate) const BARE: Style = Style {
    is_terminal: false,
    escapes: Escapes::Nothing,
};

/// The refusal of several tables on the output.
const FOLDER: &str = "more than one table goes into a folder: add -o DIR";

/// The formats of files that other programs read.
#[derive(Clone, Copy)]
pub enum FileFormat {
    /// A package, or some of its tables, as one line of JSON.
    Json,
    /// A table as comma-separated values.
    Csv,
    /// A table as a text archive of the installer.
    Idt,
}

impl FileFormat {
    /// Returns the format of this name, as the command line has it.
    pub fn of_name(name: &str) -> Option<FileFormat> {
        match name {
            "json" => Some(FileFormat::Json),
            "csv" => Some(FileFormat::Csv),
            "idt" => Some(FileFormat::Idt),
            _ => None,
        }
    }
}

/// What an export goes to.
#[derive(Clone, Copy)]
pub struct Target<'a> {
    /// The format of the files.
    pub format: FileFormat,
    /// The path of a file for JSON, or of a folder for the other formats; without one the output.
    pub path: Option<&'a str>,
    /// Whether files that are there already are replaced.
    pub is_forced: bool,
    /// How texts are printed on the output.
    pub style: Style,
    /// Whether it is well if something is lost that the format can't hold.
    pub is_lossy: bool,
    /// Whether texts in CSV that a spreadsheet would run as formulas have an apostrophe in front.
    pub for_spreadsheets: bool,
}

/// Writes tables of a file's package, or the whole package where none is named, to files or to the output. Where a
/// whole package has streams that aren't found under their names, `notes` gets a line for each, since they aren't
/// exported, and so it does for what else is lost. Returns whether all of the package can be read, since tables are
/// written without a summary, and nothing is lost that may not be.
///
/// # Errors
/// Fails as `open_to_look` does, and for a whole package as `look_at`; if a table isn't there or can't be read, if
/// a text can't stand in the format, if a file is there already and isn't to be replaced, and as the calls of the
/// system do.
pub fn export(
    rt: &System,
    file: &PackageFile<'_>,
    names: &[&str],
    target: &Target<'_>,
    output: &mut Output,
    notes: &mut Output,
) -> Result<bool, Failure> {
    let mut package = open_for(rt, file, names, target.format, notes)?;
    let is_well = export_tables(rt, file.path, &mut package, names, target, output, notes)?;
    let is_lost = names.is_empty() && note_unlisted(rt.alloc(), file.path, &package, notes)?;
    Ok(is_well && package.has_summary() && (target.is_lossy || !is_lost))
}

/// Tables and CSV have no summary, so one that can't be read matters to whole packages in the other formats alone.
fn open_for(
    rt: &System,
    file: &PackageFile<'_>,
    names: &[&str],
    format: FileFormat,
    notes: &mut Output,
) -> Result<PackageView, Failure> {
    match format {
        FileFormat::Json | FileFormat::Idt if names.is_empty() => look_at(rt, file, notes),
        FileFormat::Csv | FileFormat::Json | FileFormat::Idt => open_to_look(rt, file, notes),
    }
}

fn export_tables(
    rt: &System,
    file: &str,
    package: &mut PackageView,
    names: &[&str],
    target: &Target<'_>,
    output: &mut Output,
    notes: &mut Output,
) -> Result<bool, Failure> {
    match target.path {
        None => print_package(rt.alloc(), file, package, names, target, output)?,
        Some(path) => write_files(rt, file, package, names, target, path)?,
    }
    if names.is_empty() && !matches!(target.format, FileFormat::Csv) {
        note_hidden(file, package, notes)?;
    }
    let is_lost = note_losses(rt.alloc(), file, package, names, target.format, notes)?;
    Ok(target.is_lossy || !is_lost)
}

fn print_package(
    alloc: Global,
    file: &str,
    package: &mut PackageView,
    names: &[&str],
    target: &Target<'_>,
    output: &mut Output,
) -> Result<(), Failure> {
    let style = target.style;
    match target.format {
        FileFormat::Json => write_package(alloc, style, file, package, names, output),
        FileFormat::Csv => {
            let table = one_table(alloc, package, names)?;
            write_csv(alloc, package, table, csv_printing(style, target), output)
        }
        FileFormat::Idt => {
            let table = one_table(alloc, package, names)?;
            print_archive(alloc, style, package, table, output)
        }
    }
}

fn csv_printing<'a>(style: Style, target: &Target<'_>) -> RowPrinting<'a> {
    RowPrinting {
        for_spreadsheets: target.for_spreadsheets,
        ..RowPrinting::of(style, RowFormat::Csv)
    }
}

fn one_table<'a>(
    alloc: Global,
    package: &'a PackageView,
    names: &[&str],
) -> Result<&'a Table, Failure> {
    match names {
        [name] => table_named(alloc, package, name),
        _ => Err(Failure::rule(FOLDER)),
    }
}

fn write_files(
    rt: &System,
    file: &str,
    package: &mut PackageView,
    names: &[&str],
    target: &Target<'_>,
    path: &str,
) -> Result<(), Failure> {
    let is_forced = target.is_forced;
    let folder = Folder { path, is_forced };
    match target.format {
        FileFormat::Json => at_file(
            rt.alloc(),
            path,
            write_json(rt, file, package, names, &folder),
        ),
        FileFormat::Csv => { export_csv(rt, package, names, csv_printing(BARE, target), &folder) }
        FileFormat::Idt => export_archives(rt, package, names, &folder),
    }
}

fn write_json(
    rt: &System,
    file: &str,
    package: &mut PackageView,
    names: &[&str],
    target: &Folder<'_>,
) -> Result<(), Failure> {
    let (new, bytes) = open_output(rt, target.path, target.is_forced)?;
    let mut output = Output::to_file(rt.alloc(), bytes);
    let written = write_synced(rt.alloc(), file, package, names, &mut output);
    new.settle(rt, written)
}

fn write_synced(
    alloc: Global,
    file: &str,
    package: &mut PackageView,
    names: &[&str],
    output: &mut Output,
) -> Result<(), Failure> {
    write_package(alloc, BARE, file, package, names, output)?;
    Ok(output.end_synced()?)
}

/// Writes a line for each stream of a file's package that isn't found under its name.
fn note_hidden(file: &str, package: &PackageView, notes: &mut Output) -> Result<(), Failure> {
    for name in &package.stream_names()? {
        if !package.has_stream(name.as_str()) {
            note_stream(file, name.as_str(), notes);
        }
    }
    Ok(())
}

fn note_stream(file: &str, stream: &str, notes: &mut Output) {
    let (file, stream) = (Shown::escaped(file), Shown::escaped(stream));
    writeln!(
        notes,
        "msipkg: {file}: stream {stream}: it isn't exported, since it isn't found under its name"
    );
}

/// Writes a file's package as a line of JSON, if its tables can all be read. If it has streams that aren't found under
/// their names, `notes` gets a line for each, since they aren't exported, and so it does for a table that the package
/// doesn't list. Returns whether there is no such table, or it may be lost.
///
/// # Errors
/// Fails as `look_at` does, and if a table can't be read, and then nothing is written.
pub fn export_line(
    rt: &System,
    style: Style,
    file: &PackageFile<'_>,
    is_lossy: bool,
    output: &mut Output,
    notes: &mut Output,
) -> Result<bool, Failure> {
    let mut package = look_at(rt, file, notes)?;
    write_line(rt.alloc(), style, file.path, &mut package, output)?;
    note_hidden(file.path, &package, notes)?;
    let is_lost = note_unlisted(rt.alloc(), file.path, &package, notes)?;
    Ok(is_lossy || !is_lost)
}

fn write_line(
    alloc: Global,
    style: Style,
    file: &str,
    package: &mut PackageView,
    output: &mut Output,
) -> Result<(), Failure> {
    check_tables(alloc, package)?;
    write_package(alloc, style, file, package, &[], output)
}

fn check_tables(alloc: Global, package: &PackageView) -> Result<(), Failure> {
    for table in package.tables() {
        if !is_list(table) {
            drop(rows_of(alloc, package, table.name())?);
        }
    }
    Ok(())
}
