//! Comparing the packages of two files.

use crate::facts::{compare_kinds, compare_summaries};
use crate::report::Report;
use crate::streams::compare_streams;
use crate::tables::compare_tables;
use msipkg_format::Style;
use msipkg_looking::{PackageView, StoredNames, look_at};
use msipkg_packages::PackageFile;
use msipkg_packages::msi::{CodePage, Error};
use msipkg_packages::output::{Failure, Output, System};
use std::alloc::Global;

/// A package that is compared.
pub(crate) struct Compared<'a> {
    /// The path of its file.
    pub(crate) file: &'a str,
    pub(crate) package: PackageView,
    /// The names of its streams as they are stored, if there is one that isn't found under its name.
    pub(crate) stored: Option<StoredNames>,
    /// The page that the file names for its database.
    pub(crate) page: i32,
}

/// Written out, so that a function that owns one calls one drop, and its proof doesn't go through those of the parts.
impl Drop for Compared<'_> {
    fn drop(self) {
        let Compared {
            file: _,
            package: _,
            stored: _,
            page: _,
        } = self;
    }
}

impl<'a> Compared<'a> {
    fn of(file: &'a str, mut package: PackageView) -> Result<Compared<'a>, Error> {
        let stored = package.stored_names()?;
        let page = page_of(&mut package)?;
        Ok(Compared {
            file,
            package,
            stored,
            page,
        })
    }
}

/// Prints what differs between the packages of two files: their kinds, code pages, summaries, tables, columns, rows by
/// their keys, and streams. Returns whether nothing does.
///
/// # Errors
/// Fails as `look_at` does, at its path where the new file isn't opened. Fails if a table can't
/// be read, and if memory is refused for comparing; the last member of JSON says so. If printing fails, the output
/// keeps that; then what is returned may miss a difference.
pub fn compare_files(
    rt: &System,
    style: Style,
    old: &PackageFile<'_>,
    new: &PackageFile<'_>,
    is_json: bool,
    output: &mut Output,
    notes: &mut Output,
) -> Result<bool, Failure> {
    let mut old = Compared::of(old.path, look_at(rt, old, notes)?)?;
    let mut new = Compared::of(new.path, look_at_new(rt, new, notes)?)?;
    print_differences(rt.alloc(), style, &mut old, &mut new, is_json, output)
}

/// Returns the page that a file names for the database of its package, where another may be read as UTF-8.
fn page_of(package: &mut PackageView) -> Result<i32, Error> {
    let page = package.database_codepage();
    if matches!(page, CodePage::Utf8) {
        Ok(package.stored_page()?.unwrap_or(page.id()))
    } else {
        Ok(page.id())
    }
}

fn look_at_new(
    rt: &System,
    file: &PackageFile<'_>,
    notes: &mut Output,
) -> Result<PackageView, Failure> {
    match look_at(rt, file, notes) {
        Ok(package) => Ok(package),
        Err(failure) => Err(failure.at(rt.alloc(), "file", file.path)),
    }
}

fn print_differences(
    alloc: Global,
    style: Style,
    old: &mut Compared<'_>,
    new: &mut Compared<'_>,
    is_json: bool,
    output: &mut Output,
) -> Result<bool, Failure> {
    let mut report = Report::new(alloc, style, is_json, output);
    report.begin(&[("old", old.file), ("new", new.file)]);
    match compare(old, new, &mut report) {
        Ok(()) => Ok(report.end()),
        Err(failure) => {
            report.end_failed(&failure);
            Err(failure)
        }
    }
}

fn compare(
    old: &mut Compared<'_>,
    new: &mut Compared<'_>,
    report: &mut Report<'_>,
) -> Result<(), Failure> {
    compare_kinds(old, new, report);
    if let (Some(summary), Some(other)) = (old.package.summary_info(), new.package.summary_info()) {
        compare_summaries(summary, other, report)?;
    }
    compare_tables(old, new, report)?;
    compare_streams(old, new, report)
}
