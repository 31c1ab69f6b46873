//! `info FILE..`: what a package is, in a few lines.

use crate::facts::Facts;
use crate::product::add_product;
use crate::summary::add_summary;
use crate::tables::count_rows;
use crate::transform_info::show_transform_info;
use msipkg_format::Style;
use msipkg_looking::{PackageView, open_to_look};
use msipkg_packages::msi::{CodePage, Error, PackageType};
use msipkg_packages::output::{Failure, Output, System};
use msipkg_packages::{PackageFile, PackageTables, is_list, kind_name};
use std::alloc::Global;

/// Prints what a file's package is, as lines or as JSON on one line, and returns whether all of it can be read. Of a
/// transform with records it prints what that was made from and for.
///
/// # Errors
/// Fails as `open_to_look` does, and if a stream can't be found in the file.
pub fn show_info(
    rt: &System,
    style: Style,
    file: &PackageFile<'_>,
    is_json: bool,
    output: &mut Output,
    notes: &mut Output,
) -> Result<bool, Failure> {
    match open_to_look(rt, file, notes) {
        Ok(package) if is_package(&package) => {
            show_package(rt.alloc(), style, file, package, is_json, output)
        }
        Ok(_) => {
            show_transform_info(rt, style, file.path, is_json, output)?;
            Ok(true)
        }
        Err(failure) => match show_transform_info(rt, style, file.path, is_json, output) {
            Ok(()) => Ok(true),
            Err(_) => Err(failure),
        },
    }
}

/// Returns whether the tables of a file are a package's: a transform has records in their place, and a new one, which
/// is empty, reads as both.
fn is_package(package: &PackageView) -> bool {
    match package.package_type() {
        PackageType::Installer | PackageType::Patch => true,
        PackageType::Transform => package.tables().iter().any(|table| !is_list(table)),
    }
}

fn show_package(
    alloc: Global,
    style: Style,
    file: &PackageFile<'_>,
    mut package: PackageView,
    is_json: bool,
    output: &mut Output,
) -> Result<bool, Failure> {
    let page = package.stored_page()?;
    let mut facts = Facts::new(alloc, style, file.path, is_json);
    add_head(&package, page, &mut facts);
    add_names(alloc, &package, &mut facts);
    let is_read = add_tables(alloc, &package, &mut facts);
    add_streams(&mut package, &mut facts)?;
    facts.truth("signed", package.has_digital_signature());
    add_changeable(&mut package, &mut facts);
    facts.print(output);
    Ok(is_read && package.has_summary())
}

fn add_names(alloc: Global, package: &PackageView, facts: &mut Facts) {
    add_product(alloc, package, facts);
    if let Some(summary) = package.summary_info() {
        add_summary(summary, facts);
    }
}

fn is_utf8(package: &PackageView) -> bool {
    matches!(package.database_codepage(), CodePage::Utf8)
}

/// The page that the file names is noted where texts of another page are read as UTF-8.
fn add_head(package: &PackageView, stored_page: Option<i32>, facts: &mut Facts) {
    let page = package.database_codepage().id();
    facts.text("kind", Some(kind_name(package.package_type())));
    match stored_page {
        Some(stored) if stored != page && is_utf8(package) => {
            facts.noted_number("database_codepage", i64::from(stored), "read as UTF-8");
        }
        Some(_) | None => facts.number("database_codepage", Some(i64::from(page))),
    }
}

fn add_tables(alloc: Global, package: &PackageView, facts: &mut Facts) -> bool {
    let (mut unreadable, mut rows) = (0usize, 0usize);
    for table in package.tables() {
        match count_rows(alloc, package, table.name()) {
            Ok(count) => rows = rows.saturating_add(count),
            Err(_) => unreadable = unreadable.saturating_add(1),
        }
    }
    facts.number("tables", signed(package.tables().len()));
    if unreadable > 0 {
        facts.number("unreadable_tables", signed(unreadable));
    }
    facts.number("rows", signed(rows));
    unreadable == 0
}

fn add_streams(package: &mut PackageView, facts: &mut Facts) -> Result<(), Error> {
    let stored = package.stored_names()?;
    let names = package.stream_names()?;
    let mut bytes = 0u64;
    for name in &names {
        let length = package.stream_length(stored.as_ref(), name.as_str())?;
        bytes = bytes.saturating_add(length);
    }
    facts.number("streams", signed(names.len()));
    facts.number("stream_bytes", i64::try_from(bytes).ok());
    Ok(())
}

fn signed(count: usize) -> Option<i64> {
    i64::try_from(count).ok()
}

/// Adds whether the package's tables can be changed, and if not, why.
fn add_changeable(package: &mut PackageView, facts: &mut Facts) {
    match package.check_changeable() {
        Ok(()) => facts.truth("changeable", true),
        Err(error) => add_refusal(&error, facts),
    }
}

fn add_refusal(error: &Error, facts: &mut Facts) {
    facts.truth("changeable", false);
    facts.shown("why_not", error);
}
