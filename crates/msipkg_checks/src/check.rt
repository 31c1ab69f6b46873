//! `check FILE..`: the errors and warnings of a package, each on a line with its place.

use crate::counts::check_counts;
use crate::references::check_references;
use crate::report::{Place, Report};
use crate::streams::check_streams;
use crate::unlisted::check_unlisted;
use crate::validation::check_validation;
use crate::values::check_values;
use msipkg_format::Style;
use msipkg_looking::{PackageView, open_to_look};
use msipkg_packages::PackageFile;
use msipkg_packages::output::{Failure, Output, System};
use std::alloc::Global;

/// How findings are printed.
#[derive(Clone, Copy)]
pub struct CheckOptions {
    /// How texts are printed.
    pub style: Style,
    /// Whether all findings are JSON on one line.
    pub is_json: bool,
    /// Whether warnings are errors.
    pub is_strict: bool,
}

/// What a check found.
#[derive(Clone, Copy, Debug)]
pub enum Checked {
    /// No error.
    Sound,
    /// Errors, which are printed.
    Faulty,
    /// What came before it failed; the JSON says why.
    Incomplete,
}

/// Prints each finding in the package of a file on a line as it is found, or all of them as JSON on one line. A summary
/// that can't be read is an error, and `notes` gets a line that says why.
///
/// # Errors
/// Fails as `open_to_look` does, and if memory is refused for the check. Where that comes in the midst of JSON, the
/// line says so instead.
pub fn check_file(
    rt: &System,
    options: CheckOptions,
    file: &PackageFile<'_>,
    output: &mut Output,
    notes: &mut Output,
) -> Result<Checked, Failure> {
    let mut package = open_to_look(rt, file, notes)?;
    print_check(rt.alloc(), options, file.path, &mut package, output)
}

fn print_check(
    alloc: Global,
    options: CheckOptions,
    file: &str,
    package: &mut PackageView,
    output: &mut Output,
) -> Result<Checked, Failure> {
    let mut report = Report::new(alloc, options, file, output);
    report.begin();
    if !package.has_summary() {
        report.add(Place::Summary, &"it can't be read");
    }
    let found = find_errors(alloc, package, &mut report);
    report.end(found.as_ref().err());
    match found {
        Ok(()) if report.is_well() => Ok(Checked::Sound),
        Ok(()) => Ok(Checked::Faulty),
        Err(_) if options.is_json => Ok(Checked::Incomplete),
        Err(failure) => Err(failure),
    }
}

/// Finds the errors in a package. The counts come last, since counting anew changes the package in memory.
fn find_errors(
    alloc: Global,
    package: &mut PackageView,
    report: &mut Report<'_>,
) -> Result<(), Failure> {
    check_unlisted(alloc, package, report)?;
    check_values(alloc, package, report)?;
    check_references(alloc, package, report)?;
    check_validation(alloc, package, report)?;
    check_streams(alloc, package, report)?;
    check_counts(package, report)
}
