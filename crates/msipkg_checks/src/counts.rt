//! Reference counts of the string pool that are wrong.

use crate::report::{Place, Report};
use crate::shown::Cut;
use msipkg_looking::PackageView;
use msipkg_packages::msi::{Error, ErrorKind};
use msipkg_packages::output::Failure;
use std::fmt;

/// Finds out if counts of texts are too low to change tables, and how many are wrong. Many tools write such counts, so
/// it is a warning if counting anew mends them. The package is counted anew in memory, unless it has storages below its
/// root: it is only read then.
pub(crate) fn check_counts(
    package: &mut PackageView,
    report: &mut Report<'_>,
) -> Result<(), Failure> {
    if package.has_storages() {
        return Ok(());
    }
    let refused = package.check_changeable();
    match package.recount() {
        Ok(0) => add_refused(refused, report),
        Ok(changed) => {
            let file = report.file();
            report.warn(Place::Pool, &WrongCounts { file, changed });
            Ok(())
        }
        Err(error) => {
            add_refused(refused, report)?;
            add_error(error, report)
        }
    }
}

/// How many texts of a file have a wrong count.
#[derive(Clone, Copy)]
struct WrongCounts<'a> {
    file: Cut<'a>,
    changed: u32,
}

impl fmt::Display for WrongCounts<'_> {
    fn fmt<W: fmt::Write>(&self, f: &mut fmt::Formatter<W>) -> fmt::Result {
        match self.changed {
            1 => f.write_str("1 text has a wrong reference count")?,
            changed => write!(f, "{changed} texts have a wrong reference count")?,
        }
        write!(f, "; msipkg check {} --fix mends counts", self.file)
    }
}

fn add_refused(refused: Result<(), Error>, report: &mut Report<'_>) -> Result<(), Failure> {
    match refused {
        Ok(()) => Ok(()),
        Err(error) => add_error(error, report),
    }
}

/// Adds an error of the string pool. Fails with `OutOfMemory` if that is the error.
fn add_error(error: Error, report: &mut Report<'_>) -> Result<(), Failure> {
    if error.kind() == ErrorKind::OutOfMemory {
        return Err(Failure::from(error));
    }
    report.add(Place::Pool, &error);
    Ok(())
}
