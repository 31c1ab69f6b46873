//! Tables that can't be read.

use msipkg_packages::msi::{Error, ErrorKind};
use msipkg_packages::output::Failure;

/// Passes over the error with which rows can't be selected: a table or a column is missing, or the table can't be read.
/// Fails with `OutOfMemory` if that is the error.
pub(crate) fn pass_over(error: Error) -> Result<(), Failure> {
    if error.kind() == ErrorKind::OutOfMemory {
        return Err(Failure::from(error));
    }
    Ok(())
}
