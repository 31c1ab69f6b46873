//! Putting a package that was changed in the place of its file, or in a new one.

use crate::change::Manner;
use crate::lost_texts::refusal;
use msipkg_format::{Shown, at_file};
use msipkg_packages::msi::Package;
use msipkg_packages::output::{Failure, Opened, Output, System};
use msipkg_packages::{
    Claim, FileBytes, FileState, bytes_to_write, named_page, replace_package, verified,
    write_package,
};
use std::alloc::Global;

/// A new file for a changed package.
#[derive(Clone, Copy)]
pub struct Destination<'a> {
    /// Its path.
    pub path: &'a str,
    /// Whether a file that is there already is replaced.
    pub is_forced: bool,
}

/// Replaces a file by a changed package, and leaves it alone if nothing was changed. `errors` gets a line if a
/// signature is no longer valid, and one if the file has other names, which keep the old package. After a failure the
/// file is as it was.
pub(crate) fn store(
    rt: &System,
    file: &str,
    claim: &Claim,
    package: Package<Opened>,
    state: FileState,
    manner: Manner,
    errors: &mut Output,
) -> Result<(), Failure> {
    let is_signed = package.has_digital_signature();
    let Some(bytes) = new_bytes(rt.alloc(), package, state)? else {
        return Ok(());
    };
    let bytes = checked(rt.alloc(), file, bytes, state, manner, errors)?;
    replace_package(rt, claim, &bytes)?;
    claim.note_names(file, errors);
    note_signature(file, is_signed, errors);
    Ok(())
}

/// Makes a file of a changed package. `errors` gets a line if a signature isn't valid there.
pub(crate) fn store_new(
    rt: &System,
    target: Destination<'_>,
    package: Package<Opened>,
    state: FileState,
    manner: Manner,
    errors: &mut Output,
) -> Result<(), Failure> {
    let (alloc, path) = (rt.alloc(), target.path);
    let is_signed = package.has_digital_signature();
    let bytes = match FileBytes::of(&package) {
        Ok(bytes) => bytes,
        Err(error) => return Err(refusal(alloc, &package, error)),
    };
    let bytes = checked(alloc, path, bytes, state, manner, errors)?;
    at_file(
        alloc,
        path,
        write_package(rt, path, target.is_forced, &bytes),
    )?;
    note_signature(path, is_signed, errors);
    Ok(())
}

fn new_bytes(
    alloc: Global,
    package: Package<Opened>,
    state: FileState,
) -> Result<Option<FileBytes>, Failure> {
    match bytes_to_write(&package, state.is_recoded) {
        Ok(bytes) => Ok(bytes),
        Err(error) => Err(refusal(alloc, &package, error)),
    }
}

/// Returns the bytes of a file, once they open as a package. `errors` gets a line if they name a page where it was 0.
fn checked(
    alloc: Global,
    file: &str,
    bytes: FileBytes,
    state: FileState,
    manner: Manner,
    errors: &mut Output,
) -> Result<FileBytes, Failure> {
    let bytes = if manner.is_verified {
        verified(alloc, bytes)?
    } else {
        bytes
    };
    if state.has_page_zero && !matches!(named_page(alloc, &bytes)?, Some(0)) {
        note(file, "page 0 becomes page 65001, which is UTF-8", errors);
    }
    Ok(bytes)
}

fn note_signature(file: &str, is_signed: bool, errors: &mut Output) {
    if is_signed {
        note(file, "its digital signature is no longer valid", errors);
    }
}

fn note(file: &str, text: &str, errors: &mut Output) {
    let file = Shown::escaped(file);
    writeln!(errors, "msipkg: {file}: {text}");
}
