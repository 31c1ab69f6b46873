//! Opening the package of a file.

use crate::kinds::check_kind;
use crate::output::{Carrier, Failure, Opened, Origin, Output, System};
use crate::recoding::{
    PackageFile, Plain, Recoded, ToChange, bytes_to_change, read_file, recoded_by_page,
    recoded_instead,
};
use msi::{Error, Memory, Package, PackageType};
use std::alloc::Global;
use std::rc::Rc;

/// How the file of a package that was opened differs from the package.
#[derive(Clone, Copy, Debug)]
pub struct FileState {
    /// Whether it has other bytes than the package was opened from, since the texts were recoded.
    pub is_recoded: bool,
    /// Whether it names page 0 for its texts, which is read as UTF-8.
    pub has_page_zero: bool,
}

/// Returns the package of a file that is looked at. If its texts are recoded, `notes` gets a line that says so.
///
/// # Errors
/// Fails if the file can't be opened, as `Package::open` does, and at a text that its page doesn't read.
pub fn open_package(
    rt: &System,
    file: &PackageFile<'_>,
    notes: &mut Output,
) -> Result<Package<Opened>, Failure> {
    check_kind(rt, file.path)?;
    if let Some(recoded) = recoded_by_page(rt, file)? {
        return open_recoded(rt.alloc(), file, recoded, notes);
    }
    match open_as_it_is(rt, file.path) {
        Ok(package) => Ok(package),
        Err(failure) if failure.is_invalid_data() => {
            let bytes = read_file(rt, file.path)?;
            let recoded = recoded_instead(rt.alloc(), bytes, file, failure)?;
            open_recoded(rt.alloc(), file, recoded, notes)
        }
        Err(failure) => Err(failure),
    }
}

/// Returns the package of a file that is changed, and how the file differs from it. The file is read once. If the texts
/// are recoded, which has to be allowed, `notes` gets a line that says so.
///
/// # Errors
/// Fails as `open_package` does, if the texts are to be recoded and may not be, and if there are texts in a page that
/// nothing names.
pub fn open_to_change(
    rt: &System,
    file: &PackageFile<'_>,
    notes: &mut Output,
) -> Result<(Package<Opened>, FileState), Failure> {
    check_kind(rt, file.path)?;
    let bytes = read_file(rt, file.path)?;
    match bytes_to_change(rt.alloc(), bytes, file)? {
        ToChange::Plain(plain) => open_plain(rt.alloc(), file, plain, notes),
        ToChange::Recoded(recoded) => open_to_write(rt.alloc(), file, recoded, notes),
    }
}

fn open_plain(
    alloc: Global,
    file: &PackageFile<'_>,
    plain: Plain,
    notes: &mut Output,
) -> Result<(Package<Opened>, FileState), Failure> {
    let Plain {
        bytes,
        has_page_zero,
        spare,
    } = plain;
    let failure = match open_from(alloc, Origin::of_bytes(bytes)) {
        Ok(package) => {
            let state = FileState {
                is_recoded: false,
                has_page_zero,
            };
            return Ok((package, state));
        }
        Err(failure) => failure,
    };
    match spare {
        Some(bytes) if failure.is_invalid_data() => {
            let recoded = recoded_instead(alloc, bytes, file, failure)?;
            open_to_write(alloc, file, recoded, notes)
        }
        Some(_) | None => Err(failure),
    }
}

/// Returns a package that was recoded and whose file gets it so.
fn open_to_write(
    alloc: Global,
    file: &PackageFile<'_>,
    recoded: Recoded,
    notes: &mut Output,
) -> Result<(Package<Opened>, FileState), Failure> {
    let package = open_recoded(alloc, file, recoded, notes)?;
    let state = FileState {
        is_recoded: true,
        has_page_zero: false,
    };
    Ok((package, state))
}

fn open_as_it_is(rt: &System, path: &str) -> Result<Package<Opened>, Failure> {
    let file = rt.open(path)?;
    open_from(rt.alloc(), Origin::File(file))
}

fn open_recoded(
    alloc: Global,
    file: &PackageFile<'_>,
    recoded: Recoded,
    notes: &mut Output,
) -> Result<Package<Opened>, Failure> {
    recoded.permit(file, notes)?;
    open_bytes(alloc, recoded.into_bytes())
}

pub(crate) fn open_bytes(alloc: Global, bytes: Vec<u8>) -> Result<Package<Opened>, Failure> {
    open_from(alloc, Origin::of_bytes(Rc::new(alloc, bytes)?))
}

fn open_from(alloc: Global, origin: Origin) -> Result<Package<Opened>, Failure> {
    Ok(Package::open(alloc, Carrier::new(origin))?)
}

/// Returns the name of a package's kind, as `new` takes it.
pub fn kind_name(kind: PackageType) -> &'static str {
    match kind {
        PackageType::Installer => "installer",
        PackageType::Patch => "patch",
        PackageType::Transform => "transform",
    }
}

/// Returns a new package, which no file has yet.
///
/// # Errors
/// Fails if memory is refused.
pub fn new_package(alloc: Global, kind: PackageType) -> Result<Package<Opened>, Failure> {
    open_bytes(alloc, new_bytes(alloc, kind)?)
}

fn new_bytes(alloc: Global, kind: PackageType) -> Result<Vec<u8>, Error> {
    let made = Package::create(alloc, kind, Memory::from_vec(Vec::new(alloc)))?;
    Ok(made.into_reader().into_vec())
}
