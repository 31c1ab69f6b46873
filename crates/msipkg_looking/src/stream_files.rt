//! Streams as files of a folder.

use crate::package_view::PackageView;
use crate::stored::StoredNames;
use msipkg_format::{Failure, System, at_file};
use msipkg_packages::{Folder, open_new};
use msipkg_safe_names::SafeName;

/// Writes a stream of a package to a file of a folder, in pieces.
///
/// # Errors
/// Fails as `open_new` and `PackageView::copy_stream` do, at the file's path.
pub fn write_stream(
    rt: &System,
    package: &mut PackageView,
    stored: Option<&StoredNames>,
    name: &str,
    file: &SafeName,
    folder: &Folder<'_>,
) -> Result<(), Failure> {
    let path = folder.path_of(rt.alloc(), file)?;
    let written = write_at(rt, package, stored, name, path.as_str(), folder.is_forced);
    at_file(rt.alloc(), path.as_str(), written)
}

fn write_at(
    rt: &System,
    package: &mut PackageView,
    stored: Option<&StoredNames>,
    name: &str,
    path: &str,
    is_forced: bool,
) -> Result<(), Failure> {
    let (new, mut file) = open_new(rt, path, is_forced)?;
    let written = match package.copy_stream(stored, name, &mut file) {
        Ok(()) => file.sync_all().map_err(Failure::from),
        Err(failure) => Err(failure),
    };
    new.settle(rt, written)
}
