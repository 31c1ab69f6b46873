//! `new FILE`: a new package.

use msipkg_packages::msi::{CodePage, Package, PackageType};
use msipkg_packages::output::{Failure, Opened, System};
use msipkg_packages::{FileBytes, new_package, page_of, verified, write_package};
use std::alloc::Global;

/// Makes a file with a new package of a kind, `installer`, `patch` or `transform`. Its texts are in the code page of a
/// number, or in UTF-8 where none is given.
///
/// # Errors
/// Fails if there is no such kind or no such page, if the file is there already and isn't to be replaced, and as the
/// calls of the system do.
pub fn create_file(
    rt: &System,
    path: &str,
    kind: &str,
    page: Option<&str>,
    is_forced: bool,
) -> Result<(), Failure> {
    let bytes = new_bytes(rt.alloc(), kind, page)?;
    let bytes = verified(rt.alloc(), bytes)?;
    write_package(rt, path, is_forced, &bytes)
}

fn new_bytes(alloc: Global, kind: &str, page: Option<&str>) -> Result<FileBytes, Failure> {
    let kind = kind_of(kind)?;
    let page = match page {
        Some(number) => page_of(number)?,
        None => CodePage::Utf8,
    };
    let mut package = new_package(alloc, kind)?;
    set_pages(&mut package, page)?;
    Ok(FileBytes::of(&package)?)
}

fn kind_of(name: &str) -> Result<PackageType, Failure> {
    match name {
        "installer" => Ok(PackageType::Installer),
        "patch" => Ok(PackageType::Patch),
        "transform" => Ok(PackageType::Transform),
        _ => Err(Failure::rule("a package is an installer, a patch or a transform")),
    }
}

fn set_pages(package: &mut Package<Opened>, page: CodePage) -> Result<(), Failure> {
    package.set_database_codepage(page)?;
    Ok(package.summary_info_mut()?.set_codepage(page)?)
}
