//! Packages in files: a new one, one that is looked at, and whether a file can be written.

use msi::{Buffered, Error, Metered, Package, PackageType};
use msi_view::{Readable, View};
use std::fs::{self, File, OpenOptions};
use std::io;

/// Opens an existing file for reading and writing, and closes it.
pub(crate) fn check_writable(rt: &HostRuntime, path: &str) -> io::Result<()> {
    drop(OpenOptions::new().read(true).write(true).open(rt, path)?);
    Ok(())
}

/// Creates a file, or empties an existing one, and writes a new installer package to it.
pub(crate) fn create(rt: &HostRuntime, path: &str) -> Result<(), Error> {
    let device = Buffered::new(rt.alloc(), fs::create(rt, path)?)?;
    Package::create(rt.alloc(), PackageType::Installer, device)?;
    Ok(())
}

/// Looks at the package of a file. Each of its parts has to be had, as when it is opened.
pub(crate) fn look(rt: &HostRuntime, path: &str) -> Result<View<Metered<Readable<File>>>, Error> {
    let mut view = msi_view::open(rt, path)?;
    view.package_type()?;
    view.summary_info()?;
    view.load_tables()?;
    Ok(view)
}
