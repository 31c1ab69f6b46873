//! Opening packages in files.

ghost use Rattle.std.specs.Prelude.{◌≡◌, ◌⊎◌, Err, IfErr, IfOk, None, Ok};
ghost use Rattle.msi_base.specs.declared.errors.ErrorKind.TheVariants.{Io, OutOfMemory};
ghost use Rattle.msi.specs.Opening.{OpensSource};

use crate::package::Package;
use msi_base::errors::Error;
use msi_container_device::{Buffered, Metered};
use std::fs::{self, OpenOptions};
use std::io::{Read, Seek, Write};
use std::path::AsPath;
use std::rt::Files;

/// Opens the package in a file, for reading alone.
///
/// No contract sees what a file holds, so the clauses say only that there are bytes that mean this package. With the
/// bytes in memory, [`Package::open`] over a [`Memory`](crate::Memory) promises it of these bytes.
///
/// # Errors
/// Fails with `Io` if the path can't be opened, and otherwise as [`Package::open`] does.
pub fn open<R, P>(rt: &R, path: P) -> Result<Package<Metered<R::File>>, Error>
where
    R: Files + AllocGlobal,
    R::File: Read + Seek + Drop,
    P: AsPath,
    ensures ok { IfOk result (λ opened. OpensSource None (Ok opened.state)) }
    ensures kind { IfErr result (λ kind. (kind ≡ Io) ⊎ (kind ≡ OutOfMemory) ⊎ OpensSource None (Err kind)) }
{
    let file = fs::open(rt, path)?;
    Package::open(rt.alloc(), Metered::new(file))
}

/// Opens the package in a file, for reading and writing, behind a buffer. The file has to be there; `Package::create`
/// makes new ones. The clauses say as much as those of [`open`].
///
/// # Errors
/// Fails with `Io` if the path can't be opened, and otherwise as [`Package::open`] does.
pub fn open_rw<R, P>(rt: &R, path: P) -> Result<Package<Buffered<R::File>>, Error>
where
    R: Files + AllocGlobal,
    R::File: Read + Write + Seek + Drop,
    P: AsPath,
    ensures ok { IfOk result (λ opened. OpensSource None (Ok opened.state)) }
    ensures kind { IfErr result (λ kind. (kind ≡ Io) ⊎ (kind ≡ OutOfMemory) ⊎ OpensSource None (Err kind)) }
{
    let file = OpenOptions::new().read(true).write(true).open(rt, path)?;
    let device = Buffered::new(rt.alloc(), file)?;
    Package::open(rt.alloc(), device)
}
