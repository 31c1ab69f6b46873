//! Looking at packages in files.

ghost use Rattle.std.specs.Prelude.{◌≡◌, ◌⊎◌, IfErr};
ghost use Rattle.msi_base.specs.declared.errors.ErrorKind.TheVariants.{InvalidData, Io, OutOfMemory};

use crate::readable::Readable;
use crate::view::View;
use msi::Metered;
use msi_base::Error;
use std::fs;
use std::io::{Read, Seek};
use std::path::AsPath;
use std::rt::Files;

/// Looks at the package in a file. One that can't be read from any place on, as a pipe, is read to its end first. No
/// contract sees what a file holds.
///
/// # Errors
/// Fails with `Io` if the path can't be opened or such a file can't be read, and otherwise as [`View::open`] does.
pub fn open<R, P>(rt: &R, path: P) -> Result<View<Metered<Readable<R::File>>>, Error>
where
    R: Files + AllocGlobal,
    R::File: Read + Seek + Drop,
    P: AsPath,
    ensures kind { IfErr result (λ kind. (kind ≡ InvalidData) ⊎ (kind ≡ Io) ⊎ (kind ≡ OutOfMemory)) }
{
    let file = fs::open(rt, path)?;
    let file = Readable::of(rt.alloc(), file)?;
    View::open(rt.alloc(), Metered::new(file))
}
