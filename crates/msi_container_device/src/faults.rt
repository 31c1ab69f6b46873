//! Failures of a source or a device as errors.

ghost use Rattle.std.specs.Prelude.{◌≡◌};
ghost use Rattle.msi_base.specs.declared.errors.ErrorKind.TheVariants.{Io};

use crate::reasons;
use msi_base::{Error, ErrorKind};
use std::io;

/// Returns the error that a failed call of a source or a device becomes: `Io`, also if `std` reports that memory ran
/// out, since that is the device's.
pub fn fault(_error: io::Error) -> Error
    ensures { result ≡ Io }
{
    Error::new(ErrorKind::Io, reasons::FAULT)
}
