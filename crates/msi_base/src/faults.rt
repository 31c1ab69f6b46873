//! Reading and writing a known number of bytes, with the failures of readers and writers as errors of the six kinds.

ghost use Rattle.std.specs.Prelude.{◌≡◌, ◌⊎◌, ◌<◌, IfErr, IfSome, OnErr, OnOk, length};
ghost use Rattle.std.specs.Io.KnownBytes.{Appends, Consumes};
ghost use Rattle.msi_base.specs.Faults.{AppendsPart, HasFewer};
ghost use Rattle.msi_base.specs.declared.errors.ErrorKind.TheVariants.{InvalidData, Io, OutOfMemory};

use crate::errors::{Error, ErrorKind, Reason};
use crate::reasons;
use std::io::{self, Read, Write};

/// Reads as many bytes as the buffer has.
///
/// # Errors
/// Fails with `InvalidData`, for this reason, if the reader ends before, and only then if contracts see its bytes. If
/// the reader fails, it fails with `OutOfMemory` or `Io`. No clause says that an early end is `InvalidData`, since
/// none can tell it from a failure.
pub fn read_exactly<R: Read>(reader: &mut R, bytes: &mut [u8], cut: Reason) -> Result<(), Error>
    ensures ok { OnOk result (Consumes (R.remaining reader.old) (R.remaining reader.new) bytes.new) }
    ensures cut { IfErr result (λ kind. kind ≡ InvalidData → HasFewer (R.remaining reader.old) (length bytes.old)) }
    ensures kind { IfErr result (λ kind. (kind ≡ InvalidData) ⊎ ((kind ≡ Io) ⊎ (kind ≡ OutOfMemory))) }
{
    // Not `read_exact`: it tells an early end as `UnexpectedEof`, which a reader's own fault may be too. The bound is
    // there for a reader that is interrupted forever.
    let mut at = 0;
    'reads: for _ in 0..u64::MAX {
        if at == bytes.len() {
            return Ok(());
        }
        match reader.read(&mut bytes[at..]) {
            Ok(0) => return Err(Error::new(ErrorKind::InvalidData, cut)),
            Ok(n) => at += n,
            Err(error) => match error.kind() {
                io::ErrorKind::Interrupted => {}
                _ => return Err(Error::from(error)),
            },
        }
    }
    Err(Error::new(ErrorKind::Io, reasons::DEVICE))
}

/// Writes all of the bytes.
///
/// # Errors
/// Fails with `OutOfMemory` or `Io` if the writer fails or takes no more. It may then have taken a prefix of the
/// bytes.
pub fn write_fully<W: Write>(writer: &mut W, bytes: &[u8]) -> Result<(), Error>
    ensures ok { OnOk result (Appends (W.contents writer.old) (W.contents writer.new) bytes.now) }
    ensures part { OnErr result (AppendsPart (W.contents writer.old) (W.contents writer.new) bytes.now) }
    ensures kind { IfErr result (λ kind. (kind ≡ Io) ⊎ (kind ≡ OutOfMemory)) }
{
    // Not `write_all`: its contract doesn't tell what the writer has after an error.
    let mut at = 0;
    'writes: for _ in 0..u64::MAX {
        if at == bytes.len() {
            return Ok(());
        }
        match writer.write(&bytes[at..]) {
            Ok(0) => return Err(Error::new(ErrorKind::Io, reasons::DEVICE)),
            Ok(n) => at += n,
            Err(error) => match error.kind() {
                io::ErrorKind::Interrupted => {}
                _ => return Err(Error::from(error)),
            },
        }
    }
    Err(Error::new(ErrorKind::Io, reasons::DEVICE))
}
