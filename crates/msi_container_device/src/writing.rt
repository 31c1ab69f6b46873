//! Writing a whole piece, however little a device takes at a time.

ghost use Rattle.std.specs.Prelude.{◌≡◌, ◌||◌, false, is_err, option_map, IfErr, IsOk, OnErr, OnOk};
ghost use Rattle.msi_container_device.specs.Held.{StandsInPart, with_piece};
ghost use Rattle.msi_base.specs.declared.errors.ErrorKind.TheVariants.{Io};

use crate::device::Device;
use crate::faults::fault;
use crate::reasons;
use msi_base::{Error, ErrorKind};

/// Writes the whole piece over the bytes from the position on and past the end, and moves behind it. If it fails, a
/// prefix of the piece may have been written.
///
/// # Errors
/// Fails with `Io` if a call of the device fails, or takes no byte of what is left; each sets its flag. An
/// interruption counts as a failure.
pub fn write_all<W: Device>(device: &mut W, piece: &[u8]) -> Result<(), Error>
    ensures ok { OnOk result (W.held device.new ≡ option_map (with_piece piece.now) (W.held device.old)) }
    ensures part { OnErr result (StandsInPart piece.now (W.held device.old) (W.held device.new)) }
    ensures failed { W.failed device.new ≡ (W.failed device.old || is_err result) }
    ensures faultless { W.writes_can_fail ≡ false → IsOk result }
    ensures kind { IfErr result (λ kind. kind ≡ Io) }
{
    let mut written = 0;
    while written < piece.len() {
        let count = device.write(&piece[written..]).map_err(fault)?;
        if count == 0 {
            return Err(Error::new(ErrorKind::Io, reasons::NOTHING_TAKEN));
        }
        written += count;
    }
    Ok(())
}
