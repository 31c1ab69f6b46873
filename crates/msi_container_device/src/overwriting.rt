//! What comes before and after writing over all that a device holds.

ghost use Rattle.std.specs.Prelude.{◌≡◌, ◌||◌, IfErr, IfOk, IfSome, OnOk, false, is_err, length, option_map};
ghost use Rattle.msi_container_device.specs.Faults.{is_io};
ghost use Rattle.msi_container_device.specs.Held.{at_start, bytes_told};
ghost use Rattle.msi_base.specs.declared.errors.ErrorKind.TheVariants.{Io};

use crate::device::Device;
use crate::faults::fault;
use msi_base::Error;

/// Clears a device's flag, goes to its first byte, and returns how many bytes there are.
///
/// # Errors
/// Fails with `Io` if a call of the device fails, which sets its flag.
pub fn go_to_start<F: Device>(device: &mut F) -> Result<u64, Error>
    ensures count { IfOk result (λ n. IfSome (bytes_told (F.held device.old)) (λ bytes. n ≡ length bytes)) }
    ensures held { OnOk result (F.held device.new ≡ option_map at_start (F.held device.old)) }
    ensures bytes { bytes_told (F.held device.new) ≡ bytes_told (F.held device.old) }
    ensures failed { F.failed device.new ≡ is_err result }
    ensures faultless { F.can_fail ≡ false → F.writes_can_fail ≡ false → is_io result ≡ false }
    ensures kind { IfErr result (λ kind. kind ≡ Io) }
{
    device.clear_failed();
    let count = device.length().map_err(fault)?;
    device.rewind().map_err(fault)?;
    Ok(count)
}

/// Hands on what was written to a device, so that nothing is pending.
///
/// # Errors
/// Fails with `Io` if the call of the device fails, which sets its flag.
pub fn hand_on<F: Device>(device: &mut F) -> Result<(), Error>
    ensures bytes { bytes_told (F.held device.new) ≡ bytes_told (F.held device.old) }
    ensures failed { F.failed device.new ≡ (F.failed device.old || is_err result) }
    ensures handed_on { OnOk result (F.pending device.new ≡ false) }
    ensures faultless { F.writes_can_fail ≡ false → is_io result ≡ false }
    ensures kind { IfErr result (λ kind. kind ≡ Io) }
{
    device.flush().map_err(fault)
}
