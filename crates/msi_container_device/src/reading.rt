//! Reading all that a source holds.

ghost use Rattle.std.specs.Prelude.{◌≡◌, ◌⊎◌, ◌||◌, false, option_map, IfErr, IfOk, IfSome, OnOk};
ghost use Rattle.msi_container_device.specs.Faults.{is_io};
ghost use Rattle.msi_container_device.specs.Held.{all_bytes, at_end, bytes_told};
ghost use Rattle.msi_base.specs.declared.errors.ErrorKind.TheVariants.{Io, OutOfMemory};

use crate::faults::fault;
use crate::source::Source;
use msi_base::Error;
use std::alloc::Global;

/// How many bytes are asked for in a read: 64 KiB. With that many the calls take little time beside the bytes.
const CHUNK_LEN: usize = 64 * 1024;

/// Returns all bytes that a source holds, from the first to the end, in one vector.
///
/// # Errors
/// Fails with `Io` if a call of the source fails, which sets its flag; an interruption counts as a failure. Otherwise
/// it fails with `OutOfMemory`.
pub fn read_all<S: Source>(alloc: Global, source: &mut S) -> Result<Vec<u8>, Error>
    ensures ok { IfOk result (λ read. IfSome (S.held source.old) (λ h. read.items ≡ all_bytes h)) }
    ensures held { OnOk result (S.held source.new ≡ option_map at_end (S.held source.old)) }
    ensures bytes { bytes_told (S.held source.new) ≡ bytes_told (S.held source.old) }
    ensures failed { S.failed source.new ≡ (S.failed source.old || is_io result) }
    ensures faultless { S.can_fail ≡ false → is_io result ≡ false }
    ensures pending { S.pending source.new ≡ S.pending source.old }
    ensures kinds { IfErr result (λ kind. (kind ≡ Io) ⊎ (kind ≡ OutOfMemory)) }
{
    source.rewind().map_err(fault)?;
    let mut bytes = Vec::new(alloc);
    let mut chunk = [0; CHUNK_LEN];
    loop {
        let count = source.read(&mut chunk).map_err(fault)?;
        if count == 0 {
            return Ok(bytes);
        }
        bytes.extend_from_slice(&chunk[..count])?;
    }
}
