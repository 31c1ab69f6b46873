//! Reading the pieces that a stream is, one behind the other.

ghost use Rattle.std.specs.Prelude.{◌≡◌, ℕ, List, ◌+◌, ◌-◌, ◌≤◌, ◌^◌, ◌⊎◌, min, IfErr, IfOk, OnErr, OnOk};
ghost use Rattle.std.specs.Io.KnownBytes.{Appends};
ghost use Rattle.msi_base.specs.Faults.{AppendsPart};
ghost use Rattle.msi_base.specs.declared.errors.ErrorKind.TheVariants.{Io, OutOfMemory};
ghost use Rattle.msi_container_device.specs.Held.{bytes_told};
ghost use Rattle.msi_container_view.specs.Extents.{bytes_of, size_of};
ghost use Rattle.msi_container_view.specs.Reading.{IsReadRefusal, Tells};

use crate::counted::Counted;
use crate::extents::Extent;
use msi_base::Error;
use msi_base::parts::write_fully;
use msi_container_device::Seekable;
use std::alloc::Global;
use std::io::Write;

/// Returns how many bytes these pieces have, or the greatest number if they have more.
pub fn byte_count(extents: &[Extent]) -> u64
    ensures { result ≡ min (size_of extents.now) (2 ^ 64 - 1) }
{
    let mut total: u64 = 0;
    for extent in extents {
        total = total.saturating_add(extent.count);
    }
    total
}

/// Returns the bytes of the pieces, in one vector.
pub(crate) fn read_extents<S: Seekable>(
    alloc: Global,
    reading: &mut Counted<S>,
    extents: &[Extent],
) -> Result<Vec<u8>, Error>
    ensures ok { IfOk result (λ bytes. (file : List ℕ) → Tells reading.old.held file
        → bytes.items ≡ bytes_of file extents.now) }
    ensures told { bytes_told reading.new.held ≡ bytes_told reading.old.held }
    ensures count { reading.new.bytes_read ≤ reading.old.bytes_read + size_of extents.now }
    ensures kinds { IfErr result (IsReadRefusal S.can_fail) }
{
    let mut bytes = Vec::with_capacity(alloc, byte_count(extents) as usize)?;
    for extent in extents {
        reading.append(&mut bytes, extent.start, extent.count as usize)?;
    }
    Ok(bytes)
}

/// Writes the bytes of the pieces to a writer, one piece after the other.
pub(crate) fn copy_extents<S: Seekable, W: Write>(
    alloc: Global,
    reading: &mut Counted<S>,
    extents: &[Extent],
    to: &mut W,
) -> Result<(), Error>
    ensures ok { OnOk result ((file : List ℕ) → Tells reading.old.held file
        → Appends (W.contents to.old) (W.contents to.new) (bytes_of file extents.now)) }
    ensures part { OnErr result ((file : List ℕ) → Tells reading.old.held file
        → AppendsPart (W.contents to.old) (W.contents to.new) (bytes_of file extents.now)) }
    ensures told { bytes_told reading.new.held ≡ bytes_told reading.old.held }
    ensures count { reading.new.bytes_read ≤ reading.old.bytes_read + size_of extents.now }
    ensures kinds { IfErr result (λ kind. (kind ≡ Io) ⊎ (kind ≡ OutOfMemory)) }
{
    let mut held: Vec<u8> = Vec::new(alloc);
    for extent in extents {
        held.clear();
        reading.append(&mut held, extent.start, extent.count as usize)?;
        write_fully(to, held.as_slice())?;
    }
    Ok(())
}
