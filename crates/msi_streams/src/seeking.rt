//! Where seeks go.

ghost use Rattle.std.specs.Prelude.{◌≡◌, IfOk, length, ◌≤◌};
ghost use Rattle.msi_streams.specs.Cursor.{sought};
ghost use Rattle.msi_streams.specs.Refusals.{told};

use crate::reasons;
use std::io;
use std::io::SeekFrom;

/// Fails with `InvalidInput` for a place before the first byte and for one past the end.
pub(crate) fn seek_place(bytes: &[u8], place: usize, to: SeekFrom) -> io::Result<u64>
    ensures place { told result ≡ (sought (record { bytes = bytes.now; place = place }) to).0 }
    ensures within { IfOk result (λ n. n ≤ length bytes.now) }
{
    let (base, offset) = match to {
        SeekFrom::Start(place) => (place, 0),
        SeekFrom::End(offset) => (bytes.len() as u64, offset),
        SeekFrom::Current(offset) => (place as u64, offset),
    };
    match base.checked_add_signed(offset) {
        Some(place) if place <= bytes.len() as u64 => Ok(place),
        _ => Err(io::Error::new(io::ErrorKind::InvalidInput, reasons::OUTSIDE)),
    }
}
