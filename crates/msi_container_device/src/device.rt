//! What can be read and written.

ghost use Rattle.std.specs.Prelude.{◌≡◌, ◌≤◌, ◌||◌, Bool, false, length, take, option_map, is_err};
ghost use Rattle.std.specs.Prelude.{IfOk, IsOk, OnOk, OnErr};
ghost use Rattle.msi_container_device.specs.Faults.{is_write_fault};
ghost use Rattle.msi_container_device.specs.Held.{bytes_told, with_piece};

use crate::seekable::Seekable;
use std::io;

/// A source that can be written.
pub trait Device: Seekable {
    /// Whether `write` and `flush` can fail at all.
    ghost writes_can_fail: { Bool };

    /// Writes a prefix of the piece over the bytes from the position on and past the end, and moves behind it. It
    /// returns how many bytes it took; taking none of a piece that has some sets the flag, as a failed call does.
    ///
    /// # Errors
    /// Fails as the device does, also for an interruption.
    fn write(&mut self, piece: &[u8]) -> io::Result<usize>
        ensures count { IfOk result (λ n. n ≤ length piece.now) }
        ensures held { IfOk result
            (λ n. Self.held self.new ≡ option_map (with_piece (take n piece.now)) (Self.held self.old)) }
        ensures bytes { OnErr result (bytes_told (Self.held self.new) ≡ bytes_told (Self.held self.old)) }
        ensures failed { Self.failed self.new ≡ (Self.failed self.old || is_write_fault piece.now result) }
        ensures sound { writes_can_fail ≡ false → is_write_fault piece.now result ≡ false };

    /// Passes on what was written, if the device has buffered it: then nothing is pending.
    ///
    /// # Errors
    /// Fails as the device does.
    fn flush(&mut self) -> io::Result<()>
        ensures held { OnOk result (Self.held self.new ≡ Self.held self.old) }
        ensures bytes { bytes_told (Self.held self.new) ≡ bytes_told (Self.held self.old) }
        ensures failed { Self.failed self.new ≡ (Self.failed self.old || is_err result) }
        ensures handed_on { OnOk result (Self.pending self.new ≡ false) }
        ensures sound { writes_can_fail ≡ false → IsOk result };
}
