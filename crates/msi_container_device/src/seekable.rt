//! What can be read from any place on.

ghost use Rattle.std.specs.Prelude.{◌≡◌, ◌||◌, false, length, option_map, is_err};
ghost use Rattle.std.specs.Prelude.{IfOk, IfSome, IsOk, OnOk};
ghost use Rattle.msi_container_device.specs.Held.{all_bytes, at_end, at_place, bytes_told};

use crate::source::Source;
use std::io;

/// A source that can be read from any place on.
pub trait Seekable: Source {
    /// Goes to the end, and returns how many bytes there are.
    ///
    /// # Errors
    /// Fails as the reader does.
    fn length(&mut self) -> io::Result<u64>
        ensures count { IfOk result (λ n. IfSome (Self.held self.old) (λ h. n ≡ length (all_bytes h))) }
        ensures held { OnOk result (Self.held self.new ≡ option_map at_end (Self.held self.old)) }
        ensures bytes { bytes_told (Self.held self.new) ≡ bytes_told (Self.held self.old) }
        ensures failed { Self.failed self.new ≡ (Self.failed self.old || is_err result) }
        ensures pending { Self.pending self.new ≡ Self.pending self.old }
        ensures sound { Self.can_fail ≡ false → IsOk result };

    /// Goes to a place, counted in bytes from the first; one past the end is the end.
    ///
    /// # Errors
    /// Fails as the reader does.
    fn seek_to(&mut self, place: u64) -> io::Result<()>
        ensures held { OnOk result (Self.held self.new ≡ option_map (at_place place) (Self.held self.old)) }
        ensures bytes { bytes_told (Self.held self.new) ≡ bytes_told (Self.held self.old) }
        ensures failed { Self.failed self.new ≡ (Self.failed self.old || is_err result) }
        ensures pending { Self.pending self.new ≡ Self.pending self.old }
        ensures sound { Self.can_fail ≡ false → IsOk result };
}
