//! What can be read, from the first byte on.

ghost use Rattle.std.specs.Prelude.{◌≡◌, ◌<◌, ◌≤◌, ◌||◌, Bool, [], false, length, take, Option, option_map, is_err};
ghost use Rattle.std.specs.Prelude.{IfOk, IfSome, IsOk, OnOk};
ghost use Rattle.msi_container_device.specs.Held.{Held, at_start, bytes_told, further};

use std::io;

/// A reader that can be rewound. Each call that fails sets its flag `failed`, and nothing else does; the flag stays
/// until it is cleared. A call that fails leaves the bytes as they were; its position is then unknown.
pub trait Source {
    /// The bytes, cut at the position, if contracts see them.
    ghost held: { Self → Option Held };

    /// Whether a call failed since the flag was last cleared.
    ghost failed: { Self → Bool };

    /// Whether bytes were written that the device has not passed on.
    ghost pending: { Self → Bool };

    /// Whether `rewind` and `read` can fail at all.
    ghost can_fail: { Bool };

    /// Returns whether a call failed since the flag was last cleared.
    fn failed(&self) -> bool
        ensures { result ≡ failed self.now };

    /// Clears the flag.
    fn clear_failed(&mut self)
        ensures cleared { failed self.new ≡ false }
        ensures held { held self.new ≡ held self.old }
        ensures pending { pending self.new ≡ pending self.old };

    /// Goes to the first byte.
    ///
    /// # Errors
    /// Fails as the reader does.
    fn rewind(&mut self) -> io::Result<()>
        ensures held { OnOk result (held self.new ≡ option_map at_start (held self.old)) }
        ensures bytes { bytes_told (held self.new) ≡ bytes_told (held self.old) }
        ensures failed { failed self.new ≡ (failed self.old || is_err result) }
        ensures pending { pending self.new ≡ pending self.old }
        ensures sound { can_fail ≡ false → IsOk result };

    /// Reads bytes from the position on into the front of the buffer, and moves behind them. It returns how many,
    /// which may be fewer than there are and than the buffer has room for: 0 only at the end, or if the buffer is
    /// empty.
    ///
    /// # Errors
    /// Fails as the reader does, also for an interruption.
    fn read(&mut self, buf: &mut [u8]) -> io::Result<usize>
        ensures count { IfOk result (λ n. n ≤ length buf.old) }
        ensures read { IfOk result (λ n. IfSome (held self.old) (λ h. take n buf.new ≡ take n h.ahead)) }
        ensures end { IfOk result (λ n. n ≡ 0 → 0 < length buf.old → IfSome (held self.old) (λ h. h.ahead ≡ [])) }
        ensures held { IfOk result (λ n. held self.new ≡ option_map (further n) (held self.old)) }
        ensures bytes { bytes_told (held self.new) ≡ bytes_told (held self.old) }
        ensures failed { failed self.new ≡ (failed self.old || is_err result) }
        ensures pending { pending self.new ≡ pending self.old }
        ensures sound { can_fail ≡ false → IsOk result };
}
