//! Times.

ghost use Rattle.std.specs.Prelude.{◌≡◌, ◌⊎◌, ◌<◌, pos, ◌+ℤ◌, ◌*ℤ◌, int_div, length, IfSome, IfOk, IfErr, OnErr, OnOk};
ghost use Rattle.std.specs.Int.{w64, saturate_unsigned};
ghost use Rattle.std.specs.Io.KnownBytes.{Appends};
ghost use Rattle.msi_base.specs.Faults.{AppendsPart, HasFewer};
ghost use Rattle.msi_categories.specs.Times.{epoch, ticks_of_unix, unix_of_ticks, stored_moment, ReadsMoment};
ghost use Rattle.msi_base.specs.declared.errors.ErrorKind.TheVariants.{InvalidData, Io, OutOfMemory};

use crate::reasons;
use msi_base::errors::Error;
use msi_base::parts::{read_exactly, write_fully};
use std::io::{Read, Write};
use std::marker::Model;

/// The ticks from the start of 1601 to that of 1970, the Unix epoch.
const UNIX_EPOCH: i128 = 116_444_736_000_000_000;

/// A time: a count of ticks, 100 ns each, since the start of 1601 (MS-DTYP 2.3.3, FILETIME). A contract sees the
/// count.
#[derive(Clone, Copy, PartialEq, Eq, PartialOrd, Ord, Hash, Debug, Drop)]
pub struct Timestamp {
    ticks: u64,
}

impl Model for Timestamp {
    ghost use Rattle.std.specs.Prelude.{ℕ};

    ghost Value = { ℕ };

    ghost view = { λ t. t.ticks };

    ghost inverse = { λ n. record { ticks = n } };
}

impl Timestamp {
    /// Returns the time of so many ticks.
    pub fn from_ticks(ticks: u64) -> Timestamp
        ensures { result ≡ ticks }
    {
        Timestamp { ticks }
    }

    /// Returns the ticks: 100 ns each, since the start of 1601.
    pub fn ticks(self) -> u64
        ensures { result ≡ self }
    {
        self.ticks
    }

    /// Returns the time so many seconds, and so many nanoseconds more, after the start of 1970 (the Unix epoch). What
    /// makes no whole tick is cut towards that epoch. A time before 1601 is tick 0, and one past the last tick is the
    /// last. `nanos` counts forward also before 1970, so -1 s and 999999950 ns lie 50 ns before it; a count of
    /// 1000000000 or more reaches into later seconds.
    pub fn from_unix(secs: i64, nanos: u32) -> Timestamp
        ensures { result ≡ ticks_of_unix secs nanos }
    {
        let ticks = unbounded_ticks(secs, nanos);
        Timestamp {
            ticks: saturated(ticks),
        }
    }

    /// Returns the whole seconds since the start of 1970 (the Unix epoch), rounded down and so below zero before it,
    /// and the nanoseconds above them, below 1000000000.
    pub fn to_unix(self) -> (i64, u32)
        ensures { result ≡ unix_of_ticks self }
    {
        let after = self.ticks as i128 - UNIX_EPOCH;
        let secs = after.div_euclid(10_000_000);
        let ticks = after.rem_euclid(10_000_000);
        (secs as i64, ticks as u32 * 100)
    }

    /// Reads a time: its ticks in 8 bytes, the lowest first (MS-DTYP 2.3.3).
    ///
    /// # Errors
    /// Fails with `InvalidData` if the bytes end early, and only then if contracts see the reader's bytes. If the
    /// reader fails, it fails with `OutOfMemory` or `Io`. No clause says that an early end is `InvalidData`, since
    /// none can tell it from a failure.
    pub fn read_from<R: Read>(reader: &mut R) -> Result<Timestamp, Error>
        ensures ok { IfOk result (λ moment. ReadsMoment (R.remaining reader.old) (R.remaining reader.new) moment) }
        ensures cut { IfErr result (λ kind. kind ≡ InvalidData → HasFewer (R.remaining reader.old) 8) }
        ensures kind { IfErr result (λ kind. (kind ≡ InvalidData) ⊎ ((kind ≡ Io) ⊎ (kind ≡ OutOfMemory))) }
    {
        let mut bytes = [0; 8];
        read_exactly(reader, &mut bytes, reasons::MOMENT_CUT)?;
        Ok(Timestamp {
            ticks: u64::from_le_bytes(bytes),
        })
    }

    /// Writes the time: its ticks in 8 bytes, the lowest first (MS-DTYP 2.3.3).
    ///
    /// # Errors
    /// If the writer fails, it fails with `OutOfMemory` or `Io`; the writer may then have taken a prefix of the
    /// bytes.
    pub fn write_to<W: Write>(self, writer: &mut W) -> Result<(), Error>
        ensures ok { OnOk result (Appends (W.contents writer.old) (W.contents writer.new) (stored_moment self)) }
        ensures part { OnErr result (AppendsPart (W.contents writer.old) (W.contents writer.new) (stored_moment self)) }
        ensures kind { IfErr result (λ kind. (kind ≡ Io) ⊎ (kind ≡ OutOfMemory)) }
    {
        write_fully(writer, &self.ticks.to_le_bytes())
    }
}

/// Returns the ticks from the start of 1601 to a time, which may be before it or past the last tick.
fn unbounded_ticks(secs: i64, nanos: u32) -> i128
    ensures { result ≡ pos epoch +ℤ int_div (secs *ℤ pos 1000000000 +ℤ pos nanos) (pos 100) }
{
    UNIX_EPOCH + (secs as i128 * 1_000_000_000 + nanos as i128) / 100
}

fn saturated(ticks: i128) -> u64
    ensures { result ≡ saturate_unsigned w64 ticks }
{
    ticks.clamp(0, u64::MAX as i128) as u64
}
