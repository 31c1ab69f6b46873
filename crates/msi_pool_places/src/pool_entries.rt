//! The entries of the pool's stream, of which each tells of a place.

ghost use Rattle.std.specs.Prelude.{◌≡◌};
ghost use Rattle.msi_base.specs.Results.{Gives};
ghost use Rattle.msi_pool_places.specs.PoolReading.{entry_at};

use crate::reasons;
use msi_base::errors::Error;
use msi_base::fields::{u16_at, u32_at};
use std::marker::Model;

/// An entry of the pool's stream: how many bytes its text has in the data stream, and how many cells name the place.
#[derive(Drop)]
pub struct Entry {
    len: u32,
    count: u16,
}

impl Model for Entry {
    ghost use Rattle.msi_pool_places.specs.Pool as pools;

    ghost Value = { pools.Entry };

    ghost view = { λ e. record { len = e.len; count = e.count } };
}

impl Entry {
    /// Returns an entry of a text of so many bytes, whose place so many cells name.
    pub fn new(len: u32, count: u16) -> Entry
        ensures { result ≡ record { len = len; count = count } }
    {
        Entry { len, count }
    }

    /// Returns how many bytes the text has.
    pub fn len(&self) -> u32
        ensures { result ≡ self.now.len }
    {
        self.len
    }

    /// Returns how many cells name the place.
    pub fn count(&self) -> u16
        ensures { result ≡ self.now.count }
    {
        self.count
    }
}

/// Returns the entry in front, and the bytes after it.
///
/// # Errors
/// Fails with `InvalidData` if the entry is cut.
#[tactic(auto, unfolding(crate::specs::PoolReading::entry_at))]
pub fn entry_of(bytes: &[u8]) -> Result<(Entry, &[u8]), Error>
    ensures { Gives (λ x. (x.0, x.1.now)) result (entry_at bytes.now) }
{
    let (short, rest) = u16_at(bytes, reasons::POOL_CUT)?;
    let (count, rest) = u16_at(rest, reasons::POOL_CUT)?;
    if short > 0 || count == 0 {
        let len = short as u32;
        return Ok((Entry { len, count }, rest));
    }
    let (len, rest) = u32_at(rest, reasons::POOL_CUT)?;
    Ok((Entry { len, count }, rest))
}
