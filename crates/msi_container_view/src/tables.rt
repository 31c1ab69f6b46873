//! The tables of a container over a source: its header and, behind it, copies of sectors, each read once.

ghost use Rattle.std.specs.Prelude.{◌≡◌, ◌+◌, ◌*◌, ◌<◌, ◌≤◌, ◌^◌, ◌∷◌, [], length};
ghost use Rattle.std.specs.Prelude.{IfErr, IfOk, OnOk};
ghost use Rattle.std.specs.List.{range_with_len};
ghost use Rattle.msi_base.specs.declared.errors.ErrorKind.TheVariants.{OutOfMemory};
ghost use Rattle.msi_container_device.specs.Held.{bytes_told};
ghost use Rattle.msi_container_format.specs.Container as container;
ghost use Rattle.msi_container_view.specs.Reading.{Answers, IsReadRefusal};
ghost use Rattle.msi_container_view.specs.Tables.{IsCopy, ReadsOn, StandAt};

use crate::counted::Counted;
use crate::extents::run_len;
use msi_base::Error;
use msi_container_device::{Seekable, Source};
use msi_container_tables::{check_header, sector_size};
use std::alloc::Global;
use std::marker::Model;

/// The header has that many bytes, in sectors of either size.
const HEADER_SIZE: usize = 512;

/// Sectors of a file, and the sectors of the copy in which they stand.
#[derive(Drop)]
pub(crate) struct Copied {
    pub(crate) sectors: Vec<u32>,
    pub(crate) places: Vec<u32>,
}

/// A source, and a copy of its header and of those of its sectors that were reached.
pub(crate) struct Tables<S: Source> {
    reading: Counted<S>,
    copy: Vec<u8>,
}

impl<S: Source + Drop> Drop for Tables<S> {
    fn drop(self) {
        let Tables {
            reading: _,
            copy: _,
        } = self;
    }
}

impl<S: Source> Model for Tables<S> {
    ghost use Rattle.msi_container_view.specs.Tables.{TablesRead};

    ghost Value = { TablesRead };

    ghost view = { λ t. record {
      held = t.reading.held;
      bytes_read = t.reading.bytes_read;
      copy = t.copy.items;
    } };
}

impl<S: Source> Tables<S> {
    /// Returns the copy: a file that has the header and some sectors.
    pub(crate) fn copy(&self) -> &[u8]
        ensures { result.now ≡ self.now.copy }
    {
        self.copy.as_slice()
    }

    pub(crate) fn into_reading(self) -> Counted<S>
        ensures held { result.held ≡ self.held }
        ensures count { result.bytes_read ≡ self.bytes_read }
    {
        let Tables { reading, copy: _ } = self;
        reading
    }
}

impl<S: Seekable + Drop> Tables<S> {
    /// Reads the header and checks it.
    pub(crate) fn open(alloc: Global, mut reading: Counted<S>) -> Result<Tables<S>, Error>
        requires { reading.bytes_read ≡ 0 }
        ensures answer { Answers S.can_fail reading.held (λ file _. container.IsHeader file)
            (λ file. container.IsHeader file → ⊥) result }
        ensures told { IfOk result (λ tables. bytes_told tables.held ≡ bytes_told reading.held) }
        ensures copied { IfOk result IsCopy }
        ensures one { IfOk result (λ tables. length tables.copy ≡ container.sector_size tables.copy) }
    {
        let mut copy = Vec::new(alloc);
        reading.append(&mut copy, 0, HEADER_SIZE)?;
        check_header(copy.as_slice())?;
        let size = sector_size(copy.as_slice());
        copy.resize(size, 0)?;
        Ok(Tables { reading, copy })
    }

    /// Reads these sectors behind the copy, those that follow one another at once, and returns where they stand.
    pub(crate) fn load(&mut self, alloc: Global, sectors: &[u32]) -> Result<Vec<u32>, Error>
        requires copied { IsCopy self.old }
        requires few { length self.old.copy + length sectors.now * container.sector_size self.old.copy
            ≤ 2 ^ 32 * container.sector_size self.old.copy }
        ensures reads { OnOk result (ReadsOn self.old self.new (length sectors.now)) }
        ensures stand { IfOk result
            (λ places. StandAt self.old.held self.new.copy sectors.now places.items) }
        ensures kinds { IfErr result (IsReadRefusal S.can_fail) }
    {
        let size = sector_size(self.copy.as_slice());
        let first = (self.copy.len() / size - 1) as u32;
        let mut at = 0;
        while at < sectors.len() {
            let run = run_len(&sectors[at..]);
            let place = (u64::from(sectors[at]) + 1) * size as u64;
            self.reading.append(&mut self.copy, place, run * size)?;
            at += run;
        }
        places_from(alloc, first, sectors.len())
    }

    /// Reads a sector behind the copy, and returns where it stands.
    pub(crate) fn load_one(&mut self, sector: u32) -> Result<u32, Error>
        requires copied { IsCopy self.old }
        requires few { length self.old.copy + container.sector_size self.old.copy
            ≤ 2 ^ 32 * container.sector_size self.old.copy }
        ensures reads { OnOk result (ReadsOn self.old self.new 1) }
        ensures stand { IfOk result (λ place. StandAt self.old.held self.new.copy (sector ∷ []) (place ∷ [])) }
        ensures kinds { IfErr result (IsReadRefusal S.can_fail) }
    {
        let size = sector_size(self.copy.as_slice());
        let place = (self.copy.len() / size - 1) as u32;
        let from = (u64::from(sector) + 1) * size as u64;
        self.reading.append(&mut self.copy, from, size)?;
        Ok(place)
    }
}

/// Lists so many numbers, from the first on.
fn places_from(alloc: Global, first: u32, count: usize) -> Result<Vec<u32>, Error>
    requires { first + count ≤ 2 ^ 32 }
    ensures ok { IfOk result (λ places. places.items ≡ range_with_len first count) }
    ensures kind { IfErr result (λ kind. kind ≡ OutOfMemory) }
{
    let mut places = Vec::with_capacity(alloc, count)?;
    for i in 0..count {
        places.push(first + i as u32)?;
    }
    Ok(places)
}
