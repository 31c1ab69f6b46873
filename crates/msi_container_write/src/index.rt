//! Where each stream of a file lies: the only memory that writing takes.

ghost use Rattle.std.specs.Prelude.{◌≡◌, ◌<◌, ◌≤◌, ◌^◌, ◌*◌, drop, nat_le, IfOk};
ghost use Rattle.std.specs.FinMap as finite;
ghost use Rattle.msi_container_write.specs.Index.{IsIndex, placed, rest_from, streams_of};
ghost use Rattle.msi_container_write.specs.Layout as spec;
ghost use Rattle.msi_container_write.specs.LayoutLaw.{HaveNames};

use crate::extents::{large_part, mini_part, units};
use msi_container_format::contents::StreamMap;
use msi_container_format::format::{MINI_SECTOR_SIZE, SECTOR_SIZE_3};
use std::alloc::{AllocError, Global};
use std::marker::Model;

/// A stream, with how many sectors the large streams before it take, and how many mini sectors the small ones.
#[derive(Drop)]
pub(crate) struct Place<'a> {
    name: &'a [u16],
    bytes: &'a [u8],
    first: u32,
    first_mini: u32,
}

impl<'a> Model for Place<'a> {
    ghost use Rattle.msi_container_write.specs.Index as spec;

    ghost Value = { spec.Placed };

    ghost view = { λ p. record { stream = (p.name.now, p.bytes.now); first = p.first; first_mini = p.first_mini } };
}

impl<'a> Place<'a> {
    pub(crate) fn name(&self) -> &'a [u16]
        ensures { result.now ≡ self.now.stream.0 }
    {
        self.name
    }

    pub(crate) fn bytes(&self) -> &'a [u8]
        ensures { result.now ≡ self.now.stream.1 }
    {
        self.bytes
    }

    /// Returns how many sectors the large streams before it take.
    pub(crate) fn first(&self) -> u32
        ensures { result ≡ self.now.first }
    {
        self.first
    }

    /// Returns how many mini sectors the small streams before it take.
    pub(crate) fn first_mini(&self) -> u32
        ensures { result ≡ self.now.first_mini }
    {
        self.first_mini
    }
}

pub(crate) fn index<'a>(alloc: Global, streams: &'a StreamMap) -> Result<Vec<Place<'a>>, AllocError>
    requires few { spec.taken_by (finite.entries streams.now) < 2 ^ 22 }
    ensures indexed { IfOk result (λ places. places.items ≡ placed 0 0 (finite.entries streams.now)) }
    ensures names { IfOk result (λ _. HaveNames (finite.entries streams.now)) }
{
    let mut places = Vec::with_capacity(alloc, streams.len())?;
    let mut first = 0;
    let mut first_mini = 0;
    for (name, stream) in streams.iter() {
        let units_of_name = name.units();
        let bytes = stream.as_slice();
        places.push(Place {
            name: units_of_name,
            bytes,
            first,
            first_mini,
        })?;
        first += units(large_part(bytes), SECTOR_SIZE_3) as u32;
        first_mini += units(mini_part(bytes), MINI_SECTOR_SIZE) as u32;
    }
    Ok(places)
}

/// Returns the bytes from sector `m` of the large streams on, to the end of the stream that has it. Past the last
/// stream they are empty.
pub(crate) fn from_sector<'a>(places: &[Place<'a>], m: usize) -> &'a [u8]
    requires indexed { IsIndex places.now }
    requires few { m < 2 ^ 32 }
    ensures { result.now ≡ rest_from 512 (spec.large_parts (streams_of places.now)) m }
{
    let until = places.partition_point(
        |place: &Place| -> bool
            ensures { result ≡ nat_le place.now.first m }
        { place.first() as usize <= m },
    );
    if until == 0 {
        return &[];
    }
    let place = &places[until - 1];
    from_unit(
        large_part(place.bytes()),
        SECTOR_SIZE_3,
        m - place.first() as usize,
    )
}

/// Returns the bytes from mini sector `m` of the small streams on, to the end of the stream that has it. Past the last
/// stream they are empty.
pub(crate) fn from_mini_sector<'a>(places: &[Place<'a>], m: usize) -> &'a [u8]
    requires indexed { IsIndex places.now }
    requires few { m < 2 ^ 32 }
    ensures { result.now ≡ rest_from 64 (spec.mini_parts (streams_of places.now)) m }
{
    let until = places.partition_point(
        |place: &Place| -> bool
            ensures { result ≡ nat_le place.now.first_mini m }
        { place.first_mini() as usize <= m },
    );
    if until == 0 {
        return &[];
    }
    let place = &places[until - 1];
    from_unit(
        mini_part(place.bytes()),
        MINI_SECTOR_SIZE,
        m - place.first_mini() as usize,
    )
}

fn from_unit(part: &[u8], size: usize, k: usize) -> &[u8]
    requires most { size ≤ 512 }
    requires few { k < 2 ^ 32 }
    ensures { result.now ≡ drop (size * k) part.now }
{
    part.get(size * k..).unwrap_or(&[])
}
