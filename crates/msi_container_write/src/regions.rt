//! Where the regions of a file start.

ghost use Rattle.std.specs.Prelude.{◌≡◌, ◌+◌, ◌<◌, ◌≤◌, ◌^◌};
ghost use Rattle.msi_container_write.specs.Image as image;
ghost use Rattle.msi_container_write.specs.Index.{streams_of};
ghost use Rattle.msi_container_write.specs.Layout as spec;
ghost use Rattle.msi_container_write.specs.Regions.{AreRegions};

use crate::index::Place;
use crate::totals::{
    difat_sectors, directory_sectors, fat_sectors, mini_fat_sectors, mini_stream_sectors,
};
use std::marker::Model;

/// The first sector of each region behind the directory, which starts at sector 0.
#[derive(Clone, Copy)]
pub(crate) struct Regions {
    pub(crate) mini_fat: usize,
    pub(crate) mini_stream: usize,
    pub(crate) large: usize,
    pub(crate) fat: usize,
}

pub(crate) fn regions_of(places: &[Place], mini_sectors: usize, taken: usize) -> Regions
    requires few { spec.taken_by (streams_of places.now) < 2 ^ 22 }
    requires counted { mini_sectors ≡ spec.mini_sectors (streams_of places.now) }
    requires taken { taken ≡ spec.taken_by (streams_of places.now) }
    ensures { AreRegions (streams_of places.now) result }
{
    let mini_fat = directory_sectors(places.len());
    let mini_stream = mini_fat + mini_fat_sectors(mini_sectors);
    Regions {
        mini_fat,
        mini_stream,
        large: mini_stream + mini_stream_sectors(mini_sectors),
        fat: taken,
    }
}

/// Sectors in a row.
#[derive(Clone, Copy)]
pub(crate) struct Run {
    pub(crate) first: u32,
    pub(crate) count: u32,
}

impl Model for Run {
    ghost use Rattle.msi_container_write.specs.Image as spec;

    ghost Value = { spec.Run };

    ghost view = { λ r. record { first = r.first; count = r.count } };

    ghost inverse = { λ r. record { first = r.first; count = r.count } };
}

pub(crate) fn mini_fat_run(places: &[Place], mini_sectors: usize) -> Run
    requires counted { mini_sectors ≡ spec.mini_sectors (streams_of places.now) }
    requires few { spec.taken_by (streams_of places.now) < 2 ^ 22 }
    ensures { result ≡ spec.mini_fat_run (streams_of places.now) }
{
    Run {
        first: directory_sectors(places.len()) as u32,
        count: mini_fat_sectors(mini_sectors) as u32,
    }
}

pub(crate) fn fat_run(taken: usize, total: usize) -> Run
    requires room { taken + image.fat_sectors total ≤ total }
    requires most { total < 2 ^ 22 }
    ensures first { result.first ≡ taken }
    ensures count { result.count ≡ image.fat_sectors total }
{
    Run {
        first: taken as u32,
        count: fat_sectors(total) as u32,
    }
}

pub(crate) fn difat_run(taken: usize, total: usize) -> Run
    requires room { taken + image.fat_sectors total + image.difat_sectors total ≤ total }
    requires most { total < 2 ^ 22 }
    ensures { result ≡ image.difat_run taken total }
{
    Run {
        first: (taken + fat_sectors(total)) as u32,
        count: difat_sectors(total) as u32,
    }
}
