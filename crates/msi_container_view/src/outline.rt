//! Looking at a container: from its header to where its streams lie.

ghost use Rattle.std.specs.Prelude.{◌≡◌, ℕ, List, ◌+◌, ◌^◌, ◌<◌, ◌≤◌, ◌↔◌, ◌++◌, [], vec_len, length};
ghost use Rattle.std.specs.Prelude.{IfOk, IsErrOf};
ghost use Rattle.std.specs.FinMap.{from_entries};
ghost use Rattle.msi_base.specs.declared.errors.ErrorKind.TheVariants.{InvalidData};
ghost use Rattle.msi_container_device.specs.Held.{bytes_told};
ghost use Rattle.msi_container_format.specs.declared.contents.Contents as held;
ghost use Rattle.msi_container_format.specs.Chains.{AreBelow};
ghost use Rattle.msi_container_format.specs.Container as container;
ghost use Rattle.msi_container_format.specs.Container.{Holds, IsPlan, IsSector, Plan};
ghost use Rattle.msi_container_format.specs.Format as marks;
ghost use Rattle.msi_container_tables.specs.Outcomes.{FailsByData};
ghost use Rattle.msi_container_tables.specs.Reading.{AreChained, HaveNamesApart, IsStart};
ghost use Rattle.msi_container_view.specs.Copied.{AreCopied, HasHeaderOf};
ghost use Rattle.msi_container_view.specs.Reading.{Answers, Tells};
ghost use Rattle.msi_container_view.specs.Tables.{IsCopy, ReadsOn, StandAt};
ghost use Rattle.msi_container_view.specs.Views.{streams_in, tables_size};

use crate::listing::{look_chains, look_entries};
use crate::located::{Located, locate};
use crate::looking::{MiniTables, look_difat, look_directory, look_fat, look_mini};
use crate::tables::{Copied, Tables};
use msi_base::Error;
use msi_container_device::Seekable;
use msi_container_tables::{Claimed, Claims, Directory, Entries};
use std::alloc::Global;

/// The sectors of the DIFAT, the FAT and the directory.
#[derive(Drop)]
pub(crate) struct Start {
    pub(crate) difat: Vec<u32>,
    pub(crate) fat: Copied,
    pub(crate) directory: Copied,
}

/// What a root's directory says, and where its streams lie.
#[derive(Drop)]
pub(crate) struct Outline {
    pub(crate) clsid: [u8; 16],
    pub(crate) has_storages: bool,
    pub(crate) streams: Located,
}

/// The tables up to the directory, behind a header that was read.
fn look_start<S: Seekable + Drop>(
    alloc: Global,
    tables: &mut Tables<S>,
    claims: &mut Claims,
) -> Result<Start, Error>
    requires copied { IsCopy tables.old }
    requires one { length tables.old.copy ≡ container.sector_size tables.old.copy }
    requires headed { (file : List ℕ) → Tells tables.old.held file → container.IsHeader file }
    requires empty { claims.old.list.items ≡ [] }
    requires regular { vec_len claims.old.marks ≤ marks.MAX_REGULAR_SECTOR + 1 }
    ensures answer { Answers S.can_fail tables.old.held
        (λ file start. IsStart file (vec_len claims.old.marks) start.difat.items start.fat.sectors.items
        start.directory.sectors.items)
        (λ file. (difat fat directory : List ℕ) → IsStart file (vec_len claims.old.marks) difat fat directory → ⊥)
        result }
    ensures reads { IfOk result (λ start. ReadsOn tables.old tables.new
        (vec_len start.difat + vec_len start.fat.sectors + vec_len start.directory.sectors)) }
    ensures fat { IfOk result
        (λ start. StandAt tables.old.held tables.new.copy start.fat.sectors.items start.fat.places.items) }
    ensures directory { IfOk result (λ start. StandAt tables.old.held tables.new.copy
        start.directory.sectors.items start.directory.places.items) }
    ensures some { IfOk result (λ start. 0 < vec_len start.directory.sectors) }
    ensures claimed { IfOk result (λ start. claims.new.list.items
        ≡ start.difat.items ++ start.fat.sectors.items ++ start.directory.sectors.items) }
    ensures limit { vec_len claims.new.marks ≡ vec_len claims.old.marks }
{
    let difat = look_difat(alloc, tables, claims)?;
    let fat = look_fat(alloc, tables, &difat, claims)?;
    let directory = look_directory(alloc, tables, &fat, claims)?;
    Ok(Start {
        difat: difat.sectors,
        fat,
        directory,
    })
}

/// Locates the root's streams by tables that were copied. Fails with `InvalidData` where a stream has too few members
/// or shares one, a name isn't well formed, or two storages or streams share one.
fn look_streams(
    alloc: Global,
    copy: &[u8],
    start: &Start,
    entries: &Entries,
    mini: &MiniTables,
    claims: Claims,
) -> Result<Located, Error>
    requires storages { AreBelow (container.entry_count copy.now start.now.directory.places.items)
        entries.now.storages.items }
    requires below { AreBelow (container.entry_count copy.now start.now.directory.places.items)
        entries.now.streams.items }
    requires fat_few { vec_len start.now.fat.places ≤ 2 ^ 32 }
    requires few { vec_len start.now.directory.places ≤ 2 ^ 32 }
    requires mini_few { vec_len mini.now.mini.fat + vec_len mini.now.mini.stream < 2 ^ 32 }
    requires regular { vec_len claims.marks ≤ marks.MAX_REGULAR_SECTOR + 1 }
    ensures found { IfOk result
        (λ located. (file : List ℕ) → HasHeaderOf file copy.now
        → AreCopied file copy.now start.now.fat.sectors.items start.now.fat.places.items
        → AreCopied file copy.now start.now.directory.sectors.items start.now.directory.places.items
        → AreCopied file copy.now mini.now.sectors.items mini.now.mini.fat.items
        → (chains : List (List ℕ))
        × AreChained file start.now.fat.sectors.items mini.now.sectors.items start.now.directory.sectors.items
        mini.now.mini.stream.items (vec_len claims.marks) claims.list.items entries.now.streams.items chains
        × HaveNamesApart file start.now.directory.sectors.items entries.now.storages.items entries.now.streams.items
        × (streams_in file located ≡ from_entries (container.named_bytes file mini.now.mini.stream.items
        start.now.directory.sectors.items entries.now.streams.items chains))) }
    ensures broken { IsErrOf result InvalidData → (file : List ℕ) → HasHeaderOf file copy.now
        → AreCopied file copy.now start.now.fat.sectors.items start.now.fat.places.items
        → AreCopied file copy.now start.now.directory.sectors.items start.now.directory.places.items
        → AreCopied file copy.now mini.now.sectors.items mini.now.mini.fat.items
        → (chains : List (List ℕ))
        → AreChained file start.now.fat.sectors.items mini.now.sectors.items start.now.directory.sectors.items
        mini.now.mini.stream.items (vec_len claims.marks) claims.list.items entries.now.streams.items chains
        → HaveNamesApart file start.now.directory.sectors.items entries.now.storages.items entries.now.streams.items
        → ⊥ }
    ensures kinds { FailsByData result }
{
    let chains = look_chains(
        alloc,
        copy,
        &start.fat,
        &start.directory,
        mini,
        entries.streams.as_slice(),
        claims,
    )?;
    locate(
        alloc,
        copy,
        &start.directory,
        mini.mini.stream.as_slice(),
        entries,
        chains.as_slice(),
    )
}

/// The root of a container behind a header that was read, in a file of which so many sectors can be used.
pub(crate) fn look_outline<S: Seekable + Drop>(
    alloc: Global,
    tables: &mut Tables<S>,
    limit: usize,
) -> Result<Outline, Error>
    requires copied { IsCopy tables.old }
    requires one { length tables.old.copy ≡ container.sector_size tables.old.copy }
    requires headed { (file : List ℕ) → Tells tables.old.held file → container.IsHeader file }
    requires limits { (file : List ℕ) → Tells tables.old.held file → (n : ℕ) → n < limit ↔ IsSector file n }
    requires regular { limit ≤ marks.MAX_REGULAR_SECTOR + 1 }
    ensures answer { Answers S.can_fail tables.old.held
        (λ file outline. (plan : Plan) × IsPlan file plan
        × (outline.clsid ≡ container.clsid file plan.directory)
        × (outline.has_storages ≡ (container.contents_of file plan).has_storages)
        × (streams_in file outline.streams ≡ (container.contents_of file plan).streams)
        × (tables.new.bytes_read ≤ tables_size file plan))
        (λ file. (contents : held.Contents) → Holds file contents → ⊥) result }
    ensures told { IfOk result (λ _. bytes_told tables.new.held ≡ bytes_told tables.old.held) }
{
    let mut claims = Claims::new(alloc, Claimed::Sectors, limit)?;
    let start = look_start(alloc, tables, &mut claims)?;
    let entries = look_entries(alloc, tables.copy(), &start.directory)?;
    let mini = look_mini(alloc, tables, &start.fat, &start.directory, &mut claims)?;
    let copy = tables.copy();
    let streams = look_streams(alloc, copy, &start, &entries, &mini, claims)?;
    let clsid = Directory::new(copy, start.directory.places.as_slice()).clsid(0);
    Ok(Outline {
        clsid,
        has_storages: entries.has_storages,
        streams,
    })
}
