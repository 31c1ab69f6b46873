//! Reading a compound file.

ghost use Rattle.std.specs.Prelude.{◌≡◌, ℕ, List, [], ◌+◌, ◌-◌, ◌<◌, ◌≤◌, ◌^◌, ◌++◌, vec_len, IfOk};
ghost use Rattle.std.specs.Prelude.{IfSome, OnOk, Some};
ghost use Rattle.msi_base.specs.Results.{IsUnlessMemory};
ghost use Rattle.std.specs.List.{AllZip};
ghost use Rattle.msi_container_format.specs.declared.contents.Contents as held;
ghost use Rattle.msi_container_format.specs.Chains.{AreBelow};
ghost use Rattle.msi_container_format.specs.Container as container;
ghost use Rattle.msi_container_format.specs.Format as marks;
ghost use Rattle.msi_container_format.specs.Trees.{members};
ghost use Rattle.msi_container_tables.specs.Outcomes.{ViewIsUnlessMemory, FailsByData, FailsByPath, IsNotFound};
ghost use Rattle.msi_container_tables.specs.Paths.{IsPath};
ghost use Rattle.msi_container_tables.specs.Reading.{IsStart, IsCovered, HaveNamesApart, storages_among, views};
ghost use Rattle.msi_container_read.specs.Outlines.{IsOutline};
ghost use Rattle.msi_container_read.specs.Steps as counted;
ghost use Rattle.msi_container_read.specs.Storages as storages;

use crate::streams::collect;
use msi_base::Error;
use msi_container_format::contents::Contents;
use msi_container_format::format::DIRECTORY_START_AT;
use msi_container_format::name::Name;
use msi_container_format::parts::number32;
use msi_container_tables::{
    AllocationTable, Claimed, Claims, Directory, Entries, Mini, Steps, check_header, find_storage,
    read_chains, read_difat, read_entries, read_fat, read_mini, sector_count, walk_to_end,
};
use std::alloc::Global;
use std::rc::Rc;

/// Returns the contents that the bytes hold, as a compound file of version 3 or 4 (MS-CFB 2).
///
/// It looks only at as many members of a chain as the size of its stream needs. A last sector that is cut reads as
/// followed by zeros. It doesn't descend into storages below the root; it only reports that there are some.
///
/// # Errors
/// Fails with `InvalidData` if the bytes hold none: a checked field of the header has another value; a chain ends
/// early; a sector lies outside the file, or a mini sector outside the mini stream; one is used twice; the
/// directory's tree is none, or one of its entries is neither storage nor stream, or has no well-formed name of its
/// own. Fails with `OutOfMemory`.
pub fn read(alloc: Global, bytes: &[u8]) -> Result<Contents, Error>
    ensures found { IfOk result (λ contents. container.Holds bytes.now contents) }
    ensures only { (contents : held.Contents) → container.Holds bytes.now contents → IsUnlessMemory result contents }
    ensures kinds { FailsByData result }
    ensures kept { IfOk result (λ contents. counted.bytes_kept contents ≤ counted.rounded_length bytes.now) }
{
    let mut steps = Steps::new();
    read_counted(alloc, bytes, &mut steps)
}

/// Returns the contents that the bytes hold, as `read` returns them, and counts from 0 on. Each successor that is
/// looked up takes a step, also if the call fails: at most one for each sector that starts inside the file, and one
/// for each mini sector in the mini stream's sectors. The streams have together no more bytes than the file, rounded
/// up to a whole sector.
///
/// # Errors
/// Fails as `read` does.
pub fn read_counted(alloc: Global, bytes: &[u8], steps: &mut Steps) -> Result<Contents, Error>
    ensures found { IfOk result (λ contents. container.Holds bytes.now contents) }
    ensures only { (contents : held.Contents) → container.Holds bytes.now contents → IsUnlessMemory result contents }
    ensures kinds { FailsByData result }
    ensures bounded { counted.IsWithinSectors bytes.now steps.new }
    ensures exact { OnOk result ((plan : container.Plan) → container.IsPlan bytes.now plan
        → steps.new ≡ counted.steps_of plan) }
    ensures kept { IfOk result (λ contents. counted.bytes_kept contents ≤ counted.rounded_length bytes.now) }
{
    read_root(alloc, bytes, None, steps)
}

/// Returns the contents that the bytes hold, as `read` returns them. It keeps the bytes: a stream of at least 4096
/// bytes that lies in them in one piece, in sectors that follow one another, is a part of them, and is not copied. All
/// other streams are copied. The bytes are given back to memory with the last stream that is a part of them.
///
/// # Errors
/// Fails as `read` does.
pub fn read_shared(alloc: Global, bytes: Rc<Vec<u8>>) -> Result<Contents, Error>
    ensures found { IfOk result (λ contents. container.Holds bytes.value.items contents) }
    ensures only { (contents : held.Contents) → container.Holds bytes.value.items contents
        → IsUnlessMemory result contents }
    ensures kinds { FailsByData result }
    ensures kept { IfOk result
        (λ contents. counted.bytes_kept contents ≤ counted.rounded_length bytes.value.items) }
{
    let mut steps = Steps::new();
    read_root(alloc, bytes.as_slice(), Some(&bytes), &mut steps)
}

/// Returns the contents of the storage that lies at a path of names below the root (MS-CFB 2.6.3): its CLSID, its
/// streams, and whether storages lie directly in it. The empty path is that of the root. Streams share the bytes as
/// those of `read_shared` do.
///
/// Of the directory it looks only at what lies directly in the root and in each storage on the path. It keeps marks for
/// the entries of the directory, and makes them anew for each name of the path.
///
/// # Errors
/// Fails with `InvalidData` if header, tables or root break a rule of `read`, or if what lies in a storage on the path
/// breaks one, up to the first name that isn't found there. Fails with `NotFound` if a name of the path is not that of
/// a storage in the one before it. Only then does it look at the mini stream and at the storage's streams, and fails
/// with `InvalidData` if they break a rule of `read`. Fails with `OutOfMemory`.
pub fn read_storage(alloc: Global, bytes: &Rc<Vec<u8>>, path: &[Name]) -> Result<Contents, Error>
    ensures found { IfOk result (λ contents. storages.HoldsAt bytes.now.value.items path.now contents) }
    ensures only { (contents : held.Contents) → storages.HoldsAt bytes.now.value.items path.now contents
        → IsUnlessMemory result contents }
    ensures missing { storages.IsMissing bytes.now.value.items path.now → IsNotFound result }
    ensures kinds { FailsByPath (storages.IsMissing bytes.now.value.items path.now) result }
    ensures kept { IfOk result
        (λ contents. counted.bytes_kept contents ≤ counted.rounded_length bytes.now.value.items) }
{
    let mut steps = Steps::new();
    read_from(alloc, bytes.as_slice(), path, Some(bytes), &mut steps)
}

/// Counts the steps from 0 on. An image has the same bytes; the streams that lie in it in one piece are parts of it.
fn read_root(
    alloc: Global,
    bytes: &[u8],
    image: Option<&Rc<Vec<u8>>>,
    steps: &mut Steps,
) -> Result<Contents, Error>
    requires { IfSome image (λ whole. whole.now.value.items ≡ bytes.now) }
    ensures found { IfOk result (λ contents. container.Holds bytes.now contents) }
    ensures only { (contents : held.Contents) → container.Holds bytes.now contents → IsUnlessMemory result contents }
    ensures kinds { FailsByData result }
    ensures bounded { counted.IsWithinSectors bytes.now steps.new }
    ensures exact { OnOk result ((plan : container.Plan) → container.IsPlan bytes.now plan
        → steps.new ≡ counted.steps_of plan) }
    ensures kept { IfOk result (λ contents. counted.bytes_kept contents ≤ counted.rounded_length bytes.now) }
{
    read_from(alloc, bytes, &[], image, steps)
}

/// Reads the storage at a path, as `read_root` does the root.
fn read_from(
    alloc: Global,
    bytes: &[u8],
    path: &[Name],
    image: Option<&Rc<Vec<u8>>>,
    steps: &mut Steps,
) -> Result<Contents, Error>
    requires { IfSome image (λ whole. whole.now.value.items ≡ bytes.now) }
    ensures found { IfOk result (λ contents. storages.HoldsAt bytes.now path.now contents) }
    ensures only { (contents : held.Contents) → storages.HoldsAt bytes.now path.now contents
        → IsUnlessMemory result contents }
    ensures missing { storages.IsMissing bytes.now path.now → IsNotFound result }
    ensures kinds { FailsByPath (storages.IsMissing bytes.now path.now) result }
    ensures bounded { counted.IsWithinSectors bytes.now steps.new }
    ensures exact { OnOk result ((storage : ℕ) (plan : container.Plan)
        → storages.IsPlanAt bytes.now path.now storage plan → steps.new ≡ counted.steps_of plan) }
    ensures kept { IfOk result (λ contents. counted.bytes_kept contents ≤ counted.rounded_length bytes.now) }
{
    *steps = Steps::new();
    let outline = read_outline_at(alloc, bytes, path, steps)?;
    let directory = Directory {
        bytes,
        sectors: &outline.start.directory,
    };
    let streams = collect(
        alloc,
        &directory,
        image,
        &outline.mini.stream,
        &outline.entries.storages,
        &outline.entries.streams,
        &outline.chains,
    )?;
    Ok(Contents {
        clsid: outline.clsid,
        streams,
        has_storages: outline.entries.has_storages,
    })
}

/// Where the streams of a container stand, and what else its directory says.
pub(crate) struct Outline {
    pub(crate) clsid: [u8; 16],
    pub(crate) start: Start,
    pub(crate) entries: Entries,
    pub(crate) mini: Mini,
    /// The members of each stream.
    pub(crate) chains: Vec<Vec<u32>>,
    ghost few: { vec_len start.directory ≤ 2 ^ 32 },
}

/// Written out, as those of its parts are, so that a function that owns one calls one drop.
impl Drop for Outline {
    fn drop(self) {
        let Outline {
            clsid: _,
            start: _,
            entries: _,
            mini: _,
            chains: _,
        } = self;
    }
}

/// Locates the root's streams without reading them. Their names aren't looked at yet.
pub(crate) fn read_outline(alloc: Global, bytes: &[u8], steps: &mut Steps) -> Result<Outline, Error>
    requires { steps.old ≤ 2 ^ 63 }
    ensures found { IfOk result (λ o. (plan : container.Plan)
        × (HaveNamesApart bytes.now plan.directory
        (storages_among bytes.now plan.directory (members plan.tree)) (container.stream_entries bytes.now plan)
        → container.IsPlan bytes.now plan)
        × (steps.new ≡ steps.old + counted.steps_of plan)
        × IsOutline bytes.now 0 plan o.clsid o.entries.has_storages
        o.start.directory.items o.mini.stream.items o.entries.storages.items o.entries.streams.items
        (views o.chains.items)) }
    ensures only { (plan : container.Plan) → container.IsPlan bytes.now plan
        → ViewIsUnlessMemory {Y = List ℕ × List ℕ × List ℕ}
        (λ o. (o.start.directory.items, o.entries.storages.items, o.entries.streams.items)) result (
          plan.directory,
          storages_among bytes.now plan.directory
              (members plan.tree),
          container.stream_entries bytes.now plan,
        ) }
    ensures kinds { FailsByData result }
    ensures storages { IfOk result
        (λ o. AreBelow (container.entry_count bytes.now o.start.directory.items) o.entries.storages.items) }
    ensures below { IfOk result
        (λ o. AreBelow (container.entry_count bytes.now o.start.directory.items) o.entries.streams.items) }
    ensures covered { IfOk result
        (λ o. AllZip (IsCovered bytes.now o.mini.stream.items o.start.directory.items) o.entries.streams.items
        (views o.chains.items)) }
    ensures grows { steps.old ≤ steps.new }
    ensures bounded { counted.IsWithinSectors bytes.now (steps.new - steps.old) }
{
    read_outline_at(alloc, bytes, &[], steps)
}

/// Locates the streams of the storage at a path, as `read_outline` does those of the root.
fn read_outline_at(
    alloc: Global,
    bytes: &[u8],
    path: &[Name],
    steps: &mut Steps,
) -> Result<Outline, Error>
    requires { steps.old ≤ 2 ^ 63 }
    ensures found { IfOk result (λ o. (storage : ℕ) × (plan : container.Plan)
        × IsPath bytes.now plan.directory path.now (Some storage)
        × (HaveNamesApart bytes.now plan.directory
        (storages_among bytes.now plan.directory (members plan.tree)) (container.stream_entries bytes.now plan)
        → storages.IsPlanAt bytes.now path.now storage plan)
        × (steps.new ≡ steps.old + counted.steps_of plan)
        × IsOutline bytes.now storage plan o.clsid o.entries.has_storages
        o.start.directory.items o.mini.stream.items o.entries.storages.items o.entries.streams.items
        (views o.chains.items)) }
    ensures only { (storage : ℕ) (plan : container.Plan) → storages.IsPlanAt bytes.now path.now storage plan
        → ViewIsUnlessMemory {Y = List ℕ × List ℕ × List ℕ}
        (λ o. (o.start.directory.items, o.entries.storages.items, o.entries.streams.items)) result (
          plan.directory,
          storages_among bytes.now plan.directory
              (members plan.tree),
          container.stream_entries bytes.now plan,
        ) }
    ensures missing { storages.IsMissing bytes.now path.now → IsNotFound result }
    ensures kinds { FailsByPath (storages.IsMissing bytes.now path.now) result }
    ensures storages { IfOk result
        (λ o. AreBelow (container.entry_count bytes.now o.start.directory.items) o.entries.storages.items) }
    ensures below { IfOk result
        (λ o. AreBelow (container.entry_count bytes.now o.start.directory.items) o.entries.streams.items) }
    ensures covered { IfOk result
        (λ o. AllZip (IsCovered bytes.now o.mini.stream.items o.start.directory.items) o.entries.streams.items
        (views o.chains.items)) }
    ensures grows { steps.old ≤ steps.new }
    ensures bounded { counted.IsWithinSectors bytes.now (steps.new - steps.old) }
{
    let mut claims = Claims::new(alloc, Claimed::Sectors, sector_count(bytes))?;
    let start = read_start(alloc, bytes, &mut claims, steps)?;
    let fat = AllocationTable::new(bytes, &start.fat);
    let directory = Directory {
        bytes,
        sectors: &start.directory,
    };
    let storage = find_storage(alloc, &directory, path)?;
    let entries = read_entries(alloc, &directory, storage)?;
    let mini = read_mini(alloc, &fat, &directory, &mut claims, steps)?;
    let chains = read_chains(
        alloc,
        &fat,
        &directory,
        &mini,
        &entries.streams,
        claims,
        steps,
    )?;
    let clsid = directory.clsid(storage);
    Ok(Outline {
        clsid,
        start,
        entries,
        mini,
        chains,
    })
}

/// The sectors of the DIFAT, the FAT and the directory.
pub(crate) struct Start {
    pub(crate) difat: Vec<u32>,
    fat: Vec<u32>,
    pub(crate) directory: Vec<u32>,
}

impl Drop for Start {
    fn drop(self) {
        let Start {
            difat: _,
            fat: _,
            directory: _,
        } = self;
    }
}

pub(crate) fn read_start(
    alloc: Global,
    bytes: &[u8],
    claims: &mut Claims,
    steps: &mut Steps,
) -> Result<Start, Error>
    requires empty { claims.old.list.items ≡ [] }
    requires regular { vec_len claims.old.marks ≤ marks.MAX_REGULAR_SECTOR + 1 }
    requires steps { steps.old + vec_len claims.old.marks + 1 < 2 ^ 64 }
    ensures limit { vec_len claims.new.marks ≡ vec_len claims.old.marks }
    ensures found { IfOk result
        (λ s. IsStart bytes.now (vec_len claims.old.marks) s.difat.items s.fat.items s.directory.items
        × (claims.new.list.items ≡ s.difat.items ++ s.fat.items ++ s.directory.items)) }
    ensures only { (difat fat directory : List ℕ) → IsStart bytes.now (vec_len claims.old.marks) difat fat directory
        → ViewIsUnlessMemory {Y = List ℕ × List ℕ × List ℕ}
        (λ s. (s.difat.items, s.fat.items, s.directory.items)) result
        (difat, fat, directory) }
    ensures kinds { FailsByData result }
    ensures few { IfOk result (λ s. vec_len s.difat + vec_len s.fat + vec_len s.directory ≤ vec_len claims.old.marks) }
    ensures grows { steps.old ≤ steps.new }
    ensures bounded { steps.new + vec_len claims.old.list ≤ steps.old + vec_len claims.new.list }
    ensures exact { IfOk result (λ s. steps.new ≡ steps.old + vec_len s.directory) }
{
    check_header(bytes)?;
    let difat = read_difat(alloc, bytes, claims)?;
    let fat = read_fat(alloc, bytes, &difat, claims)?;
    let table = AllocationTable::new(bytes, &fat);
    let first = number32(bytes, DIRECTORY_START_AT);
    let directory = walk_to_end(alloc, &table, first, claims, steps)?;
    Ok(Start {
        difat,
        fat,
        directory,
    })
}
