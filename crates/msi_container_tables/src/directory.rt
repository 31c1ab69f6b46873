//! The directory: its entries, and those that its tree reaches (MS-CFB 2.6).

ghost use Rattle.std.specs.Prelude.{◌≡◌, ℕ, List, [], ◌+◌, ◌*◌, ◌<◌, ◌≤◌, ◌^◌, ◌++◌, length, take, map};
ghost use Rattle.std.specs.Prelude.{vec_len, IfOk, OnOk, OnErr, IsErrOf};
ghost use Rattle.std.specs.List.{range_with_len};
ghost use Rattle.msi_base.specs.declared.errors.ErrorKind.TheVariants.{InvalidData};
ghost use Rattle.msi_container_format.specs.Bytes as spelled;
ghost use Rattle.msi_container_format.specs.Chains.{AreBelow, AreDistinct};
ghost use Rattle.msi_container_tables.specs.Claims.{CanClaim};
ghost use Rattle.msi_container_tables.specs.Outcomes.{ViewIsUnlessMemory, FailsByData};
ghost use Rattle.msi_container_format.specs.Container as container;
ghost use Rattle.msi_container_tables.specs.Reading as spec;
ghost use Rattle.msi_container_tables.specs.Paths.{storage_clsid};
ghost use Rattle.msi_container_format.specs.Trees.{Tree, members};

use crate::claims::{Claimed, Claims};
use crate::header::sector_size;
use crate::reasons;
use msi_base::{Error, ErrorKind};
use msi_container_format::format::{
    CHILD_AT, CLSID_AT, ENTRY_SIZE, KIND_AT, LEFT_AT, MAX_UNITS, NAME_SIZE_AT, NO_ENTRY, RIGHT_AT,
    SIZE_AT, START_AT, STORAGE, STREAM, VERSION_4, VERSION_AT,
};
use msi_container_format::name::Name;
use msi_container_format::parts::{byte, number16, number32, number64, place};
use std::alloc::Global;

/// The directory that stands in these sectors, 128 bytes for each entry (MS-CFB 2.6.1).
#[derive(Clone, Copy)]
pub struct Directory<'a> {
    /// The bytes of the file.
    pub bytes: &'a [u8],
    /// The numbers of the directory's sectors, in the order of their chain.
    pub sectors: &'a [u32],
    pub ghost few: { length sectors.now ≤ 2 ^ 32 },
}

impl<'a> Directory<'a> {
    /// The directory in these sectors of a file, at most 2 ^ 32 of them.
    pub fn new(bytes: &'a [u8], sectors: &'a [u32]) -> Directory<'a>
        requires { length sectors.now ≤ 2 ^ 32 }
        ensures bytes { result.bytes.now ≡ bytes.now }
        ensures sectors { result.sectors.now ≡ sectors.now }
    {
        Directory { bytes, sectors }
    }

    /// How many entries its sectors hold: four in a sector of 512 bytes, and 32 in one of 4096.
    pub fn entry_count(&self) -> usize
        ensures { result ≡ container.entry_count self.now.bytes.now self.now.sectors.now }
    {
        self.sectors.len() * (sector_size(self.bytes) / ENTRY_SIZE)
    }

    /// Where in the file the byte of an entry lies that has this offset in it.
    fn field(&self, entry: u32, offset: usize) -> usize
        requires entry { entry < container.entry_count self.now.bytes.now self.now.sectors.now }
        requires offset { offset < 128 }
        ensures value { result ≡ container.field self.now.bytes.now self.now.sectors.now entry offset }
        ensures most { result < 4096 * (2 ^ 32 + 1) }
    {
        place(
            sector_size(self.bytes),
            self.sectors,
            ENTRY_SIZE * entry as usize + offset,
        )
    }

    /// The kind of an entry: 1 for a storage, 2 for a stream, 5 for the root, or any other number. `entry` is below the
    /// entry count.
    pub fn kind(&self, entry: u32) -> u8
        requires { entry < container.entry_count self.now.bytes.now self.now.sectors.now }
        ensures { result ≡ container.kind self.now.bytes.now self.now.sectors.now entry }
    {
        byte(self.bytes, self.field(entry, KIND_AT))
    }

    /// The link to the entry on the left of an entry, or a mark for none. It may lead past the directory. `entry` is
    /// below the entry count.
    pub fn left(&self, entry: u32) -> u32
        requires { entry < container.entry_count self.now.bytes.now self.now.sectors.now }
        ensures { result ≡ container.left self.now.bytes.now self.now.sectors.now entry }
    {
        number32(self.bytes, self.field(entry, LEFT_AT))
    }

    /// The link to the entry on the right of an entry, as `left` has that on the left. `entry` is below the entry
    /// count.
    pub fn right(&self, entry: u32) -> u32
        requires { entry < container.entry_count self.now.bytes.now self.now.sectors.now }
        ensures { result ≡ container.right self.now.bytes.now self.now.sectors.now entry }
    {
        number32(self.bytes, self.field(entry, RIGHT_AT))
    }

    /// The link to the topmost of the entries that lie in a storage, as `left` has that on the left. `entry` is below
    /// the entry count.
    pub fn child(&self, entry: u32) -> u32
        requires { entry < container.entry_count self.now.bytes.now self.now.sectors.now }
        ensures { result ≡ container.child self.now.bytes.now self.now.sectors.now entry }
    {
        number32(self.bytes, self.field(entry, CHILD_AT))
    }

    /// The CLSID of a storage, its 16 bytes as they are stored. `entry` is below the entry count.
    pub fn clsid(&self, entry: u32) -> [u8; 16]
        requires { entry < container.entry_count self.now.bytes.now self.now.sectors.now }
        ensures { result ≡ storage_clsid self.now.bytes.now self.now.sectors.now entry }
    {
        let from = self.field(entry, CLSID_AT);
        let mut clsid = [0; 16];
        for i in 0..16 {
            clsid[i] = byte(self.bytes, from + i);
        }
        clsid
    }

    /// The first sector of a stream, or mini sector if it has less than 4096 bytes; of the root, the first sector of
    /// the mini stream. `entry` is below the entry count.
    pub fn start_sector(&self, entry: u32) -> u32
        requires { entry < container.entry_count self.now.bytes.now self.now.sectors.now }
        ensures { result ≡ container.start_sector self.now.bytes.now self.now.sectors.now entry }
    {
        number32(self.bytes, self.field(entry, START_AT))
    }

    /// How many bytes a stream has; of the root, the mini stream. Version 3 uses the low half alone. `entry` is below
    /// the entry count.
    pub fn size(&self, entry: u32) -> u64
        requires { entry < container.entry_count self.now.bytes.now self.now.sectors.now }
        ensures { result ≡ container.size self.now.bytes.now self.now.sectors.now entry }
    {
        let at = self.field(entry, SIZE_AT);
        if number16(self.bytes, VERSION_AT) == VERSION_4 {
            number64(self.bytes, at)
        } else {
            u64::from(number32(self.bytes, at))
        }
    }

    /// The name of an entry, of 1 to 31 UTF-16 units. `InvalidData` where its length is odd, or it is empty, too long
    /// or no text. `entry` is below the entry count.
    pub fn name(&self, entry: u32) -> Result<Name, Error>
        requires { entry < container.entry_count self.now.bytes.now self.now.sectors.now }
        ensures found { IfOk result (λ name. name ≡ container.name self.now.bytes.now self.now.sectors.now entry) }
        ensures ok { OnOk result (container.HasName self.now.bytes.now self.now.sectors.now entry) }
        ensures invalid { OnErr result (container.HasName self.now.bytes.now self.now.sectors.now entry → ⊥) }
        ensures kinds { OnErr result (IsErrOf result InvalidData) }
    {
        let size = number16(self.bytes, self.field(entry, NAME_SIZE_AT));
        if size % 2 != 0 || size < 4 || size > 64 {
            return Err(Error::new(ErrorKind::InvalidData, reasons::NAME_LENGTH));
        }
        let len = usize::from(size / 2 - 1);
        let units = self.units(entry, len);
        match Name::from_units(&units[..len]) {
            Some(name) => Ok(name),
            None => Err(Error::new(ErrorKind::InvalidData, reasons::NAME_TEXT)),
        }
    }

    /// The first units of a name, and zeros behind them.
    fn units(&self, entry: u32, len: usize) -> [u16; MAX_UNITS]
        requires entry { entry < container.entry_count self.now.bytes.now self.now.sectors.now }
        requires len { len ≤ 31 }
        ensures { take len result
            ≡ map (λ i. spelled.number16 self.now.bytes.now
            (container.field self.now.bytes.now self.now.sectors.now entry (2 * i))) (range_with_len 0 len) }
    {
        let mut units = [0; MAX_UNITS];
        for i in 0..len {
            units[i] = number16(self.bytes, self.field(entry, 2 * i));
        }
        units
    }
}

/// Lists the entries that links lead to from `child`, each once: first an entry, then those on its left, then those on
/// its right. `InvalidData` where a link leads past the directory, or to an entry that was reached; `OutOfMemory`.
pub(crate) fn reach(alloc: Global, directory: &Directory, child: u32) -> Result<Vec<u32>, Error>
    ensures found { IfOk result
        (λ reached. (tree : Tree)
        × container.IsDirectoryTree directory.now.bytes.now directory.now.sectors.now child tree
        × (members tree ≡ reached.items) × AreDistinct reached.items) }
    ensures only { (tree : Tree)
        → container.IsDirectoryTree directory.now.bytes.now directory.now.sectors.now child tree
        → AreDistinct (members tree) → ViewIsUnlessMemory (λ v. v.items) result (members tree) }
    ensures below { IfOk result
        (λ reached. AreBelow (container.entry_count directory.now.bytes.now directory.now.sectors.now) reached.items) }
    ensures kinds { FailsByData result }
{
    let mut claims = Claims::new(alloc, Claimed::Entries, directory.entry_count())?;
    reach_more(alloc, directory, child, &mut claims)
}

/// Lists the entries that links lead to from `child`, each once: first an entry, then those on its left, then those on
/// its right. Each is claimed beside those in use, among as many as the directory has. `InvalidData` where a link leads
/// past the directory, or to an entry in use; `OutOfMemory`.
pub fn reach_more(
    alloc: Global,
    directory: &Directory,
    child: u32,
    claims: &mut Claims,
) -> Result<Vec<u32>, Error>
    requires { vec_len claims.old.marks ≡ container.entry_count directory.now.bytes.now directory.now.sectors.now }
    ensures limit { vec_len claims.new.marks ≡ vec_len claims.old.marks }
    ensures found { IfOk result
        (λ reached. (tree : Tree)
        × container.IsDirectoryTree directory.now.bytes.now directory.now.sectors.now child tree
        × (members tree ≡ reached.items)
        × (claims.new.list.items ≡ claims.old.list.items ++ reached.items)) }
    ensures only { (tree : Tree)
        → container.IsDirectoryTree directory.now.bytes.now directory.now.sectors.now child tree
        → CanClaim (vec_len claims.old.marks) claims.old.list.items (members tree)
        → ViewIsUnlessMemory (λ v. v.items) result (members tree) }
    ensures kinds { FailsByData result }
{
    let mut reached = Vec::new(alloc);
    let mut pending = Vec::new(alloc);
    pending.push(child)?;
    while let Some(link) = pending.pop() {
        if link == NO_ENTRY {
            continue;
        }
        claims.claim(link)?;
        reached.push(link)?;
        pending.push(directory.right(link))?;
        pending.push(directory.left(link))?;
    }
    Ok(reached)
}

/// Checks that these entries, each below the entry count, are storages and streams. `InvalidData` where one is neither.
pub fn check_kinds(directory: &Directory, entries: &[u32]) -> Result<(), Error>
    requires { AreBelow (container.entry_count directory.now.bytes.now directory.now.sectors.now) entries.now }
    ensures ok { OnOk result (spec.AreOfKinds directory.now.bytes.now directory.now.sectors.now entries.now) }
    ensures invalid { OnErr result (spec.AreOfKinds directory.now.bytes.now directory.now.sectors.now entries.now → ⊥) }
    ensures kinds { OnErr result (IsErrOf result InvalidData) }
{
    for entry in entries {
        let kind = directory.kind(*entry);
        if kind != STORAGE && kind != STREAM {
            return Err(Error::new(ErrorKind::InvalidData, reasons::ENTRY_KIND));
        }
    }
    Ok(())
}

/// Lists the entries that lie directly in a storage: storages and streams, whose names aren't looked at yet.
/// `InvalidData` where the links spell no tree, or an entry is neither storage nor stream; `OutOfMemory`.
pub(crate) fn read_listing(
    alloc: Global,
    directory: &Directory,
    storage: u32,
) -> Result<Vec<u32>, Error>
    requires { storage < container.entry_count directory.now.bytes.now directory.now.sectors.now }
    ensures found { IfOk result
        (λ entries. (tree : Tree)
        × spec.IsNamelessListing directory.now.bytes.now directory.now.sectors.now storage tree
        × (members tree ≡ entries.items)) }
    ensures only { (tree : Tree)
        → spec.IsNamelessListing directory.now.bytes.now directory.now.sectors.now storage tree
        → ViewIsUnlessMemory (λ v. v.items) result (members tree) }
    ensures below { IfOk result
        (λ entries. AreBelow (container.entry_count directory.now.bytes.now directory.now.sectors.now) entries.items) }
    ensures kinds { FailsByData result }
{
    let entries = reach(alloc, directory, directory.child(storage))?;
    check_kinds(directory, &entries)?;
    Ok(entries)
}
