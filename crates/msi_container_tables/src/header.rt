//! The header, the size of a sector, and how many sectors can be used (MS-CFB 2.1 and 2.2).

ghost use Rattle.std.specs.Prelude.{◌≡◌, ℕ, ◌+◌, ◌-◌, ◌/◌, min, ◌<◌, ◌≤◌};
ghost use Rattle.std.specs.Prelude.{OnOk, OnErr, IsErrOf, MatchOption, IsTrue, ◌↔◌, ◌⊎◌, ◌==◌};
ghost use Rattle.std.specs.Prelude.{if◌then◌else◌};
ghost use Rattle.msi_base.specs.declared.errors.ErrorKind.TheVariants.{InvalidData};
ghost use Rattle.msi_container_format.specs.Bytes as spelled;
ghost use Rattle.msi_container_format.specs.Container as container;
ghost use Rattle.msi_container_format.specs.Format as marks;
ghost use Rattle.msi_container_tables.specs.Counts as counted;

use crate::reasons;
use msi_base::{Error, ErrorKind, Reason};
use msi_container_format::format::{
    BYTE_ORDER, BYTE_ORDER_AT, MAX_REGULAR_SECTOR, MINI_SECTOR_SHIFT, MINI_SECTOR_SHIFT_AT,
    MINI_STREAM_CUTOFF, MINI_STREAM_CUTOFF_AT, SECTOR_SHIFT_3, SECTOR_SHIFT_4, SECTOR_SHIFT_AT,
    SECTOR_SIZE_3, SECTOR_SIZE_4, SIGNATURE, VERSION_3, VERSION_4, VERSION_AT,
};
use msi_container_format::parts::{number16, number32};

/// Checks the header: its signature, byte order, version (3 or 4), the sizes of sectors and mini sectors, and the least
/// size of a stream in sectors (MS-CFB 2.2). `InvalidData` for the first of them that is wrong.
pub fn check_header(bytes: &[u8]) -> Result<(), Error>
    ensures ok { OnOk result (container.IsHeader bytes.now) }
    ensures invalid { OnErr result (container.IsHeader bytes.now → ⊥) }
    ensures kinds { OnErr result (IsErrOf result InvalidData) }
{
    match broken_rule(bytes) {
        None => Ok(()),
        Some(reason) => Err(Error::new(ErrorKind::InvalidData, reason)),
    }
}

fn broken_rule(bytes: &[u8]) -> Option<Reason>
    ensures { MatchOption result (container.IsHeader bytes.now) (λ _. container.IsHeader bytes.now → ⊥) }
{
    let version = number16(bytes, VERSION_AT);
    if !is_signed(bytes) {
        Some(reasons::SIGNATURE)
    } else if number16(bytes, BYTE_ORDER_AT) != BYTE_ORDER {
        Some(reasons::BYTE_ORDER)
    } else if !is_known(version) {
        Some(reasons::VERSION)
    } else if number16(bytes, SECTOR_SHIFT_AT) != sector_shift(version) {
        Some(reasons::SECTOR_SHIFT)
    } else if number16(bytes, MINI_SECTOR_SHIFT_AT) != MINI_SECTOR_SHIFT {
        Some(reasons::MINI_SECTOR_SHIFT)
    } else if number32(bytes, MINI_STREAM_CUTOFF_AT) != MINI_STREAM_CUTOFF {
        Some(reasons::MINI_STREAM_CUTOFF)
    } else {
        None
    }
}

fn is_known(version: u16) -> bool
    ensures { IsTrue result ↔ ((version ≡ 3) ⊎ (version ≡ 4)) }
{
    version == VERSION_3 || version == VERSION_4
}

fn sector_shift(version: u16) -> u16
    ensures { result ≡ (if version == 4 then 12 else 9) }
{
    if version == VERSION_4 {
        SECTOR_SHIFT_4
    } else {
        SECTOR_SHIFT_3
    }
}

fn is_signed(bytes: &[u8]) -> bool
    ensures { IsTrue result ↔ (spelled.bytes_at bytes.now 0 8 ≡ marks.signature) }
{
    bytes.starts_with(&SIGNATURE)
}

/// The size of a sector in bytes, by the version that the header names: 4096 for version 4, and 512 for others.
pub fn sector_size(bytes: &[u8]) -> usize
    ensures value { result ≡ container.sector_size bytes.now }
    ensures least { 512 ≤ result }
    ensures most { result ≤ 4096 }
{
    if number16(bytes, VERSION_AT) == VERSION_4 {
        SECTOR_SIZE_4
    } else {
        SECTOR_SIZE_3
    }
}

/// How many sectors can be used: those with a regular number that start inside the file (MS-CFB 2.1). They are numbered
/// from 0 on.
pub fn sector_count(bytes: &[u8]) -> usize
    ensures within { (n : ℕ) → n < result → container.IsSector bytes.now n }
    ensures all { (n : ℕ) → container.IsSector bytes.now n → n < result }
    ensures regular { result ≤ marks.MAX_REGULAR_SECTOR + 1 }
    ensures inside { result ≤ counted.sectors_inside bytes.now }
{
    usable_sectors(bytes.len() as u64, sector_size(bytes))
}

/// How many sectors of a size can be used in a file of a length, both in bytes: those with a regular number that start
/// inside it.
pub fn usable_sectors(len: u64, size: usize) -> usize
    requires { 0 < size }
    ensures { result ≡ min ((len - 1) / size) (marks.MAX_REGULAR_SECTOR + 1) }
{
    let started = len.saturating_sub(1) / size as u64;
    started.min(u64::from(MAX_REGULAR_SECTOR) + 1) as usize
}
