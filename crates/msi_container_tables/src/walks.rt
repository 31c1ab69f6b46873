//! Following a chain of sectors.

ghost use Rattle.std.specs.Prelude.{min, ◌≡◌, ℕ, List, ◌+◌, ◌-◌, ◌<◌, ◌≤◌, ◌^◌, ◌++◌, length, vec_len, IfOk, OnOk};
ghost use Rattle.msi_container_format.specs.Chains.{IsChain};
ghost use Rattle.msi_container_tables.specs.Claims.{CanClaim};
ghost use Rattle.msi_container_tables.specs.Outcomes.{IsFrom, ViewIsUnlessMemory, FailsByData};
ghost use Rattle.msi_container_tables.specs.Counts.{links};
ghost use Rattle.msi_container_tables.specs.Walks.{follower};
ghost use Rattle.msi_container_format.specs.Container as container;
ghost use Rattle.msi_container_format.specs.Format as marks;

use crate::claims::Claims;
use crate::reasons;
use crate::table::{AllocationTable, Steps};
use msi_base::{Error, ErrorKind};
use msi_container_format::format::END_OF_CHAIN;
use std::alloc::Global;

/// The member behind those so far: the start, or the successor of the last. `InvalidData` where that has none.
fn next_member(
    table: &AllocationTable,
    start: u32,
    so_far: &[u32],
    steps: &mut Steps,
) -> Result<u32, Error>
    requires { steps.old + 1 < 2 ^ 64 }
    ensures value { IsFrom result
        (follower (container.successor table.now.bytes.now table.now.sectors.now) start so_far.now) }
    ensures step { steps.new ≡ steps.old + min 1 (length so_far.now) }
{
    match so_far.last() {
        None => Ok(start),
        Some(last) => match table.successor(*last, steps) {
            Some(next) => Ok(next),
            None => Err(Error::new(ErrorKind::InvalidData, reasons::SECTOR_WITHOUT_SUCCESSOR)),
        },
    }
}

/// The chain of `count` sectors from `start`, each claimed. `InvalidData` where a sector can't be claimed or has no
/// successor; `OutOfMemory`. Each look-up of a successor takes a step.
pub(crate) fn walk(
    alloc: Global,
    table: &AllocationTable,
    start: u32,
    count: usize,
    claims: &mut Claims,
    steps: &mut Steps,
) -> Result<Vec<u32>, Error>
    requires { steps.old + vec_len claims.old.marks + 1 < 2 ^ 64 + vec_len claims.old.list }
    ensures limit { vec_len claims.new.marks ≡ vec_len claims.old.marks }
    ensures found { IfOk result
        (λ chain. IsChain (container.successor table.now.bytes.now table.now.sectors.now) start count chain.items
        × (claims.new.list.items ≡ claims.old.list.items ++ chain.items)) }
    ensures only { (chain : List ℕ)
        → IsChain (container.successor table.now.bytes.now table.now.sectors.now) start count chain
        → CanClaim (vec_len claims.old.marks) claims.old.list.items chain
        → ViewIsUnlessMemory (λ v. v.items) result chain }
    ensures kinds { FailsByData result }
    ensures grows { steps.old ≤ steps.new }
    ensures bounded { steps.new + vec_len claims.old.list ≤ steps.old + vec_len claims.new.list }
    ensures exact { IfOk result (λ chain. steps.new ≡ steps.old + links chain.items) }
{
    let mut chain = Vec::new(alloc);
    for _ in 0..count {
        let sector = next_member(table, start, &chain, steps)?;
        claims.claim(sector)?;
        chain.push(sector)?;
    }
    Ok(chain)
}

/// The chain from `start` to the end mark, each of its sectors claimed. `InvalidData` where `start` is the end mark, or
/// a sector can't be claimed or has no successor; `OutOfMemory`. Each look-up of a successor takes a step.
pub fn walk_to_end(
    alloc: Global,
    table: &AllocationTable,
    start: u32,
    claims: &mut Claims,
    steps: &mut Steps,
) -> Result<Vec<u32>, Error>
    requires regular { vec_len claims.old.marks ≤ marks.MAX_REGULAR_SECTOR + 1 }
    requires steps { steps.old + vec_len claims.old.marks + 1 < 2 ^ 64 }
    ensures limit { vec_len claims.new.marks ≡ vec_len claims.old.marks }
    ensures found { IfOk result
        (λ chain. container.IsWholeChain
        (container.successor table.now.bytes.now table.now.sectors.now) start chain.items
        × (claims.new.list.items ≡ claims.old.list.items ++ chain.items)) }
    ensures only { (chain : List ℕ)
        → container.IsWholeChain (container.successor table.now.bytes.now table.now.sectors.now) start chain
        → CanClaim (vec_len claims.old.marks) claims.old.list.items chain
        → ViewIsUnlessMemory (λ v. v.items) result chain }
    ensures kinds { FailsByData result }
    ensures grows { steps.old ≤ steps.new }
    ensures steps { steps.new + vec_len claims.old.list ≤ steps.old + vec_len claims.new.list }
    ensures exact { IfOk result (λ chain. steps.new ≡ steps.old + vec_len chain) }
{
    if start == END_OF_CHAIN {
        return Err(Error::new(ErrorKind::InvalidData, reasons::EMPTY_CHAIN));
    }
    let mut chain = Vec::new(alloc);
    let mut link = start;
    while link != END_OF_CHAIN {
        claims.claim(link)?;
        chain.push(link)?;
        match table.successor(link, steps) {
            Some(next) => link = next,
            None => {
                return Err(Error::new(ErrorKind::InvalidData, reasons::SECTOR_WITHOUT_SUCCESSOR));
            }
        }
    }
    Ok(chain)
}
