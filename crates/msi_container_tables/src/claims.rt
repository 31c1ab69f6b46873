//! Which sectors, or which entries, are in use.

ghost use Rattle.std.specs.Prelude.{◌≡◌, ◌+◌, ◌<◌, ◌∷◌, ◌++◌, [], Some, true, vec_len, OnOk, OnErr, IsErrOf};
ghost use Rattle.std.specs.Prelude.{IfOk, count_by};
ghost use Rattle.msi_base.specs.declared.errors.ErrorKind.TheVariants.{InvalidData};
ghost use Rattle.msi_container_format.specs.Chains.{AreDistinct};
ghost use Rattle.msi_container_tables.specs.Claims.{IsFree, MarkedAre, OthersAreUnmarked};
ghost use Rattle.msi_container_tables.specs.Outcomes.{FailsByData};

use crate::reasons;
use msi_base::{Error, ErrorKind, Reason};
use std::alloc::{AllocError, Global};

/// What is claimed, for the reason of a refusal.
#[derive(Clone, Copy, Debug, PartialEq, Eq)]
pub enum Claimed {
    /// Sectors of the file.
    Sectors,
    /// Mini sectors of the mini stream.
    MiniSectors,
    /// Entries of the directory.
    Entries,
}

/// The numbers in use, in the order in which they were claimed: each is below the limit, and none stands twice.
pub struct Claims {
    claimed: Claimed,
    /// Whether each number below the limit is in use.
    pub marks: Vec<bool>,
    /// The numbers in use.
    pub list: Vec<u32>,
    pub ghost marked: { MarkedAre marks.items list.items },
    pub ghost unmarked: { OthersAreUnmarked marks.items list.items },
    pub ghost counted: { count_by (λ b. b) marks.items ≡ vec_len list },
    pub ghost distinct: { AreDistinct list.items },
}

/// Written out, so that a function that owns claims calls one drop, and its proof passes over those of the parts.
impl Drop for Claims {
    fn drop(self) {
        let Claims {
            claimed: _,
            marks: _,
            list: _,
        } = self;
    }
}

impl Claims {
    /// Numbers below a limit can be claimed, and none is in use. Fails for want of memory.
    pub fn new(alloc: Global, claimed: Claimed, limit: usize) -> Result<Self, AllocError>
        ensures limit { IfOk result (λ c. vec_len c.marks ≡ limit) }
        ensures none { IfOk result (λ c. c.list.items ≡ []) }
    {
        let marks = vec![in alloc; false; limit]?;
        Ok(Claims {
            claimed,
            marks,
            list: Vec::new(alloc),
        })
    }

    /// Takes a number into use. `InvalidData` where it isn't below the limit, or is in use; `OutOfMemory`. An `Err`
    /// changes nothing.
    pub fn claim(&mut self, number: u32) -> Result<(), Error>
        ensures limit { vec_len self.new.marks ≡ vec_len self.old.marks }
        ensures ok { OnOk result
            (IsFree (vec_len self.old.marks) self.old.list.items number
            × (self.new.list.items ≡ self.old.list.items ++ number ∷ [])) }
        ensures invalid { IsErrOf result InvalidData → IsFree (vec_len self.old.marks) self.old.list.items number → ⊥ }
        ensures kinds { FailsByData result }
        ensures err { OnErr result (self.new.list.items ≡ self.old.list.items) }
    {
        match self.marks.get(number as usize) {
            Some(false) => {
                self.list.push(number)?;
                self.marks[number as usize] = true;
                Ok(())
            }
            Some(true) => Err(Error::new(ErrorKind::InvalidData, self.claimed.twice())),
            None => Err(Error::new(ErrorKind::InvalidData, self.claimed.outside())),
        }
    }
}

impl Claimed {
    /// Returns why a number past the limit is refused.
    fn outside(self) -> Reason {
        match self {
            Claimed::Sectors => reasons::SECTOR_OUTSIDE_FILE,
            Claimed::MiniSectors => reasons::MINI_SECTOR_OUTSIDE_STREAM,
            Claimed::Entries => reasons::ENTRY_OUTSIDE_DIRECTORY,
        }
    }

    /// Returns why a number in use is refused.
    fn twice(self) -> Reason {
        match self {
            Claimed::Sectors => reasons::SECTOR_USED_TWICE,
            Claimed::MiniSectors => reasons::MINI_SECTOR_USED_TWICE,
            Claimed::Entries => reasons::ENTRY_REACHED_TWICE,
        }
    }
}
