//! Numbers in a row, in four bytes each where all are below 2^32.

ghost use Rattle.std.specs.Prelude.{◌≡◌, ◌<◌, ◌∷◌, ◌++◌, [], IfOk, OnOk, Some, length, set, slice_get};
ghost use Rattle.msi_base.specs.Results.{OnlyMemory};

use msi_base::errors::Error;
use std::alloc::Global;
use std::marker::Model;

/// The vector that holds the numbers, of one of two widths.
#[derive(Drop)]
pub(crate) enum Vector {
    /// All are below 2^32: four bytes each.
    Narrow(Vec<u32>),
    /// One is or was 2^32 or more: eight bytes each.
    Wide(Vec<usize>),
}

/// Numbers in a row: four bytes each while all are below 2^32, and eight from the first on that isn't.
/// Contracts see their list.
#[derive(Drop)]
pub struct Numbers {
    vector: Vector,
}

impl Model for Numbers {
    ghost use Rattle.std.specs.Prelude.{List, ℕ};

    ghost Value = { List ℕ };

    ghost use Rattle.msi_pool_places.specs.Numbers.{numbers_of};

    ghost view = { λ n. numbers_of n.vector };
}

impl Numbers {
    /// No number.
    pub fn new(alloc: Global) -> Numbers
        ensures { result ≡ [] }
    {
        Numbers {
            vector: Vector::Narrow(Vec::new(alloc)),
        }
    }

    /// No number, with room for so many that are below 2^32. The only error is `OutOfMemory`.
    pub fn with_capacity(alloc: Global, many: usize) -> Result<Numbers, Error>
        ensures ok { IfOk result (λ numbers. numbers ≡ []) }
        ensures kind { OnlyMemory result }
    {
        Ok(Numbers {
            vector: Vector::Narrow(Vec::with_capacity(alloc, many)?),
        })
    }

    /// How many numbers there are.
    pub fn len(&self) -> usize
        ensures { result ≡ length self.now }
    {
        match &self.vector {
            Vector::Narrow(numbers) => numbers.len(),
            Vector::Wide(numbers) => numbers.len(),
        }
    }

    /// The number at a place below `len`, counted from 0.
    pub fn get(&self, at: usize) -> usize
        requires { at < length self.now }
        ensures { slice_get self.now at ≡ Some result }
    {
        match &self.vector {
            Vector::Narrow(numbers) => numbers[at] as usize,
            Vector::Wide(numbers) => numbers[at],
        }
    }

    /// Puts a number behind the others. The only error is `OutOfMemory`.
    pub fn push(&mut self, number: u32) -> Result<(), Error>
        ensures ok { OnOk result (self.new ≡ self.old ++ number ∷ []) }
        ensures kind { OnlyMemory result }
    {
        match &mut self.vector {
            Vector::Narrow(numbers) => numbers.push(number)?,
            Vector::Wide(numbers) => numbers.push(number as usize)?,
        }
        Ok(())
    }

    /// Sets the number at a place below `len`, counted from 0. The first that is 2^32 or more takes memory for all of
    /// them. The only error is `OutOfMemory`.
    pub fn set(&mut self, at: usize, number: usize) -> Result<(), Error>
        requires { at < length self.old }
        ensures ok { OnOk result (self.new ≡ set self.old at number) }
        ensures kind { OnlyMemory result }
    {
        match &mut self.vector {
            Vector::Wide(numbers) => numbers[at] = number,
            Vector::Narrow(numbers) => {
                if let Ok(narrow) = u32::try_from(number) {
                    numbers[at] = narrow;
                } else {
                    let mut wide = widened(numbers)?;
                    wide[at] = number;
                    self.vector = Vector::Wide(wide);
                }
            }
        }
        Ok(())
    }

    /// The same numbers once more. The only error is `OutOfMemory`.
    pub fn clone(&self) -> Result<Numbers, Error>
        ensures ok { IfOk result (λ numbers. numbers ≡ self.now) }
        ensures kind { OnlyMemory result }
    {
        let vector = match &self.vector {
            Vector::Narrow(numbers) => Vector::Narrow(numbers.clone()?),
            Vector::Wide(numbers) => Vector::Wide(numbers.clone()?),
        };
        Ok(Numbers { vector })
    }
}

fn widened(narrow: &Vec<u32>) -> Result<Vec<usize>, Error>
    ensures ok { IfOk result (λ wide. wide.items ≡ narrow.now.items) }
    ensures kind { OnlyMemory result }
{
    let mut wide = Vec::with_capacity(*narrow.allocator(), narrow.len())?;
    for number in narrow {
        wide.push(*number as usize)?;
    }
    Ok(wide)
}
