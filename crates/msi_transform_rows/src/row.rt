//! A row while a transform is applied.

ghost use Rattle.std.specs.Prelude.{◌≡◌, IfOk};
ghost use Rattle.msi_base.specs.Results.{OnlyMemory};

use msi_base::errors::Error;
use msi_base::text::Items;
use msi_table_cells::cell::ValueRef;
use std::alloc::Global;

/// Where the stream of a row is from.
#[derive(Clone, Copy, PartialEq, Eq, Debug, Drop)]
pub enum RowStream {
    /// It is as the package has it, with or without bytes.
    AsBefore,
    /// There is none.
    Gone,
    /// The transform brings it.
    Brought,
}

/// A row while a transform is applied: its cells, whose texts are in the package's pool, and its stream.
#[derive(Drop)]
pub struct RowInHand {
    /// A cell for each column.
    pub cells: Items<ValueRef>,
    /// Where its stream is from, if its table has columns of streams.
    pub stream: RowStream,
}

impl RowInHand {
    /// Returns a copy of the row.
    ///
    /// # Errors
    /// Fails with `OutOfMemory`.
    pub fn clone(&self, alloc: Global) -> Result<RowInHand, Error>
        ensures ok { IfOk result (λ row. row ≡ self.now) }
        ensures kind { OnlyMemory result }
    {
        let cells = Items::from_vec(Vec::from_slice(alloc, self.cells.as_slice())?);
        Ok(RowInHand {
            cells,
            stream: self.stream,
        })
    }
}
