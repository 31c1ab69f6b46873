//! What is in hand while the records of a table are applied.

ghost use Rattle.std.specs.Prelude.{◌≡◌, OnOk, option_to_list};
ghost use Rattle.msi_base.specs.Results.{OnlyMemory};
ghost use Rattle.msi_transform_rows.specs.RowsInHand.{hand, with_put, with_stored};

use crate::keyed::KeyedRows;
use crate::row::RowInHand;
use msi_base::errors::Error;
use msi_database_changes::Stored;
use msi_database_changes::keys::Key;
use msi_database_changes::texts::PoolInUse;

/// The rows of a table, the string pool, and what becomes of the streams of rows, in turn. A call that fails may leave
/// it in any state.
#[derive(Drop)]
pub struct RowsInHand<'a> {
    /// The rows by their keys.
    pub rows: KeyedRows<'a>,
    /// The pool that the cells of the rows refer to.
    pub pool: PoolInUse,
    /// What becomes of streams. Of two with one name the later counts.
    pub streams: Vec<Stored>,
}

impl<'a> RowsInHand<'a> {
    /// Adds what becomes of a stream, if something does.
    pub(crate) fn store(&mut self, stored: Option<Stored>) -> Result<(), Error>
        ensures ok { OnOk result (hand self.new ≡ with_stored (option_to_list stored) (hand self.old)) }
        ensures kind { OnlyMemory result }
        ensures page { self.new.pool.pool.page ≡ self.old.pool.pool.page }
        ensures long { self.new.pool.pool.long ≡ self.old.pool.pool.long }
    {
        if let Some(stored) = stored {
            self.streams.push(stored)?;
        }
        Ok(())
    }

    /// Puts a row under a key, and adds what becomes of its stream, if something does.
    pub(crate) fn put(
        &mut self,
        key: Key<'a>,
        row: RowInHand,
        stored: Option<Stored>,
    ) -> Result<(), Error>
        ensures ok { OnOk result (hand self.new ≡ with_put key.entry row (option_to_list stored) (hand self.old)) }
        ensures kind { OnlyMemory result }
        ensures page { self.new.pool.pool.page ≡ self.old.pool.pool.page }
        ensures long { self.new.pool.pool.long ≡ self.old.pool.pool.long }
    {
        self.rows.insert(key, row)?;
        self.store(stored)
    }
}
