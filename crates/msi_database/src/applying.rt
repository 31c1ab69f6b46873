//! Applying a transform: the database that it makes of this one is built beside it.

ghost use Rattle.std.specs.Prelude.{◌≡◌, Err, IfErr, IfOk, IfSome, None, Ok, if◌then◌else◌, true};
ghost use Rattle.msi_base.specs.Refusals.{first_refusal};
ghost use Rattle.msi_database_changes.specs.Changes.{sound_refusal};
ghost use Rattle.std.specs.FinMap.{entries};
ghost use Rattle.msi_base.specs.Results.{OnlyMemory};
ghost use Rattle.msi_database_changes.specs.Database.{is_sound as is_sound_one};
ghost use Rattle.msi_database_storage.specs.Widening.{streams_widened};
ghost use Rattle.msi_transform_applying.specs.Applying.{applied};
ghost use Rattle.msi_transform_applying.specs.LeftInHand.{left_in_hand};
ghost use Rattle.msi_transform_rows.specs.RecordRefusals.{IsRefused};
ghost use Rattle.msi_database.specs.Transforming.{apply_transform, opened as opened_of};

use crate::database::Database;
use msi_base::errors::Error;
use msi_container_format::contents::StreamMap;
use msi_database_storage::copied_streams;
use msi_transform::{ErrorConditions, Transform};
use msi_transform_applying::leaving::Left;
use msi_transform_applying::{leave, transform_tables};
use msi_transform_rows::Refusal;
use msi_transform_schema::SchemaChange;
use std::alloc::Global;

impl Database {
    /// Returns copies of the streams, with references of three bytes if these are asked for.
    fn streams_over(&self, is_widened: bool) -> Result<StreamMap, Error>
        requires { is_sound_one self.now.database ≡ true }
        ensures ok { let wide = streams_widened self.now.database self.now.streams in
            IfOk result (λ streams. entries streams ≡ (if is_widened then wide else self.now.streams)) }
        ensures kind { OnlyMemory result }
    {
        if is_widened {
            let wide = self.widened()?;
            return Ok(wide.into_streams());
        }
        copied_streams(self.alloc, &self.streams)
    }

    /// Returns the pool and the streams that a transform leaves.
    fn left_by(
        &self,
        page_id: u32,
        transform: &Transform,
        passing: ErrorConditions,
    ) -> Result<Left, Refusal>
        requires { is_sound_one self.now.database ≡ true }
        ensures ok { IfOk result (λ left. applied self.now page_id transform.now passing ≡ Ok (left_in_hand left)) }
        ensures kind { IfErr result (IsRefused (applied self.now page_id transform.now passing)) }
    {
        let tables = self.tables.as_slice();
        let change = SchemaChange::new(
            self.alloc,
            &self.pool,
            tables,
            &self.streams,
            transform,
            passing,
        );
        let changed = transform_tables(&change, page_id)?;
        let under = self.streams_over(changed.needs_long())?;
        leave(&change, changed, under)
    }

    /// Returns the database that a transform makes of this one, which stays. `page_id` is the id of this one's code
    /// page as it is stored, or 0 where that is neutral, and `passing` says which faults of records pass: such a record
    /// does nothing, but for a row to add that is there, whose values are replaced. Streams of no table and of no row
    /// keep their bytes. Texts are counted anew, as `recount` does. It costs the rows of all tables times a logarithm.
    ///
    /// # Errors
    /// Fails with the first of these that applies, and tells the record that is at fault if one is:
    /// 1. `InvalidData` if the database isn't sound;
    /// 2. `InvalidInput` if the transform has another code page and neither is neutral, unless that passes;
    /// 3. `InvalidData` if two rows of `_Tables` have one key, and then if two of `_Columns` have, where the transform
    ///    has records of either;
    /// 4. at the first record of `_Tables`, and then of `_Columns`, that can't be read (`InvalidData`), or applied;
    /// 5. `InvalidData` if a table that is added has no column of a key;
    /// 6. for each other table of the transform in turn: `NotFound` if it isn't there; `InvalidData` if it has no key,
    ///    one of streams, or two rows with one key; then at its first record that can't be read, or applied;
    /// 7. `InvalidInput` if two rows whose streams have one name would have other bytes, and then if a text can't be
    ///    written in the code page of the result;
    /// 8. `InvalidData` if what is left describes no tables, or can't be counted anew.
    ///
    /// A record that can't be applied is refused with `NotFound` or `AlreadyExists` where `passing` may let it pass,
    /// else with `InvalidData` or `InvalidInput`, or with `NotFound` where a column's table or a row's stream is
    /// missing. It may fail with `OutOfMemory` in place of each but the first.
    pub fn apply(
        &self,
        page_id: u32,
        transform: &Transform,
        passing: ErrorConditions,
    ) -> Result<Database, Refusal>
        ensures ok { IfOk result (λ d. apply_transform self.now page_id transform.now passing ≡ Ok d) }
        ensures sound { IfOk result (λ d. is_sound_one d.database ≡ true) }
        ensures kind { IfErr result (IsRefused (apply_transform self.now page_id transform.now passing)) }
        ensures early { IfSome (first_refusal (sound_refusal self.now.database))
            (λ kind. result ≡ Err (record { kind = kind; place = None })) }
    {
        self.check_sound()?;
        let left = self.left_by(page_id, transform, passing)?;
        opened(self.alloc, left)
    }
}

/// Returns the database of what a transform leaves, with its texts counted anew.
fn opened(alloc: Global, left: Left) -> Result<Database, Refusal>
    ensures ok { IfOk result (λ d. opened_of (left_in_hand left) ≡ Ok d) }
    ensures sound { IfOk result (λ d. is_sound_one d.database ≡ true) }
    ensures kind { IfErr result (IsRefused (opened_of (left_in_hand left))) }
{
    let Left { pool, streams } = left;
    let mut database = Database::read(alloc, pool, streams)?;
    database.recount()?;
    Ok(database)
}
