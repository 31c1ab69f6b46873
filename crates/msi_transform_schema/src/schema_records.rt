//! The records of `_Tables` and of `_Columns`, all of them in turn.

ghost use Rattle.std.specs.Prelude.{◌≡◌, IfErr, Ok, OnOk};
ghost use Rattle.std.specs.List.{list_any};
ghost use Rattle.msi_transform_rows.specs.RecordRefusals.{IsRefused, in_turn_from};
ghost use Rattle.msi_transform_schema.specs.InHand.{in_hand};
ghost use Rattle.msi_transform_schema.specs.SchemaChanges.{are_complete as all_complete, column_record_applied};
ghost use Rattle.msi_transform_schema.specs.SchemaChanges.{is_complete as is_whole, table_record_applied};

use crate::schema::{SchemaInHand, TableInHand};
use crate::schema_change::SchemaChange;
use msi_table_values::column::Column;
use msi_transform_records::{Record, Shape};
use msi_transform_rows::{RecordPlace, Refusal};

fn has_key(columns: &[Column]) -> bool
    ensures { result ≡ list_any (λ c. c.is_primary_key) columns.now }
{
    columns.iter().any(Column::is_primary_key)
}

fn is_complete(table: &TableInHand) -> bool
    ensures { result ≡ is_whole table.now }
{
    !table.standing().is_added() || has_key(table.added())
}

impl SchemaInHand<'_> {
    /// Returns whether each table that is added has got a column of its key.
    pub fn are_complete(&self) -> bool
        ensures { result ≡ all_complete (in_hand self.now) }
    {
        for (_, table) in self.tables.iter() {
            if !is_complete(table) {
                return false;
            }
        }
        true
    }
}

impl<'a> SchemaChange<'a> {
    /// Applies the records of `_Tables` in turn. The place of `_Tables` among the tables of the transform is for
    /// refusals.
    ///
    /// # Errors
    /// Fails at the first record at which `apply_to_tables` fails, with that record's place.
    pub fn apply_all_to_tables(
        &self,
        table: usize,
        hand: &mut SchemaInHand<'a>,
        shapes: &[Shape],
        records: &[Record],
    ) -> Result<(), Refusal>
        ensures ok { let step = table_record_applied self.now shapes.now in
            OnOk result (in_turn_from table step 0 (in_hand hand.old) records.now ≡ Ok (in_hand hand.new)) }
        ensures kind { let step = table_record_applied self.now shapes.now in
            IfErr result (IsRefused (in_turn_from table step 0 (in_hand hand.old) records.now)) }
        ensures page { hand.new.pool.pool.page ≡ hand.old.pool.pool.page }
        ensures long { hand.new.pool.pool.long ≡ hand.old.pool.pool.long }
    {
        for record_number in 0..records.len() {
            if let Err(error) = self.apply_to_tables(hand, shapes, &records[record_number]) {
                let place = RecordPlace {
                    table,
                    record_number,
                };
                return Err(Refusal::at(error, place));
            }
        }
        Ok(())
    }

    /// Applies the records of `_Columns` in turn. The place of `_Columns` among the tables of the transform is for
    /// refusals.
    ///
    /// # Errors
    /// Fails at the first record at which `apply_to_columns` fails, with that record's place.
    pub fn apply_all_to_columns(
        &self,
        table: usize,
        hand: &mut SchemaInHand<'a>,
        shapes: &[Shape],
        records: &[Record],
    ) -> Result<(), Refusal>
        ensures ok { let step = column_record_applied self.now shapes.now in
            OnOk result (in_turn_from table step 0 (in_hand hand.old) records.now ≡ Ok (in_hand hand.new)) }
        ensures kind { let step = column_record_applied self.now shapes.now in
            IfErr result (IsRefused (in_turn_from table step 0 (in_hand hand.old) records.now)) }
        ensures page { hand.new.pool.pool.page ≡ hand.old.pool.pool.page }
        ensures long { hand.new.pool.pool.long ≡ hand.old.pool.pool.long }
    {
        for record_number in 0..records.len() {
            if let Err(error) = self.apply_to_columns(hand, shapes, &records[record_number]) {
                let place = RecordPlace {
                    table,
                    record_number,
                };
                return Err(Refusal::at(error, place));
            }
        }
        Ok(())
    }
}
