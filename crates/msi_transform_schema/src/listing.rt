//! What a record of `_Tables` does: a table goes, comes, or is found.

ghost use Rattle.std.specs.Prelude.{◌≡◌, IfErr, IfSome, IsTrue, Ok, OnOk, option_map, true};
ghost use Rattle.msi_base.specs.Refusals.{IsRefusal};
ghost use Rattle.msi_table_values.specs.Views.{seen_value};
ghost use Rattle.msi_database_schema.specs.Keys.{is_table_name as is_of_table};
ghost use Rattle.msi_transform_schema.specs.InHand.{in_hand};
ghost use Rattle.msi_transform_schema.specs.SchemaChanges.{is_name_to_list as may_be_listed, listing_applied};
ghost use Rattle.msi_transform_schema.specs.SchemaChanges.{name_to_list as name_listed, plain_row as plain_of};
ghost use Rattle.msi_transform_schema.specs.SchemaChanges.{table_added, table_put, table_record_applied};

use crate::reasons;
use crate::schema::{SchemaInHand, Standing};
use crate::schema_change::SchemaChange;
use msi_base::errors::{Error, ErrorKind};
use msi_base::text::{IntoText, Items};
use msi_database_schema::names::is_table_name;
use msi_database_schema::system::is_schema_table;
use msi_table_cells::cell::ValueRef;
use msi_table_values::parts::ValueView;
use msi_table_values::value::Value;
use msi_transform_records::{Action, Record, Shape};
use msi_transform_rows::row::{RowInHand, RowStream};

/// Returns a row of a system table, which has no stream.
pub(crate) fn plain_row(cells: Items<ValueRef>) -> RowInHand
    ensures { result ≡ plain_of cells }
{
    RowInHand {
        cells,
        stream: RowStream::AsBefore,
    }
}

fn is_name_to_list(name: &str) -> bool
    ensures value { result ≡ may_be_listed name.now }
    ensures named { IsTrue result → is_of_table name.now ≡ true }
{
    is_table_name(name) && !is_schema_table(name)
}

fn name_to_list(view: ValueView<'_>) -> Option<&str>
    ensures value { option_map (λ name. name.now) result ≡ name_listed (seen_value view.entry) }
    ensures named { IfSome result (λ name. is_of_table name.now ≡ true) }
{
    match view {
        ValueView::Str(name) => {
            if is_name_to_list(name) {
                Some(name)
            } else {
                None
            }
        }
        ValueView::Null | ValueView::Int(_) | ValueView::Binary => None,
    }
}

impl<'a> SchemaChange<'a> {
    fn put_table(&self, hand: &mut SchemaInHand<'a>, name: &'a str) -> Result<(), Error>
        ensures ok { OnOk result (table_put self.now name.now (in_hand hand.old) ≡ Ok (in_hand hand.new)) }
        ensures kind { IfErr result (IsRefusal (table_put self.now name.now (in_hand hand.old))) }
        ensures page { hand.new.pool.pool.page ≡ hand.old.pool.pool.page }
        ensures long { hand.new.pool.pool.long ≡ hand.old.pool.pool.long }
    {
        if self.is_unlisted(name)? {
            return Err(Error::new(ErrorKind::InvalidInput, reasons::UNLISTED_ROWS));
        }
        let row = Vec::from_array(self.alloc, [Value::Str(name.into_text(self.alloc)?)])?;
        let cells = hand.pool.put_row(self.alloc, Items::from_vec(row))?;
        let key = self.listing_key(name)?;
        hand.listed.insert(key, plain_row(cells))?;
        hand.tables.insert(name, self.bare_table(Standing::Added))
    }

    fn add_table(&self, hand: &mut SchemaInHand<'a>, name: &'a str) -> Result<(), Error>
        ensures ok { OnOk result (table_added self.now name.now (in_hand hand.old) ≡ Ok (in_hand hand.new)) }
        ensures kind { IfErr result (IsRefusal (table_added self.now name.now (in_hand hand.old))) }
        ensures page { hand.new.pool.pool.page ≡ hand.old.pool.pool.page }
        ensures long { hand.new.pool.pool.long ≡ hand.old.pool.pool.long }
    {
        let table = self.table_in_hand(&hand.tables, name)?;
        if table.standing().is_gone() {
            return self.put_table(hand, name);
        }
        if !self.passing.added_table_exists {
            return Err(Error::new(ErrorKind::AlreadyExists, reasons::TABLE_THERE));
        }
        let standing = table.standing().found();
        hand.tables.insert(name, table.with_standing(standing))
    }

    fn apply_listing(
        &self,
        hand: &mut SchemaInHand<'a>,
        action: Action,
        name: &'a str,
    ) -> Result<(), Error>
        requires { is_of_table name.now ≡ true }
        ensures ok { OnOk result (listing_applied self.now (in_hand hand.old) action name.now ≡ Ok (in_hand hand.new)) }
        ensures kind { IfErr result (IsRefusal (listing_applied self.now (in_hand hand.old) action name.now)) }
        ensures page { hand.new.pool.pool.page ≡ hand.old.pool.pool.page }
        ensures long { hand.new.pool.pool.long ≡ hand.old.pool.pool.long }
    {
        match action {
            Action::Remove => self.remove_table(hand, name),
            Action::Add(_) => self.add_table(hand, name),
            Action::Change(_) => Err(Error::new(ErrorKind::InvalidInput, reasons::LISTING_CHANGED)),
        }
    }

    /// Applies a record of `_Tables`. After an error anything may be in hand.
    ///
    /// # Errors
    /// Fails with the first of these that applies: `InvalidData` if no table may have the name, or it is that of
    /// `_Tables` or `_Columns`. `NotFound` if a table that is dropped isn't there, and `AlreadyExists` if one that is
    /// added is, unless these pass. `InvalidInput` for a change, if `_Validation` is added and its stream has rows
    /// already, and if the pool is full. `OutOfMemory` may come in place of any of these.
    pub fn apply_to_tables(
        &self,
        hand: &mut SchemaInHand<'a>,
        shapes: &[Shape],
        record: &Record,
    ) -> Result<(), Error>
        ensures ok { let s = in_hand hand.old in OnOk result
            (table_record_applied self.now shapes.now s «record».now ≡ Ok (in_hand hand.new)) }
        ensures kind { IfErr result (IsRefusal
            (table_record_applied self.now shapes.now (in_hand hand.old) «record».now)) }
        ensures page { hand.new.pool.pool.page ≡ hand.old.pool.pool.page }
        ensures long { hand.new.pool.pool.long ≡ hand.old.pool.pool.long }
    {
        match name_to_list(self.key_name(shapes, record)?) {
            Some(name) => self.apply_listing(hand, record.action, name),
            None => Err(Error::new(ErrorKind::InvalidData, reasons::NO_TABLE_NAME)),
        }
    }
}
