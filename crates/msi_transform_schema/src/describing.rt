//! What a record of `_Columns` does: a column comes.

ghost use Rattle.std.specs.Prelude.{◌≡◌, ◌≤◌, ◌<◌, ◌+◌, ◌++◌, ◌∷◌, [], IfErr, IfOk, Ok, OnOk, Some, int_le, length};
ghost use Rattle.std.specs.Prelude.{map, not, pos, true};
ghost use Rattle.std.specs.Int.{cast_unsigned, w16};
ghost use Rattle.msi_base.specs.Refusals.{IsRefusal, or_refused, unless_refused};
ghost use Rattle.msi_base.specs.Results.{Gives, OnlyMemory};
ghost use Rattle.msi_base.specs.declared.errors.ErrorKind.TheVariants.{InvalidData, InvalidInput};
ghost use Rattle.msi_table_values.specs.Columns.{begun_column, column_of_bits as column_in};
ghost use Rattle.msi_table_values.specs.Views.{seen_value};
ghost use Rattle.msi_table_values.specs.declared.value.Value.TheVariants.{Int, Str};
ghost use Rattle.msi_table_cells.specs.CellValues.{row_values};
ghost use Rattle.msi_table_cells.specs.KeyOrder.{same_key};
ghost use Rattle.msi_database_schema.specs.Schema.{is_of_16_bits as fits_16_bits, value_at};
ghost use Rattle.msi_transform_schema.specs.InHand.{in_hand};
ghost use Rattle.msi_transform_schema.specs.SchemaChanges.{column_added, column_put, column_record_applied};
ghost use Rattle.msi_transform_schema.specs.SchemaChanges.{column_row_added};
ghost use Rattle.msi_transform_schema.specs.SchemaChanges.{column_told as told_column, columns_in_hand};
ghost use Rattle.msi_transform_schema.specs.SchemaChanges.{numbered_column_added};
ghost use Rattle.msi_transform_schema.specs.SchemaChanges.{counted_on as counted, describing_row as row_of};
ghost use Rattle.msi_transform_schema.specs.SchemaChanges.{has_number as is_taken, is_described as is_told};
ghost use Rattle.msi_transform_schema.specs.SchemaChanges.{is_next as follows};
ghost use Rattle.msi_transform_schema.specs.SchemaChanges.{new_column_refusals, next_number as following};
ghost use Rattle.msi_transform_schema.specs.SchemaChanges.{number_told as told_number};
ghost use Rattle.msi_transform_schema.specs.SchemaChanges.{old_column_refusals, was_dropped as was_away, with_table};
ghost use Rattle.msi_transform_schema.specs.TablesInHand.{HasSmallNumber, IsNextSmall, most_added, most_numbers};
ghost use Rattle.msi_transform_schema.specs.TablesInHand.{table_with};
ghost use Rattle.msi_transform.specs.Transforms.{record_key, value_in};

use crate::listing::plain_row;
use crate::reasons;
use crate::schema::{SchemaInHand, Standing, TableInHand};
use crate::schema_change::SchemaChange;
use msi_base::errors::{Error, ErrorKind};
use msi_base::text::{IntoText, Items};
use msi_pool::stringpool::StringPool;
use msi_table::parts::values as values_of;
use msi_table_cells::cell::ValueRef;
use msi_table_values::column::Column;
use msi_table_values::parts::{ValueView, column_of_bits, has_column};
use msi_table_values::value::Value;
use msi_transform_records::parts::added_cells;
use msi_transform_records::{Action, Record, Shape};
use msi_transform_rows::row::RowInHand;
use std::alloc::Global;

/// The most columns with which a table gets another one.
const MOST_COLUMNS: usize = 32;

/// Returns the number of the next column without one, of a table that has so many columns.
fn next_number(standing: Standing, count: usize) -> i32
    requires small { HasSmallNumber standing }
    requires few { count < most_numbers }
    ensures { result ≡ pos (following standing count) }
{
    match standing {
        Standing::Found(next) => next as i32,
        Standing::Kept | Standing::Added | Standing::Gone => count as i32 + 1,
    }
}

fn number_told(standing: Standing, count: usize, number: ValueView) -> i32
    requires small { HasSmallNumber standing }
    requires few { count < most_numbers }
    ensures { result ≡ told_number standing count (seen_value number.entry) }
{
    match number {
        ValueView::Int(told) => told,
        ValueView::Null | ValueView::Str(_) | ValueView::Binary => next_number(standing, count),
    }
}

/// How a table stands once a column with this number, or without one, is told.
fn counted_on(standing: Standing, number: ValueView) -> Standing
    requires { HasSmallNumber standing }
    ensures { result ≡ counted (seen_value number.entry) standing }
{
    match number {
        ValueView::Null => match standing {
            Standing::Found(next) => Standing::Found(next + 1),
            Standing::Kept | Standing::Added | Standing::Gone => standing,
        },
        ValueView::Int(_) | ValueView::Str(_) | ValueView::Binary => standing,
    }
}

/// Returns whether one of so many columns has this number, from 1 on.
fn has_number(count: usize, number: i32) -> bool
    requires { count < most_numbers }
    ensures { result ≡ is_taken count number }
{
    0 < number && number <= count as i32
}

fn is_next(count: usize, number: i32) -> bool
    requires { count < most_numbers }
    ensures { result ≡ follows count number }
{
    number == count as i32 + 1
}

fn is_of_16_bits(number: i32) -> bool
    ensures { result ≡ fits_16_bits number }
{
    -32768 <= number && number <= 32767
}

fn untold() -> Error
    ensures { result ≡ InvalidData }
{
    Error::new(ErrorKind::InvalidData, reasons::COLUMN_UNTOLD)
}

/// Returns the bits of a type, where negative numbers mean those from 32768 on.
fn bits_of(number: i32) -> u16
    requires { fits_16_bits number ≡ true }
    ensures { result ≡ cast_unsigned w16 number }
{
    (number as i16).cast_unsigned()
}

fn named_column(alloc: Global, name: &str, bits: u16) -> Result<Column, Error>
    ensures { Gives (λ column. column) result (column_in (begun_column name.now) bits) }
{
    column_of_bits(Column::build(alloc, name)?, bits)
}

fn told_by(alloc: Global, name: &str, bits: i32) -> Result<Column, Error>
    ensures { Gives (λ column. column) result (told_column (Str name.now) (Int bits)) }
{
    if name.is_empty() || !is_of_16_bits(bits) {
        return Err(untold());
    }
    named_column(alloc, name, bits_of(bits))
}

/// Returns the column of a name and of the bits of a type. Fails with `InvalidData` if it has no name, or they name no
/// type.
fn column_told(alloc: Global, name: ValueView, bits: ValueView) -> Result<Column, Error>
    ensures { Gives (λ column. column) result (told_column (seen_value name.entry) (seen_value bits.entry)) }
{
    match name {
        ValueView::Str(name) => match bits {
            ValueView::Int(bits) => told_by(alloc, name, bits),
            ValueView::Null | ValueView::Str(_) | ValueView::Binary => Err(untold()),
        },
        ValueView::Null | ValueView::Int(_) | ValueView::Binary => Err(untold()),
    }
}

/// Returns the row of `_Columns` that describes a column.
fn describing_row(
    alloc: Global,
    table: &str,
    number: i32,
    name: ValueView,
    bits: ValueView,
) -> Result<Items<Value>, Error>
    ensures ok { IfOk result (λ row. row ≡ row_of table.now number (seen_value name.entry) (seen_value bits.entry)) }
    ensures kind { OnlyMemory result }
{
    let values = [
        Value::Str(table.into_text(alloc)?),
        Value::Int(number),
        name.into_value(alloc)?,
        bits.into_value(alloc)?,
    ];
    Ok(Items::from_vec(Vec::from_array(alloc, values)?))
}

fn has_values(
    alloc: Global,
    pool: &StringPool,
    row: &RowInHand,
    values: &[Value],
) -> Result<bool, Error>
    ensures ok { IfOk result (λ same. same ≡ same_key (row_values pool.now.places row.now.cells) values.now) }
    ensures kind { OnlyMemory result }
{
    let held = values_of(alloc, pool, row.cells.as_slice())?;
    Ok(held.as_slice().cmp(values).is_eq())
}

/// Refuses a column that doesn't come behind those that a table has, of the package and added.
fn refuse_new_column(
    standing: Standing,
    columns: &[Column],
    added: &[Column],
    number: i32,
    column: &Column,
) -> Result<(), Error>
    requires few { length columns.now + length added.now < most_numbers }
    ensures value { let all = columns.now ++ added.now in
        result ≡ unless_refused (new_column_refusals standing all number column.now) tt }
    ensures room { OnOk result (length added.now < most_added) }
    ensures number { OnOk result (int_le number (pos 32799) ≡ true) }
{
    let count = columns.len() + added.len();
    if !is_next(count, number) {
        return Err(Error::new(ErrorKind::InvalidData, reasons::COLUMN_NUMBER));
    }
    if has_column(columns, column.name()) || has_column(added, column.name()) {
        return Err(Error::new(ErrorKind::InvalidData, reasons::COLUMN_NAME));
    }
    if column.is_primary_key() && !standing.is_added() {
        return Err(Error::new(ErrorKind::InvalidInput, reasons::COLUMN_KEY));
    }
    if count >= MOST_COLUMNS {
        return Err(Error::new(ErrorKind::InvalidInput, reasons::COLUMNS_MANY));
    }
    Ok(())
}

fn was_dropped(hand: &SchemaInHand, name: ValueView) -> bool
    ensures { result ≡ was_away (in_hand hand.now) (seen_value name.entry) }
{
    match name {
        ValueView::Str(name) => match hand.tables.get(name) {
            Some(table) => table.standing().is_gone(),
            None => false,
        },
        ValueView::Null | ValueView::Int(_) | ValueView::Binary => false,
    }
}

/// A column that a record tells, its row of `_Columns`, and its table as it stands once the column is told.
#[derive(Drop)]
struct ToldColumn<'a> {
    table: &'a str,
    standing: Standing,
    added: Items<Column>,
    column: Column,
    number: i32,
    row: Items<Value>,
}

impl<'a> SchemaChange<'a> {
    /// Returns whether a row of `_Columns` is there, and has these values.
    fn is_described(
        &self,
        hand: &SchemaInHand<'a>,
        table: &'a str,
        number: i32,
        row: &[Value],
    ) -> Result<bool, Error>
        ensures ok { IfOk result (λ there. there ≡ is_told (in_hand hand.now) table.now number row.now) }
        ensures kind { OnlyMemory result }
    {
        let key = self.describing_key(table, number)?;
        match hand.described.get(&key) {
            Some(held) => has_values(self.alloc, hand.pool.pool(), held, row),
            None => Ok(false),
        }
    }

    /// Passes over a column that its table has.
    fn find_column(&self, hand: &mut SchemaInHand<'a>, told: ToldColumn<'a>) -> Result<(), Error>
        requires few { length told.added ≤ most_added }
        requires number { HasSmallNumber told.standing }
        ensures ok { let t = table_with told.entry.standing told.entry.added in
            let described = is_told (in_hand hand.old) told.entry.table.now told.entry.number told.entry.row in
            let refusals = old_column_refusals self.now described in
            let put = unless_refused refusals (with_table told.entry.table.now t (in_hand hand.old)) in
            OnOk result (put ≡ Ok (in_hand hand.new)) }
        ensures kind { let t = table_with told.entry.standing told.entry.added in
            let described = is_told (in_hand hand.old) told.entry.table.now told.entry.number told.entry.row in
            let refusals = old_column_refusals self.now described in
            IfErr result (IsRefusal (unless_refused refusals (with_table told.entry.table.now t (in_hand hand.old)))) }
        ensures pool { hand.new.pool ≡ hand.old.pool }
    {
        let ToldColumn {
            table,
            standing,
            added,
            column: _,
            number,
            row,
        } = told;
        if !self.is_described(hand, table, number, row.as_slice())? {
            return Err(Error::new(ErrorKind::InvalidInput, reasons::COLUMN_OTHER));
        }
        if !self.passing.added_table_exists {
            return Err(Error::new(ErrorKind::AlreadyExists, reasons::COLUMN_THERE));
        }
        hand.tables.insert(table, TableInHand::new(standing, added))
    }

    /// Puts a column behind those that its table has.
    fn put_column(&self, hand: &mut SchemaInHand<'a>, told: ToldColumn<'a>) -> Result<(), Error>
        requires few { length told.added ≤ most_added }
        requires number { IsNextSmall told.number told.standing }
        ensures ok { let t = table_with told.entry.standing told.entry.added in
            let columns = columns_in_hand self.now.database told.entry.table.now t in
            let s = in_hand hand.old in OnOk result
            (column_put told.entry.table.now t columns told.entry.column told.entry.number told.entry.row s
            ≡ Ok (in_hand hand.new)) }
        ensures kind { let t = table_with told.entry.standing told.entry.added in
            let columns = columns_in_hand self.now.database told.entry.table.now t in
            let s = in_hand hand.old in
            IfErr result (IsRefusal
            (column_put told.entry.table.now t columns told.entry.column told.entry.number told.entry.row s)) }
        ensures page { hand.new.pool.pool.page ≡ hand.old.pool.pool.page }
        ensures long { hand.new.pool.pool.long ≡ hand.old.pool.pool.long }
    {
        let ToldColumn {
            table,
            standing,
            added,
            column,
            number,
            row,
        } = told;
        let columns = self.columns_of(table, standing);
        refuse_new_column(standing, columns, added.as_slice(), number, &column)?;
        let cells = hand.pool.put_row(self.alloc, row)?;
        let key = self.describing_key(table, number)?;
        hand.described.insert(key, plain_row(cells))?;
        let mut added = added.into_vec();
        added.push(column)?;
        hand.tables
            .insert(table, TableInHand::new(standing, Items::from_vec(added)))
    }
}

impl<'a> SchemaChange<'a> {
    /// Returns the column that an added row of `_Columns` tells, of a table as it is in hand.
    fn told_column(
        &self,
        name: &'a str,
        table: TableInHand,
        row: &[ValueRef],
    ) -> Result<ToldColumn<'a>, Error>
        ensures column { let values = map (value_in self.now.by) row.now in
            IfOk result (λ told. told_column (value_at 2 values) (value_at 3 values) ≡ Some told.column) }
        ensures number { let values = map (value_in self.now.by) row.now in
            let count = length (columns_in_hand self.now.database name.now table) in
            IfOk result (λ told. told.number ≡ told_number table.standing count (value_at 1 values)) }
        ensures row { let values = map (value_in self.now.by) row.now in IfOk result (λ told.
            told.row ≡ row_of name.now told.number (value_at 2 values) (value_at 3 values)) }
        ensures table { IfOk result (λ told. told.table.now ≡ name.now) }
        ensures standing { let values = map (value_in self.now.by) row.now in
            IfOk result (λ told. told.standing ≡ counted (value_at 1 values) table.standing) }
        ensures added { IfOk result (λ told. told.added ≡ table.added) }
        ensures few { IfOk result (λ told. length told.added ≤ most_added) }
        ensures next { IfOk result (λ told. IsNextSmall told.number told.standing) }
        ensures kind { let values = map (value_in self.now.by) row.now in
            IfErr result (IsRefusal (or_refused InvalidData (told_column (value_at 2 values) (value_at 3 values)))) }
    {
        let (cell, named, bits) = (
            self.view_at(row, 1),
            self.view_at(row, 2),
            self.view_at(row, 3),
        );
        let column = column_told(self.alloc, named, bits)?;
        let standing = table.standing();
        let count = self.columns_of(name, standing).len() + table.added().len();
        let number = number_told(standing, count, cell);
        Ok(ToldColumn {
            table: name,
            standing: counted_on(standing, cell),
            added: table.into_added(),
            column,
            number,
            row: describing_row(self.alloc, name, number, named, bits)?,
        })
    }

    fn add_numbered(&self, hand: &mut SchemaInHand<'a>, told: ToldColumn<'a>) -> Result<(), Error>
        requires few { length told.added ≤ most_added }
        requires number { IsNextSmall told.number told.standing }
        ensures ok { let t = table_with told.entry.standing told.entry.added in
            let s = in_hand hand.old in
            let table = told.entry.table.now in OnOk result
            (numbered_column_added self.now table t told.entry.column told.entry.number told.entry.row s
            ≡ Ok (in_hand hand.new)) }
        ensures kind { let t = table_with told.entry.standing told.entry.added in
            let s = in_hand hand.old in
            let table = told.entry.table.now in IfErr result (IsRefusal
            (numbered_column_added self.now table t told.entry.column told.entry.number told.entry.row s)) }
        ensures page { hand.new.pool.pool.page ≡ hand.old.pool.pool.page }
        ensures long { hand.new.pool.pool.long ≡ hand.old.pool.pool.long }
    {
        let count = self.columns_of(told.table, told.standing).len() + told.added.len();
        if has_number(count, told.number) {
            return self.find_column(hand, told);
        }
        self.put_column(hand, told)
    }

    fn add_column(
        &self,
        hand: &mut SchemaInHand<'a>,
        name: &'a str,
        row: &[ValueRef],
    ) -> Result<(), Error>
        ensures ok { let values = map (value_in self.now.by) row.now in
            OnOk result (column_added self.now values (in_hand hand.old) name.now ≡ Ok (in_hand hand.new)) }
        ensures kind { let values = map (value_in self.now.by) row.now in
            IfErr result (IsRefusal (column_added self.now values (in_hand hand.old) name.now)) }
        ensures page { hand.new.pool.pool.page ≡ hand.old.pool.pool.page }
        ensures long { hand.new.pool.pool.long ≡ hand.old.pool.pool.long }
    {
        let table = self.table_in_hand(&hand.tables, name)?;
        if table.standing().is_gone() {
            return Err(Error::new(ErrorKind::NotFound, reasons::COLUMN_OF_NO_TABLE));
        }
        let told = self.told_column(name, table, row)?;
        self.add_numbered(hand, told)
    }

    fn add_row(&self, hand: &mut SchemaInHand<'a>, row: &[ValueRef]) -> Result<(), Error>
        ensures ok { let values = map (value_in self.now.by) row.now in
            OnOk result (column_row_added self.now values (in_hand hand.old) ≡ Ok (in_hand hand.new)) }
        ensures kind { let values = map (value_in self.now.by) row.now in
            IfErr result (IsRefusal (column_row_added self.now values (in_hand hand.old))) }
        ensures page { hand.new.pool.pool.page ≡ hand.old.pool.pool.page }
        ensures long { hand.new.pool.pool.long ≡ hand.old.pool.pool.long }
    {
        match self.view_at(row, 0) {
            ValueView::Str(name) => self.add_column(hand, name, row),
            ValueView::Null | ValueView::Int(_) | ValueView::Binary => Err(Error::new(
                ErrorKind::NotFound,
                reasons::COLUMN_OF_NO_TABLE,
            )),
        }
    }

    /// Passes over a column that is removed, if its table is dropped. Nothing changes.
    fn pass_over(
        &self,
        hand: &SchemaInHand<'a>,
        shapes: &[Shape],
        record: &Record,
    ) -> Result<(), Error>
        ensures ok { let name = value_at 0 (record_key self.now.by shapes.now «record».now) in
            OnOk result (was_away (in_hand hand.now) name ≡ true) }
        ensures kind { let name = value_at 0 (record_key self.now.by shapes.now «record».now) in
            let refusals = (not (was_away (in_hand hand.now) name), InvalidInput) ∷ [] in
            IfErr result (IsRefusal {A = Unit {0}} (unless_refused refusals tt)) }
    {
        let name = self.key_name(shapes, record)?;
        if !was_dropped(hand, name) {
            return Err(Error::new(ErrorKind::InvalidInput, reasons::COLUMN_REMOVED));
        }
        Ok(())
    }

    /// Applies a record of `_Columns`. After an error anything may be in hand.
    ///
    /// # Errors
    /// Fails with the first of these that applies: `InvalidInput` for a change, and for a column that is removed unless
    /// its table is dropped. For one that is added `NotFound` if its table isn't there, and `InvalidData` if it has no
    /// name or no type. If its number is another column's, `InvalidInput`, and if it is there, `AlreadyExists`, unless
    /// that passes. Else `InvalidData` if its number isn't the next one, or another column has its name; `InvalidInput`
    /// if it is a key column of a table that isn't added, the table has 32 columns, or the pool is full. `OutOfMemory`
    /// may come in place of any of these.
    pub fn apply_to_columns(
        &self,
        hand: &mut SchemaInHand<'a>,
        shapes: &[Shape],
        record: &Record,
    ) -> Result<(), Error>
        ensures ok { let s = in_hand hand.old in OnOk result
            (column_record_applied self.now shapes.now s «record».now ≡ Ok (in_hand hand.new)) }
        ensures kind { IfErr result (IsRefusal
            (column_record_applied self.now shapes.now (in_hand hand.old) «record».now)) }
        ensures page { hand.new.pool.pool.page ≡ hand.old.pool.pool.page }
        ensures long { hand.new.pool.pool.long ≡ hand.old.pool.pool.long }
    {
        match record.action {
            Action::Remove => self.pass_over(hand, shapes, record),
            Action::Change(_) => Err(Error::new(ErrorKind::InvalidInput, reasons::COLUMN_CHANGED)),
            Action::Add(_) => {
                let row = added_cells(self.alloc, shapes, record)?;
                self.add_row(hand, row.as_slice())
            }
        }
    }
}
