//! Which tables the rows of `_Tables`, `_Columns` and `_Validation` describe (MSI SDK, "System tables").

ghost use Rattle.std.specs.Prelude.{◌≡◌, ◌≤◌, ◌||◌, Bool, false, IfErr, IfOk, OnOk, length, map};
ghost use Rattle.std.specs.Prelude.{option_map};
ghost use Rattle.std.specs.List.Sorted.{IsSorted};
ghost use Rattle.msi_base.specs.Lists.{stable_sort};
ghost use Rattle.msi_base.specs.Results.{FailsAs, Gives, OnlyMemory};
ghost use Rattle.msi_table_cells.specs.CellValues.{row_values};
ghost use Rattle.msi_table_values.specs.Columns.{most_columns};
ghost use Rattle.msi_database_schema.specs.ListedTables.{by_names, listed_table as table_listed};
ghost use Rattle.msi_database_schema.specs.ListedTables.{listed_tables as tables_listed};
ghost use Rattle.msi_database_schema.specs.ListedTables.{system_tables as tables_of_system, with_system};
ghost use Rattle.msi_database_schema.specs.RowOrders.{by_numbers, by_texts, describing, rows_of};
ghost use Rattle.msi_database_schema.specs.Schema.{has_long_number as has_long, has_odd_name as has_odd};
ghost use Rattle.msi_database_schema.specs.Schema.{is_faulty as breaks_rule, table_with, tables_of};
ghost use Rattle.msi_database_schema.specs.System.{is_schema_table};

use crate::columns::columns_of_table;
use crate::copies::Copies;
use crate::faults::{has_odd_value, is_counted, is_faulty};
use crate::orders::{sort_by_numbers, sort_by_texts};
use crate::reasons;
use crate::rows::{SchemaRow, rows_of_cells, text_at};
use crate::system::{COLUMNS, TABLES, columns_columns, tables_columns};
use msi_base::errors::{Error, ErrorKind};
use msi_base::text::{IntoText, Items};
use msi_pool::stringpool::StringPool;
use msi_table::parts::table;
use msi_table::table::Table;
use msi_table_cells::cell::ValueRef;
use msi_table_values::column::Column;
use std::alloc::Global;

/// Returns a table of a name and columns, which are at most 32767.
///
/// # Errors
/// Fails with `OutOfMemory`.
pub fn named_table(
    alloc: Global,
    name: &str,
    columns: Items<Column>,
    long: bool,
) -> Result<Table, Error>
    requires { length columns ≤ most_columns }
    ensures ok { IfOk result (λ table. table ≡ table_with long (name.now, columns)) }
    ensures kind { OnlyMemory result }
{
    match table(name.into_text(alloc)?, columns, long) {
        Some(named) => Ok(named),
        None => unreachable!(),
    }
}

fn system_tables(alloc: Global, long: bool) -> Result<Vec<Table>, Error>
    ensures ok { IfOk result (λ tables. tables.items ≡ tables_of_system long) }
    ensures kind { OnlyMemory result }
{
    let tables = [
        named_table(alloc, TABLES, tables_columns(alloc)?, long)?,
        named_table(alloc, COLUMNS, columns_columns(alloc)?, long)?,
    ];
    Ok(Vec::from_array(alloc, tables)?)
}

fn listed_table(
    alloc: Global,
    columns: &[SchemaRow],
    validation: &[SchemaRow],
    name: &str,
    long: bool,
) -> Result<Table, Error>
    requires by_number { IsSorted by_numbers columns.now }
    requires by_name { IsSorted (by_texts 1) validation.now }
    requires short { has_long columns.now ≡ false }
    requires plain { is_schema_table name.now ≡ false }
    ensures { let s = describing columns.now validation.now in Gives
        (λ read. read) result (table_listed long s name.now) }
{
    let columns = columns_of_table(alloc, columns, validation, name)?;
    named_table(alloc, name, columns, long)
}

/// Puts the two tables that always exist before those of `_Tables`, in its order. The rows of `_Columns` have to be in
/// the order of their tables and numbers, those of `_Validation` in the order of their tables and columns.
fn listed_tables(
    alloc: Global,
    tables: &[SchemaRow],
    columns: &[SchemaRow],
    validation: &[SchemaRow],
    long: bool,
) -> Result<Vec<Table>, Error>
    requires by_number { IsSorted by_numbers columns.now }
    requires by_name { IsSorted (by_texts 1) validation.now }
    requires short { has_long columns.now ≡ false }
    ensures { let s = rows_of tables.now columns.now validation.now in
        Gives (λ read. read.items) result (option_map (with_system long) (tables_listed long s)) }
{
    let mut read = system_tables(alloc, long)?;
    for row in tables {
        if is_counted(row) {
            let name = text_at(row, 0);
            read.push(listed_table(alloc, columns, validation, name, long)?)?;
        }
    }
    Ok(read)
}

fn sort_by_names(tables: &mut Vec<Table>) -> Result<(), Error>
    ensures ok { OnOk result (tables.new.items ≡ stable_sort by_names tables.old.items) }
    ensures kind { OnlyMemory result }
{
    tables.sort_by(|table, other| table.name().cmp(other.name()))?;
    Ok(())
}

/// Fails with `InvalidData` for values that can't come from cells and for rows that break a rule, whatever the types
/// and the numbers of columns are.
fn refuse_faults(
    tables: Vec<SchemaRow>,
    columns: Vec<SchemaRow>,
    validation: Vec<SchemaRow>,
) -> Result<(), Error>
    ensures fits { OnOk result ((has_odd tables.entry.items || has_long columns.entry.items) ≡ false) }
    ensures sound { let s = rows_of tables.entry.items columns.entry.items validation.entry.items in
        OnOk result (breaks_rule s ≡ false) }
    ensures kind { let s = rows_of tables.entry.items columns.entry.items validation.entry.items in
        (long : Bool) → IfErr result (λ kind. FailsAs kind (tables_of long s)) }
{
    if has_odd_value(tables.as_slice(), columns.as_slice()) {
        return Err(Error::new(ErrorKind::InvalidData, reasons::ODD_VALUE));
    }
    let faulty = is_faulty(tables, columns, validation)?;
    if faulty {
        return Err(Error::new(ErrorKind::InvalidData, reasons::FAULTY_ROWS));
    }
    Ok(())
}

/// The rows have to be without a fault. Fails with `InvalidData` where the columns of a listed table aren't numbered
/// from 1 on, and where their bits name no type.
fn described(
    alloc: Global,
    tables: Vec<SchemaRow>,
    columns: Vec<SchemaRow>,
    validation: Vec<SchemaRow>,
    long: bool,
) -> Result<Items<Table>, Error>
    requires fits { (has_odd tables.items || has_long columns.items) ≡ false }
    requires sound { breaks_rule (rows_of tables.items columns.items validation.items) ≡ false }
    ensures { let s = rows_of tables.entry.items columns.entry.items validation.entry.items in
        Gives (λ tables. tables) result (tables_of long s) }
{
    let mut columns = columns;
    let mut validation = validation;
    sort_by_numbers(&mut columns)?;
    sort_by_texts(&mut validation, 1)?;
    let mut read = listed_tables(
        alloc,
        tables.as_slice(),
        columns.as_slice(),
        validation.as_slice(),
        long,
    )?;
    sort_by_names(&mut read)?;
    Ok(Items::from_vec(read))
}

fn refuse_faulty_cells(
    alloc: Global,
    pool: &StringPool,
    tables: &[Items<ValueRef>],
    columns: &[Items<ValueRef>],
    validation: &[Items<ValueRef>],
) -> Result<(), Error>
    ensures fits { let values = map (row_values pool.now.places) in
        OnOk result ((has_odd (values tables.now) || has_long (values columns.now)) ≡ false) }
    ensures sound { let values = map (row_values pool.now.places) in
        let s = rows_of (values tables.now) (values columns.now) (values validation.now) in
        OnOk result (breaks_rule s ≡ false) }
    ensures kind { let values = map (row_values pool.now.places) in
        let s = rows_of (values tables.now) (values columns.now) (values validation.now) in
        (long : Bool) → IfErr result (λ kind. FailsAs kind (tables_of long s)) }
{
    let copies = Copies::none(alloc, pool);
    let tables = rows_of_cells(alloc, &copies, tables)?;
    let columns = rows_of_cells(alloc, &copies, columns)?;
    let validation = rows_of_cells(alloc, &copies, validation)?;
    refuse_faults(tables, columns, validation)
}

/// Returns the tables that the cells of rows describe, with the pool of their texts, in the order of their names;
/// `_Tables` and `_Columns` are always there. References to texts are long in all of them if those of the pool are.
/// Columns share the texts that describe them: of a place there is one copy, whichever rows name it. There are no more
/// columns than rows of `_Columns`, since the faults of rows are looked for first.
///
/// # Errors
/// Fails with `InvalidData` if a row of `_Tables` or `_Columns` has a null, a row of `_Validation` lacks its table,
/// its column or, about a column that is there, whether that takes null; if a stream of the string pool is listed,
/// two rows share a key, a column is of no listed table, the columns of a listed table aren't numbered from 1 on, or
/// their bits name no type; and for cells that a stream of these tables doesn't give: a name that is no text, a number
/// of more than 16 bits. Fails with `OutOfMemory`.
pub fn tables_of_cells(
    alloc: Global,
    pool: &StringPool,
    tables: &[Items<ValueRef>],
    columns: &[Items<ValueRef>],
    validation: &[Items<ValueRef>],
) -> Result<Items<Table>, Error>
    ensures { let values = map (row_values pool.now.places) in
        let rows = rows_of (values tables.now) (values columns.now) (values validation.now) in
        Gives (λ tables. tables) result (tables_of pool.now.long rows) }
{
    refuse_faulty_cells(alloc, pool, tables, columns, validation)?;
    let copies = Copies::of(alloc, pool, columns, validation)?;
    let tables = rows_of_cells(alloc, &copies, tables)?;
    let columns = rows_of_cells(alloc, &copies, columns)?;
    let validation = rows_of_cells(alloc, &copies, validation)?;
    described(alloc, tables, columns, validation, pool.long_string_refs())
}
