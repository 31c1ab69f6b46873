//! Tables that get columns: each of their rows gets null there.

ghost use Rattle.std.specs.Prelude.{◌≡◌, ◌++◌, ◌∷◌, [], IfOk, OnOk, map};
ghost use Rattle.std.specs.FinMap.{entries};
ghost use Rattle.msi_base.specs.Results.{OnlyMemory};
ghost use Rattle.msi_transform_rows.specs.RowChanges.{keyed};
ghost use Rattle.msi_transform_schema.specs.SchemaChanges.{columns_in_hand as all_columns};
ghost use Rattle.msi_transform_applying.specs.AnewInHand.{anew_in_hand};
ghost use Rattle.msi_transform_applying.specs.Applying.{gains_streams as gets_streams, is_lengthened as gets_columns};
ghost use Rattle.msi_transform_applying.specs.Applying.{lengthened_row as row_with_nulls, null_in as null_for};
ghost use Rattle.msi_transform_applying.specs.Applying.{rows_begun, streams_begun, table_lengthened, with_lengthened};

use crate::tables_in_hand::{TableAnew, TablesInHand};
use msi_base::errors::Error;
use msi_base::text::Items;
use msi_database_changes::Stored;
use msi_database_changes::keys::Key;
use msi_table_cells::cell::ValueRef;
use msi_table_values::column::Column;
use msi_table_values::parts::copied_columns;
use msi_transform_rows::row::{RowInHand, RowStream};
use msi_transform_rows::row_streams::{has_streams, is_of_streams};
use msi_transform_schema::SchemaChange;
use msi_transform_schema::schema::TableInHand;
use msi_transform_schema::tables_by_name::TablesByName;

/// Returns the cell that a row gets in a column that is added.
fn null_in(column: &Column) -> ValueRef
    ensures { result ≡ null_for column.now }
{
    if is_of_streams(column.coltype()) {
        return ValueRef::Binary;
    }
    ValueRef::Null
}

fn gains_streams(columns: &[Column], added: &[Column]) -> bool
    ensures { result ≡ gets_streams columns.now added.now }
{
    has_streams(added) && !has_streams(columns)
}

fn is_lengthened(table: &TableInHand) -> bool
    ensures { result ≡ gets_columns table.now }
{
    table.standing().is_added() || (!table.standing().is_gone() && table.added().len() > 0)
}

/// Returns a row with null in each column that is added.
fn lengthened_row(
    columns: &[Column],
    added: &[Column],
    row: Items<ValueRef>,
) -> Result<RowInHand, Error>
    ensures ok { IfOk result (λ held. held ≡ row_with_nulls columns.now added.now row) }
    ensures kind { OnlyMemory result }
{
    let mut cells = row.into_vec();
    for column in added {
        cells.push(null_in(column))?;
    }
    Ok(RowInHand {
        cells: Items::from_vec(cells),
        stream: if gains_streams(columns, added) {
            RowStream::Gone
        } else {
            RowStream::AsBefore
        },
    })
}

/// Returns the columns that a table has of the package, and those that are added to it.
pub(crate) fn columns_in_hand(
    change: &SchemaChange,
    name: &str,
    table: &TableInHand,
) -> Result<Items<Column>, Error>
    ensures ok { IfOk result (λ columns. columns ≡ all_columns change.now.database name.now table.now) }
    ensures kind { OnlyMemory result }
{
    let of_package = copied_columns(change.alloc(), change.columns_of(name, table.standing()))?;
    let mut columns = of_package.into_vec();
    let mut added = copied_columns(change.alloc(), table.added())?.into_vec();
    columns.append(&mut added)?;
    Ok(Items::from_vec(columns))
}

/// Returns the rows that a table has of the package, with null in each column that is added.
pub(crate) fn begin_rows(
    change: &SchemaChange,
    name: &str,
    table: &TableInHand,
) -> Result<Vec<RowInHand>, Error>
    ensures ok { IfOk result (λ begun. begun.items ≡ rows_begun change.now.database name.now table.now) }
    ensures kind { OnlyMemory result }
{
    let columns = change.columns_of(name, table.standing());
    let rows = change.rows_of(name, table.standing())?;
    let mut begun = Vec::with_capacity(change.alloc(), rows.len())?;
    for row in rows {
        begun.push(lengthened_row(columns, table.added(), row)?)?;
    }
    Ok(begun)
}

/// Tells that the rows of a table have no streams, where it gets its first column of streams.
pub(crate) fn begin_streams(
    change: &SchemaChange,
    streams: &mut Vec<Stored>,
    name: &str,
    table: &TableInHand,
) -> Result<(), Error>
    ensures ok { OnOk result
        (streams.new.items ≡ streams.old.items ++ streams_begun change.now.database name.now table.now) }
    ensures kind { OnlyMemory result }
{
    let columns = change.columns_of(name, table.standing());
    if !gains_streams(columns, table.added()) {
        return Ok(());
    }
    let rows = change.rows_of(name, table.standing())?;
    change.push_gone_streams(streams, name, columns, rows.as_slice())
}

/// Returns rows behind their keys, in their order.
pub(crate) fn with_keys<'a>(
    change: &SchemaChange<'a>,
    columns: &[Column],
    rows: Vec<RowInHand>,
) -> Result<Vec<(Key<'a>, RowInHand)>, Error>
    ensures ok { IfOk result (λ all. all.items ≡ map (keyed columns.now change.now.database.pool.places) rows.items) }
    ensures kind { OnlyMemory result }
{
    let mut all = Vec::with_capacity(change.alloc(), rows.len())?;
    for row in rows {
        let key = change.key_of_row(columns, row.cells.as_slice())?;
        all.push((key, row))?;
    }
    Ok(all)
}

fn lengthened_table<'a>(
    change: &SchemaChange<'a>,
    name: &'a str,
    table: &TableInHand,
) -> Result<TableAnew<'a>, Error>
    ensures ok { IfOk result (λ anew. anew ≡ table_lengthened change.now.database (name.now, table.now)) }
    ensures kind { OnlyMemory result }
{
    let columns = columns_in_hand(change, name, table)?;
    let rows = with_keys(change, columns.as_slice(), begin_rows(change, name, table)?)?;
    Ok(TableAnew {
        name,
        columns,
        rows,
    })
}

/// Lengthens the rows of a table, unless it has records, or gets no columns.
fn lengthen_table<'a>(
    change: &SchemaChange<'a>,
    hand: &mut TablesInHand<'a>,
    name: &'a str,
    table: &TableInHand,
) -> Result<(), Error>
    ensures ok { let alone = (name.now, table.now) ∷ [] in
        OnOk result (anew_in_hand hand.new ≡ with_lengthened change.now alone (anew_in_hand hand.old)) }
    ensures kind { OnlyMemory result }
    ensures page { hand.new.pool.pool.page ≡ hand.old.pool.pool.page }
    ensures long { hand.new.pool.pool.long ≡ hand.old.pool.pool.long }
{
    if !is_lengthened(table) || change.transform().records_for(name).is_some() {
        return Ok(());
    }
    hand.tables.push(lengthened_table(change, name, table)?)?;
    begin_streams(change, &mut hand.streams, name, table)
}

/// Lengthens the rows of the tables that get columns, and have no records.
pub(crate) fn lengthen_tables<'a>(
    change: &SchemaChange<'a>,
    hand: &mut TablesInHand<'a>,
    told: &TablesByName<'a>,
) -> Result<(), Error>
    ensures ok { let told = entries told.now in
        OnOk result (anew_in_hand hand.new ≡ with_lengthened change.now told (anew_in_hand hand.old)) }
    ensures kind { OnlyMemory result }
    ensures page { hand.new.pool.pool.page ≡ hand.old.pool.pool.page }
    ensures long { hand.new.pool.pool.long ≡ hand.old.pool.pool.long }
{
    for (name, table) in told.iter() {
        lengthen_table(change, hand, name, table)?;
    }
    Ok(())
}
