//! The records of a transform's tables, beside the columns that they are about.

use msi_database_schema::system::{columns_columns, tables_columns};
use msi_table_cells::parts::view_of_cell;
use msi_table_values::parts::{column_of_bits, copied_columns};
use msi_transform::Transform;
use msi_transform_records::parts::{added_cells, changed_cells, key_cells};
use msi_transform_records::{Action, Record, Shape, read_records};
use msipkg_format::{Failure, Opened, push_key, said};
use msipkg_packages::msi::transforms::RecordPlace;
use msipkg_packages::msi::{Column, Error, Package, ValueView};
use std::alloc::Global;

/// The table that lists the others.
pub(crate) const TABLES: &str = "_Tables";

/// The table that describes columns.
pub(crate) const COLUMNS: &str = "_Columns";

/// A table's records, and the columns that the table has where they are applied.
pub(crate) struct TableRecords {
    pub(crate) columns: Vec<Column>,
    shapes: Vec<Shape>,
    pub(crate) records: Vec<Record>,
}

/// Written out, so that a function that owns one calls one drop, and its proof doesn't go through those of the parts.
impl Drop for TableRecords {
    fn drop(self) {
        let TableRecords {
            columns: _,
            shapes: _,
            records: _,
        } = self;
    }
}

/// A value that a record has for a column, by the column's place.
#[derive(Clone, Copy)]
pub(crate) struct Given<'a> {
    pub(crate) place: usize,
    pub(crate) value: ValueView<'a>,
}

impl TableRecords {
    /// Returns the records of a table's stream.
    ///
    /// # Errors
    /// Fails with `InvalidData` if a record is malformed, and with `OutOfMemory`.
    fn read(
        alloc: Global,
        transform: &Transform,
        columns: Vec<Column>,
        bytes: &[u8],
    ) -> Result<TableRecords, Failure> {
        let mut shapes = Vec::with_capacity(alloc, columns.len())?;
        for column in &columns {
            shapes.push(Shape::of(column))?;
        }
        match read_records(alloc, shapes.as_slice(), transform.pool(), bytes) {
            Ok(records) => Ok(TableRecords {
                columns,
                shapes,
                records,
            }),
            Err(fault) => {
                let number = fault.before.saturating_add(1);
                Err(said(format!(in alloc; "record {number}: {}", fault.error)))
            }
        }
    }

    /// Returns the values of the key of the row that a record is about.
    ///
    /// # Errors
    /// Fails if memory is refused.
    pub(crate) fn key<'a>(
        &self,
        alloc: Global,
        transform: &'a Transform,
        record: &Record,
    ) -> Result<Vec<ValueView<'a>>, Error> {
        let cells = key_cells(alloc, self.shapes.as_slice(), record)?;
        let mut key = Vec::with_capacity(alloc, cells.len())?;
        for cell in cells.as_slice() {
            key.push(view_of_cell(transform.pool(), *cell))?;
        }
        Ok(key)
    }

    /// Returns the values that a record gives a row.
    ///
    /// # Errors
    /// Fails if memory is refused.
    pub(crate) fn given<'a>(
        &self,
        alloc: Global,
        transform: &'a Transform,
        record: &Record,
    ) -> Result<Vec<Given<'a>>, Error> {
        let pool = transform.pool();
        let mut given = Vec::new(alloc);
        match record.action {
            Action::Remove => {}
            Action::Add(_) => {
                let cells = added_cells(alloc, self.shapes.as_slice(), record)?;
                for (place, cell) in cells.as_slice().iter().enumerate() {
                    given.push(Given {
                        place,
                        value: view_of_cell(pool, *cell),
                    })?;
                }
            }
            Action::Change(_) => {
                for (place, cell) in &changed_cells(alloc, self.shapes.as_slice(), record)? {
                    given.push(Given {
                        place: *place,
                        value: view_of_cell(pool, *cell),
                    })?;
                }
            }
        }
        Ok(given)
    }
}

/// Returns the text of a key: its values with slashes between them.
///
/// # Errors
/// Fails if memory is refused.
pub(crate) fn key_text(alloc: Global, key: &[ValueView<'_>]) -> Result<String, Error> {
    let mut text = String::new(alloc);
    let mut is_first = true;
    for value in key {
        if !is_first {
            text.push('/')?;
        }
        is_first = false;
        push_key(*value, &mut text)?;
    }
    Ok(text)
}

/// Returns the key of a record as text, where the record can be read beside the package to which the transform is to be
/// applied.
pub fn key_at(
    alloc: Global,
    base: &Package<Opened>,
    transform: &Transform,
    place: RecordPlace,
) -> Option<String> {
    let (table, _) = transform.tables().nth(place.table)?;
    let records = records_of(alloc, Some(base), transform, table.as_str()).ok()??;
    let record = records.records.get(place.record_number)?;
    let key = records.key(alloc, transform, record).ok()?;
    key_text(alloc, key.as_slice()).ok()
}

/// Returns the records of a table, or none where the transform has none, or where its columns aren't known: those of a
/// table that neither the package has nor the transform adds.
///
/// # Errors
/// Fails at a malformed record, and if memory is refused; at the table's name.
pub(crate) fn records_of(
    alloc: Global,
    base: Option<&Package<Opened>>,
    transform: &Transform,
    table: &str,
) -> Result<Option<TableRecords>, Failure> {
    let Some(bytes) = transform.records_for(table) else {
        return Ok(None);
    };
    let Some(columns) = columns_of(alloc, base, transform, table)? else {
        return Ok(None);
    };
    match TableRecords::read(alloc, transform, columns, bytes) {
        Ok(records) => Ok(Some(records)),
        Err(failure) => Err(failure.at(alloc, "table", table)),
    }
}

/// Returns the columns that a table has where its records are applied: those of the package, and behind them those that
/// the transform adds. There are none if neither the package has the table nor the transform adds it.
fn columns_of(
    alloc: Global,
    base: Option<&Package<Opened>>,
    transform: &Transform,
    table: &str,
) -> Result<Option<Vec<Column>>, Failure> {
    if table == TABLES {
        return Ok(Some(tables_columns(alloc)?.into_vec()));
    }
    if table == COLUMNS {
        return Ok(Some(columns_columns(alloc)?.into_vec()));
    }
    let Some(mut columns) = known_columns(alloc, base, transform, table)? else {
        return Ok(None);
    };
    add_columns(alloc, transform, table, &mut columns)?;
    Ok(Some(columns))
}

fn known_columns(
    alloc: Global,
    base: Option<&Package<Opened>>,
    transform: &Transform,
    table: &str,
) -> Result<Option<Vec<Column>>, Failure> {
    match base.and_then(|package| package.get_table(table)) {
        Some(known) => Ok(Some(copied_columns(alloc, known.columns())?.into_vec())),
        None if adds_table(alloc, transform, table)? => Ok(Some(Vec::new(alloc))),
        None => Ok(None),
    }
}

fn adds_table(alloc: Global, transform: &Transform, table: &str) -> Result<bool, Failure> {
    let Some(bytes) = transform.records_for(TABLES) else {
        return Ok(false);
    };
    let columns = tables_columns(alloc)?.into_vec();
    let listed = match TableRecords::read(alloc, transform, columns, bytes) {
        Ok(records) => records,
        Err(failure) => return Err(failure.at(alloc, "table", TABLES)),
    };
    for record in &listed.records {
        if matches!(record.action, Action::Add(_))
            && is_named(listed.key(alloc, transform, record)?.as_slice(), table)
        {
            return Ok(true);
        }
    }
    Ok(false)
}

fn is_named(key: &[ValueView<'_>], name: &str) -> bool {
    let [ValueView::Str(text)] = key else {
        return false;
    };
    *text == name
}

fn add_columns(
    alloc: Global,
    transform: &Transform,
    table: &str,
    columns: &mut Vec<Column>,
) -> Result<(), Failure> {
    let Some(described) = records_of_columns(alloc, transform)? else {
        return Ok(());
    };
    for record in &described.records {
        if let Some(added) = added_column(alloc, transform, &described, record)?
            && added.table == table
            && !has_column(columns.as_slice(), added.column.name())
        {
            columns.push(added.column)?;
        }
    }
    Ok(())
}

fn has_column(columns: &[Column], name: &str) -> bool {
    columns.iter().any(|column| column.name() == name)
}

fn records_of_columns(
    alloc: Global,
    transform: &Transform,
) -> Result<Option<TableRecords>, Failure> {
    let Some(bytes) = transform.records_for(COLUMNS) else {
        return Ok(None);
    };
    let columns = columns_columns(alloc)?.into_vec();
    match TableRecords::read(alloc, transform, columns, bytes) {
        Ok(records) => Ok(Some(records)),
        Err(failure) => Err(failure.at(alloc, "table", COLUMNS)),
    }
}

/// A column that a transform adds, and the name of its table.
#[derive(Drop)]
pub(crate) struct AddedColumn<'a> {
    pub(crate) table: &'a str,
    pub(crate) column: Column,
}

/// Returns the column that a record of `_Columns` adds, unless its name or its type is none.
///
/// # Errors
/// Fails if memory is refused.
pub(crate) fn added_column<'a>(
    alloc: Global,
    transform: &'a Transform,
    described: &TableRecords,
    record: &Record,
) -> Result<Option<AddedColumn<'a>>, Failure> {
    let given = described.given(alloc, transform, record)?;
    let [table, _, name, bits] = given.as_slice() else {
        return Ok(None);
    };
    let (ValueView::Str(table), ValueView::Str(name)) = (table.value, name.value) else {
        return Ok(None);
    };
    let column = column_named(alloc, name, bits.value)?;
    Ok(column.map(|column| AddedColumn { table, column }))
}

/// Returns the column of a name and of the bits of its type, unless these are none. Those from 32768 on are negative.
fn column_named(alloc: Global, name: &str, bits: ValueView<'_>) -> Result<Option<Column>, Failure> {
    let ValueView::Int(bits) = bits else {
        return Ok(None);
    };
    match i16::try_from(bits) {
        Ok(bits) => {
            let built = Column::build(alloc, name)?;
            Ok(column_of_bits(built, bits.cast_unsigned()).ok())
        }
        Err(_) => Ok(None),
    }
}
