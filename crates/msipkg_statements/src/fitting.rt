//! Values as their columns take them: the installer's engine takes a text that spells a number for a column of numbers,
//! and a number for a column of texts.

use crate::inserting::valued_columns;
use crate::row_streams::{
    GivenFiles, GivenStream, RowStream, StatementStreams, UpdatedStreams, given_stream,
};
use msi_query::parts::{
    DeleteParts, InsertParts, NewRow, UpdateParts, delete_parts, insert_parts, update_parts,
};
use msipkg_packages::has_null_streams;
use msipkg_packages::msi::{
    Column, ColumnType, Delete, Error, Insert, Items, Package, Statement, Table, Text, Update,
    Value, ValueView,
};
use msipkg_packages::output::{Opened, push_key};
use std::alloc::{AllocError, Global};

/// A statement with the values that it inserts or sets as the columns of a package take them, and what becomes of the
/// streams of its rows.
#[derive(Drop)]
pub struct Fitted<'a> {
    pub statement: Statement,
    pub streams: StatementStreams<'a>,
}

/// Returns a statement as a package takes it. The files are those that `stream_files` returns of its text.
///
/// # Errors
/// Fails if memory is refused.
pub fn fitted_statement<'a>(
    alloc: Global,
    package: &Package<Opened>,
    statement: Statement,
    files: &[Option<&'a str>],
) -> Result<Fitted<'a>, Error> {
    let mut files = GivenFiles::new(files);
    match statement {
        Statement::Insert(insert) => fitted_insert(alloc, package, insert, &mut files),
        Statement::Update(update) => fitted_update(alloc, package, update, &mut files),
        Statement::Select(_) | Statement::Delete(_) => Ok(Fitted {
            statement,
            streams: StatementStreams::Kept,
        }),
    }
}

/// Returns a statement with the table of this name in the place of its own.
///
/// # Errors
/// Fails if memory is refused.
pub fn moved_statement(
    alloc: Global,
    table: &str,
    statement: Statement,
) -> Result<Statement, Error> {
    match statement {
        Statement::Insert(insert) => Ok(Statement::Insert(moved_insert(alloc, table, insert)?)),
        Statement::Update(update) => Ok(Statement::Update(moved_update(alloc, table, update)?)),
        Statement::Delete(delete) => Ok(Statement::Delete(moved_delete(alloc, table, delete)?)),
        Statement::Select(_) => Ok(statement),
    }
}

fn moved_insert(alloc: Global, table: &str, insert: Insert) -> Result<Insert, Error> {
    let InsertParts {
        table: _,
        columns,
        rows,
    } = insert_parts(insert);
    let names = names_of(alloc, columns.as_slice())?;
    let moved = Insert::into(alloc, table)?.columns(names.as_slice())?;
    moved.rows(values_of(alloc, rows)?)
}

fn names_of<'a>(alloc: Global, columns: &'a [Text]) -> Result<Vec<&'a str>, AllocError> {
    let mut names = Vec::new(alloc);
    for column in columns {
        names.push(column.as_str())?;
    }
    Ok(names)
}

fn values_of(alloc: Global, rows: Items<NewRow>) -> Result<Vec<Vec<Value>>, AllocError> {
    let mut values = Vec::new(alloc);
    for row in rows.into_vec() {
        values.push(row.into_values())?;
    }
    Ok(values)
}

fn moved_update(alloc: Global, table: &str, update: Update) -> Result<Update, Error> {
    let UpdateParts {
        table: _,
        sets,
        condition,
    } = update_parts(update);
    let mut moved = Update::table(alloc, table)?;
    for set in sets.into_vec() {
        moved = moved.set(set.column(), set.value().clone(alloc)?)?;
    }
    match condition {
        Some(condition) => moved.with(condition),
        None => Ok(moved),
    }
}

fn moved_delete(alloc: Global, table: &str, delete: Delete) -> Result<Delete, Error> {
    let DeleteParts {
        table: _,
        condition,
    } = delete_parts(delete);
    let moved = Delete::from(alloc, table)?;
    match condition {
        Some(condition) => moved.with(condition),
        None => Ok(moved),
    }
}

fn fitted_insert<'a>(
    alloc: Global,
    package: &Package<Opened>,
    insert: Insert,
    files: &mut GivenFiles<'_, 'a>,
) -> Result<Fitted<'a>, Error> {
    let InsertParts {
        table: name,
        columns,
        rows,
    } = insert_parts(insert);
    let mut names = names_of(alloc, columns.as_slice())?;
    let rows = values_of(alloc, rows)?;
    let mut fitted = FittedRows::new(alloc);
    match package.get_table(name.as_str()) {
        Some(table) if has_all_values(table, names.as_slice(), rows.as_slice()) => {
            add_left_out(table, &mut names)?;
            let columns = valued_columns(alloc, table, names.as_slice())?;
            for row in rows {
                fitted.add(alloc, table, columns.as_slice(), row, files)?;
            }
        }
        Some(_) | None => fitted.rows = rows,
    }
    let FittedRows { rows, streams } = fitted;
    let insert = Insert::into(alloc, name.as_str())?
        .columns(names.as_slice())?
        .rows(rows)?;
    Ok(Fitted {
        statement: Statement::Insert(insert),
        streams: StatementStreams::OfRows(streams),
    })
}

/// Returns whether each row has a value for each column that an insert names, or for each of the table.
fn has_all_values(table: &Table, names: &[&str], rows: &[Vec<Value>]) -> bool {
    let wanted = if names.is_empty() {
        table.columns().len()
    } else {
        names.len()
    };
    rows.iter().all(|row| row.len() == wanted)
}

/// Adds the names of the columns of streams that are left out and take null, if columns are named: a row has no stream
/// there, which isn't stored in its cell.
fn add_left_out<'a>(table: &'a Table, names: &mut Vec<&'a str>) -> Result<(), AllocError> {
    if names.is_empty() {
        return Ok(());
    }
    for column in table.columns() {
        let name = column.name();
        if has_null_streams(column) && !names.iter().any(|other| *other == name) {
            names.push(name)?;
        }
    }
    Ok(())
}

/// The rows of an insert as their columns take them, and what becomes of their streams.
#[derive(Drop)]
struct FittedRows<'a> {
    rows: Vec<Vec<Value>>,
    streams: Vec<RowStream<'a>>,
}

impl<'a> FittedRows<'a> {
    fn new(alloc: Global) -> FittedRows<'a> {
        FittedRows {
            rows: Vec::new(alloc),
            streams: Vec::new(alloc),
        }
    }

    fn add(
        &mut self,
        alloc: Global,
        table: &Table,
        columns: &[&Column],
        values: Vec<Value>,
        files: &mut GivenFiles<'_, 'a>,
    ) -> Result<(), AllocError> {
        let mut row = Vec::with_capacity(alloc, columns.len())?;
        let mut given = GivenStream::Nothing;
        let mut left = values.into_iter();
        for column in columns {
            let value = left.next().unwrap_or(Value::Null);
            given = given.and(given_stream(column, &value, files));
            row.push(fitted_value(alloc, column, value)?)?;
        }
        if let Some(stream) = stream_of_row(alloc, table, columns, row.as_slice(), given)? {
            self.streams.push(stream)?;
        }
        self.rows.push(row)?;
        Ok(())
    }
}

fn stream_of_row<'a>(
    alloc: Global,
    table: &Table,
    columns: &[&Column],
    row: &[Value],
    given: GivenStream<'a>,
) -> Result<Option<RowStream<'a>>, AllocError> {
    match given {
        GivenStream::Nothing | GivenStream::AsItIs => Ok(None),
        GivenStream::Null | GivenStream::File(_) => {
            let name = row_stream_name(alloc, table, columns, row)?;
            Ok(Some(RowStream::new(name, given.file())))
        }
    }
}

/// Returns the name of the stream of a row: that of its table, and its key, with dots between them.
fn row_stream_name(
    alloc: Global,
    table: &Table,
    columns: &[&Column],
    row: &[Value],
) -> Result<String, AllocError> {
    let mut name = String::from_str(alloc, table.name())?;
    for key in table.columns() {
        if key.is_primary_key()
            && let Some(value) = value_of(columns, row, key.name())
        {
            name.push('.')?;
            push_key(ValueView::of(value), &mut name)?;
        }
    }
    Ok(name)
}

/// Returns the value that a row has in a column.
fn value_of<'a>(columns: &[&Column], row: &'a [Value], column: &str) -> Option<&'a Value> {
    let place = columns.iter().position(|other| other.name() == column)?;
    row.get(place)
}

fn fitted_update<'a>(
    alloc: Global,
    package: &Package<Opened>,
    update: Update,
    files: &mut GivenFiles<'_, 'a>,
) -> Result<Fitted<'a>, Error> {
    let UpdateParts {
        table: name,
        sets,
        condition,
    } = update_parts(update);
    let table = package.get_table(name.as_str());
    let mut fitted = FittedUpdate {
        update: Update::table(alloc, name.as_str())?,
        given: GivenStream::Nothing,
        sets_key: false,
    };
    for set in sets.into_vec() {
        let value = set.value().clone(alloc)?;
        fitted = fitted.set(
            alloc,
            column_named(table, set.column()),
            set.column(),
            value,
            files,
        )?;
    }
    let FittedUpdate {
        mut update,
        given,
        sets_key,
    } = fitted;
    if let Some(condition) = condition {
        update = update.with(condition)?;
    }
    let streams = updated_streams(alloc, name.as_str(), given, sets_key)?;
    Ok(Fitted {
        statement: Statement::Update(update),
        streams,
    })
}

fn updated_streams<'a>(
    alloc: Global,
    table: &str,
    given: GivenStream<'a>,
    sets_key: bool,
) -> Result<StatementStreams<'a>, AllocError> {
    match given {
        GivenStream::Nothing | GivenStream::AsItIs => Ok(StatementStreams::Kept),
        GivenStream::Null | GivenStream::File(_) => {
            Ok(StatementStreams::OfUpdate(UpdatedStreams {
                table: String::from_str(alloc, table)?,
                file: given.file(),
                sets_key,
            }))
        }
    }
}

/// An update with its values as their columns take them.
#[derive(Drop)]
struct FittedUpdate<'a> {
    update: Update,
    /// What it gives to the streams of its rows.
    given: GivenStream<'a>,
    sets_key: bool,
}

impl<'a> FittedUpdate<'a> {
    fn set(
        self,
        alloc: Global,
        column: Option<&Column>,
        name: &str,
        value: Value,
        files: &mut GivenFiles<'_, 'a>,
    ) -> Result<FittedUpdate<'a>, Error> {
        let FittedUpdate {
            update,
            given,
            sets_key,
        } = self;
        let Some(column) = column else {
            return Ok(FittedUpdate {
                update: update.set(name, value)?,
                given,
                sets_key,
            });
        };
        let given = given.and(given_stream(column, &value, files));
        Ok(FittedUpdate {
            update: update.set(name, fitted_value(alloc, column, value)?)?,
            given,
            sets_key: sets_key || column.is_primary_key(),
        })
    }
}

fn column_named<'a>(table: Option<&'a Table>, name: &str) -> Option<&'a Column> {
    table?.get_column(name)
}

/// Returns a value as a column takes it: a text that spells a number as that number, a number as its digits, and null
/// for a stream as a cell that has none by its name.
pub(crate) fn fitted_value(
    alloc: Global,
    column: &Column,
    value: Value,
) -> Result<Value, AllocError> {
    match column.coltype() {
        ColumnType::Int16 | ColumnType::Int32 => Ok(as_number(value)),
        ColumnType::Str(_) => as_text(alloc, value),
        ColumnType::Binary if value.is_null() && column.is_nullable() => Ok(Value::Binary),
        ColumnType::Binary => Ok(value),
    }
}

fn as_number(value: Value) -> Value {
    match value.as_str() {
        Some(text) => match spelled_number(text) {
            Some(number) => Value::Int(number),
            None => value,
        },
        None => value,
    }
}

/// Returns the number that a text spells: digits, with a minus sign in front of them or without.
fn spelled_number(text: &str) -> Option<i32> {
    let digits = text.strip_prefix('-').unwrap_or(text);
    if digits.is_empty() || !digits.chars().all(|c| c.is_ascii_digit()) {
        return None;
    }
    text.parse::<i32>().ok()
}

fn as_text(alloc: Global, value: Value) -> Result<Value, AllocError> {
    match value {
        Value::Int(number) => Ok(Value::Str(Text::from_string(format!(in alloc; "{number}")?))),
        Value::Null | Value::Str(_) | Value::Binary => Ok(value),
    }
}
