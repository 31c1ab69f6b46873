//! Empty texts that are stored, which other programs take for free places of the string pool: they become null.

use msipkg_packages::is_list;
use msipkg_packages::msi::{
    ColumnType, Error, ErrorKind, Expr, Package, Rows, Select, Table, Update, Value, ValueView,
};
use msipkg_packages::output::{Failure, Opened};
use std::alloc::{AllocError, Global};

/// A column with empty texts that takes null.
struct Emptied {
    table: String,
    column: String,
    /// How many empty texts it has.
    count: usize,
}

/// Written out, so that a function that owns one calls one drop, and its proof doesn't go through those of the parts.
impl Drop for Emptied {
    fn drop(self) {
        let Emptied {
            table: _,
            column: _,
            count: _,
        } = self;
    }
}

/// Makes the empty texts of a package null where their columns take null, and returns how many there were. They stay
/// where two rows would share a key then.
pub(crate) fn empty_texts(alloc: Global, package: &mut Package<Opened>) -> Result<usize, Failure> {
    let mut found = Vec::new(alloc);
    for table in package.tables() {
        if !is_list(table) {
            find_columns(alloc, package, table, &mut found)?;
        }
    }
    empty_columns(alloc, package, found.as_slice())
}

/// Finds the columns of a table that have empty texts and take null. A table that can't be read has none.
fn find_columns(
    alloc: Global,
    package: &Package<Opened>,
    table: &Table,
    found: &mut Vec<Emptied>,
) -> Result<(), Failure> {
    for column in table.columns() {
        if !column.is_nullable() || !matches!(column.coltype(), ColumnType::Str(_)) {
            continue;
        }
        let count = count_of(alloc, package, table.name(), column.name())?;
        if count > 0 {
            found.push(emptied_column(alloc, table.name(), column.name(), count)?)?;
        }
    }
    Ok(())
}

fn emptied_column(
    alloc: Global,
    table: &str,
    column: &str,
    count: usize,
) -> Result<Emptied, AllocError> {
    Ok(Emptied {
        table: String::from_str(alloc, table)?,
        column: String::from_str(alloc, column)?,
        count,
    })
}

fn count_of(
    alloc: Global,
    package: &Package<Opened>,
    table: &str,
    column: &str,
) -> Result<usize, Failure> {
    let query = Select::table(alloc, table)?.columns(&[column])?;
    match package.select_rows(query) {
        Ok(rows) => Ok(count_empty(rows)),
        Err(error) => passed_over(error),
    }
}

/// Returns how many rows have an empty text as their only value.
fn count_empty(mut rows: Rows<'_>) -> usize {
    let mut count = 0usize;
    for _ in 0..rows.len() {
        if let Some(ValueView::Str(text)) = rows.get(0)
            && text.is_empty()
        {
            count = count.saturating_add(1);
        }
        rows.advance();
    }
    count
}

fn empty_columns(
    alloc: Global,
    package: &mut Package<Opened>,
    columns: &[Emptied],
) -> Result<usize, Failure> {
    let mut count = 0usize;
    for column in columns {
        count = count.saturating_add(empty_column(alloc, package, column)?);
    }
    Ok(count)
}

fn empty_column(
    alloc: Global,
    package: &mut Package<Opened>,
    column: &Emptied,
) -> Result<usize, Failure> {
    match package.update_rows(update_of(alloc, column)?) {
        Ok(()) => Ok(column.count),
        Err(error) => passed_over(error),
    }
}

fn update_of(alloc: Global, column: &Emptied) -> Result<Update, Error> {
    let name = column.column.as_str();
    let empty = Expr::string(alloc, "")?;
    let condition = Expr::col(alloc, name)?.eq(alloc, empty)?;
    Update::table(alloc, column.table.as_str())?
        .set(name, Value::Null)?
        .with(condition)
}

/// Returns 0 if a call failed for another reason than memory.
fn passed_over(error: Error) -> Result<usize, Failure> {
    if error.kind() == ErrorKind::OutOfMemory {
        return Err(Failure::from(error));
    }
    Ok(0)
}
