//! Changes of the rows of `_Validation`, which the library bars: they are made in a table beside the package, and then
//! the package is made anew with columns as the rows describe them.

use msipkg_format::{Shown, said};
use msipkg_import::VALIDATION;
use msipkg_import::losses::{Descriptions, is_held};
use msipkg_import::rows::columns_of;
use msipkg_import::rules::rule_about;
use msipkg_import::validation::{copied_rows, make_anew};
use msipkg_packages::msi::{Column, Error, Insert, Package, Row, Statement, Value};
use msipkg_packages::new_package;
use msipkg_packages::output::{Failure, Opened};
use msipkg_statements::moved_statement;
use std::alloc::{AllocError, Global};

/// The table in which the rows are changed.
const RULES: &str = "Rules";

/// Changes rows of `_Validation` by a statement. An insert replaces what the package says of a column by itself.
///
/// # Errors
/// Fails as the statement and making the package anew do, if the package is signed, at a row that the columns don't
/// agree with, and at a row that is deleted although its column is there. Then the package is to be dropped.
pub(crate) fn change_validation(
    alloc: Global,
    package: &mut Package<Opened>,
    statement: Statement,
) -> Result<(), Failure> {
    if package.has_digital_signature() {
        return Err(Failure::rule("its digital signature would be lost; remove it first"));
    }
    let old = copied_rows(alloc, package, VALIDATION)?;
    let new = changed_rows(alloc, package, statement)?;
    make_anew(alloc, package, new.as_slice())?;
    check_held(alloc, package, new.as_slice())?;
    check_deleted(alloc, package, old.as_slice(), new.as_slice())
}

/// Returns the rows of `_Validation` as a statement changes them.
fn changed_rows(
    alloc: Global,
    package: &Package<Opened>,
    statement: Statement,
) -> Result<Vec<Vec<Value>>, Failure> {
    let mut rules = new_package(alloc, package.package_type())?;
    rules.create_table(
        RULES,
        copied_columns(alloc, columns_of(package, VALIDATION))?,
    )?;
    let rows = match statement {
        Statement::Insert(_) => telling_rows(alloc, package)?,
        Statement::Select(_) | Statement::Update(_) | Statement::Delete(_) => {
            copied_rows(alloc, package, VALIDATION)?
        }
    };
    rules.insert_rows(Insert::into(alloc, RULES)?.rows(rows)?)?;
    change_rules(&mut rules, moved_statement(alloc, RULES, statement)?)?;
    copied_rows(alloc, &rules, RULES)
}

fn copied_columns(alloc: Global, columns: &[Column]) -> Result<Vec<Column>, Error> {
    let mut copies = Vec::with_capacity(alloc, columns.len())?;
    for column in columns {
        copies.push(column.clone(alloc)?)?;
    }
    Ok(copies)
}

/// Returns the rows that say more of a column than whether it takes null.
fn telling_rows(alloc: Global, package: &Package<Opened>) -> Result<Vec<Vec<Value>>, Failure> {
    let mut rows = Vec::new(alloc);
    for row in copied_rows(alloc, package, VALIDATION)? {
        if !says_nothing(row.as_slice()) {
            rows.push(row)?;
        }
    }
    Ok(rows)
}

fn change_rules(rules: &mut Package<Opened>, statement: Statement) -> Result<(), Error> {
    match statement {
        Statement::Select(_) => Ok(()),
        Statement::Insert(insert) => rules.insert_rows(insert),
        Statement::Update(update) => rules.update_rows(update),
        Statement::Delete(delete) => rules.delete_rows(delete),
    }
}

/// Fails at the first row that a package doesn't have.
fn check_held(
    alloc: Global,
    package: &Package<Opened>,
    rows: &[Vec<Value>],
) -> Result<(), Failure> {
    let held = Descriptions::of(alloc, package)?;
    for row in rows {
        let (table, column) = names_of(row.as_slice());
        match held.about(table, column)? {
            Some(stored) => {
                if let Some(cell) = lost_cell(package, row.as_slice(), stored) {
                    return Err(said(cell_fault(alloc, table, column, cell)));
                }
            }
            None => return Err(said(row_fault(alloc, table, column, "there is no such column"))),
        }
    }
    Ok(())
}

/// Returns the name of the first column of `_Validation` in which a row differs from the one that is stored.
fn lost_cell<'a>(package: &'a Package<Opened>, row: &[Value], stored: &Row) -> Option<&'a str> {
    let columns = columns_of(package, VALIDATION);
    for i in 0..stored.len() {
        if let (Some(column), Some(value)) = (columns.get(i), row.get(i))
            && !is_held(column.name(), value, &stored[i])
        {
            return Some(column.name());
        }
    }
    None
}

/// Fails at the first row that isn't there any more although its column is: each column has a row.
fn check_deleted(
    alloc: Global,
    package: &Package<Opened>,
    old: &[Vec<Value>],
    new: &[Vec<Value>],
) -> Result<(), Failure> {
    for row in old {
        let (table, column) = names_of(row.as_slice());
        let is_deleted = rule_about(new, table, column).is_empty();
        if is_deleted && !says_nothing(row.as_slice()) && has_column(package, table, column) {
            return Err(said(row_fault(alloc, table, column, "its column is still there")));
        }
    }
    Ok(())
}

fn says_nothing(row: &[Value]) -> bool {
    row.iter().skip(3).all(|value| value.is_null())
}

fn has_column(package: &Package<Opened>, table: &str, column: &str) -> bool {
    match package.get_table(table) {
        Some(table) => table.has_column(column),
        None => false,
    }
}

/// Returns the table and the column that a row is about.
fn names_of(row: &[Value]) -> (&str, &str) {
    match row {
        [Value::Str(table), Value::Str(column), ..] => (table.as_str(), column.as_str()),
        _ => ("", ""),
    }
}

fn row_fault(alloc: Global, table: &str, column: &str, fault: &str) -> Result<String, AllocError> {
    let (table, column) = (Shown::escaped(table), Shown::escaped(column));
    format!(in alloc; "_Validation: row {table}/{column}: {fault}")
}

fn cell_fault(alloc: Global, table: &str, column: &str, cell: &str) -> Result<String, AllocError> {
    let (table, column, cell) = (
        Shown::escaped(table),
        Shown::escaped(column),
        Shown::escaped(cell),
    );
    format!(in alloc;
        "_Validation: row {table}/{column}: its {cell} isn't what the column can have"
    )
}
