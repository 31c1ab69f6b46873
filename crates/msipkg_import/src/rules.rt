//! Rows of `_Validation`, which say more of columns.

use crate::rows::package_rows;
use crate::validation::VALIDATION;
use msipkg_import_files::GivenTable;
use msipkg_packages::msi::{Category, Column, Value};
use msipkg_packages::output::Failure;
use std::alloc::Global;

/// Returns the rows of `_Validation` among tables, with values for the columns that it has in the package. A value that
/// such a column doesn't take becomes null: other tools write such values, for example a list of tables to which a key
/// refers. Fails at a column that `_Validation` lacks.
pub(crate) fn rules_of(
    alloc: Global,
    columns: &[Column],
    tables: &[GivenTable],
) -> Result<Vec<Vec<Value>>, Failure> {
    let mut rules = Vec::new(alloc);
    for table in tables {
        if table.name.as_str() == VALIDATION {
            add_rules(alloc, columns, table, &mut rules)?;
        }
    }
    Ok(rules)
}

fn add_rules(
    alloc: Global,
    columns: &[Column],
    table: &GivenTable,
    rules: &mut Vec<Vec<Value>>,
) -> Result<(), Failure> {
    for row in package_rows(alloc, columns, table)? {
        let mut rule = row;
        forget_others(columns, rule.as_mut_slice());
        rules.push(rule)?;
    }
    Ok(())
}

/// Makes values null that columns don't take, except a category in another spelling.
fn forget_others(columns: &[Column], row: &mut [Value]) {
    for i in 0..row.len().min(columns.len()) {
        if !columns[i].is_valid_value(&row[i]) && !has_category(columns[i].name(), &row[i]) {
            row[i] = Value::Null;
        }
    }
}

/// Returns whether a value of a column of `_Validation` names a category. Other programs spell some differently, such
/// as `Guid`.
pub(crate) fn has_category(column: &str, value: &Value) -> bool {
    match value {
        Value::Str(text) => column == "Category" && text.as_str().parse::<Category>().is_ok(),
        Value::Null | Value::Int(_) | Value::Binary => false,
    }
}

/// Returns the row that is about a column, or an empty one where none is.
pub fn rule_about<'a>(rules: &'a [Vec<Value>], table: &str, column: &str) -> &'a [Value] {
    for rule in rules {
        if is_about(rule.as_slice(), table, column) {
            return rule.as_slice();
        }
    }
    &[]
}

fn is_about(rule: &[Value], table: &str, column: &str) -> bool {
    match rule {
        [Value::Str(of), Value::Str(name), ..] => of.as_str() == table && name.as_str() == column,
        _ => false,
    }
}
