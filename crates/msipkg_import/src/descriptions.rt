//! Descriptions of columns for people, which `_Validation` has.

use crate::validation::VALIDATION;
use msipkg_packages::msi::{Error, Expr, Package, Update, Value};
use msipkg_packages::output::{Failure, Opened};
use std::alloc::Global;

pub(crate) fn describe(
    alloc: Global,
    package: &mut Package<Opened>,
    rules: &[Vec<Value>],
) -> Result<(), Failure> {
    for rule in rules {
        describe_column(alloc, package, rule.as_slice())?;
    }
    Ok(())
}

/// Describes the column that a row is about, if the table exists and the row has a text for that.
fn describe_column(
    alloc: Global,
    package: &mut Package<Opened>,
    rule: &[Value],
) -> Result<(), Failure> {
    let [Value::Str(table), Value::Str(column), .., Value::Str(text)] = rule else {
        return Ok(());
    };
    let (table, column) = (table.as_str(), column.as_str());
    if !package.has_table(table) {
        return Ok(());
    }
    match package.update_rows(update(alloc, table, column, text.as_str())?) {
        Ok(()) => Ok(()),
        Err(error) => Err(Failure::from(error).at(alloc, "table", table)),
    }
}

fn update(alloc: Global, table: &str, column: &str, text: &str) -> Result<Update, Error> {
    let text = Value::from_text(alloc, text)?;
    let is_about = is_equal(alloc, "Table", table)?.and(alloc, is_equal(alloc, "Column", column)?)?;
    Update::table(alloc, VALIDATION)?
        .set("Description", text)?
        .with(is_about)
}

fn is_equal(alloc: Global, column: &str, text: &str) -> Result<Expr, Error> {
    Expr::col(alloc, column)?.eq(alloc, Expr::string(alloc, text)?)
}
