//! Prints what a query selects.

use crate::answers::Answer;
use crate::failure::Failure;
use msi_base::errors::Error;
use msi_query_expressions::expr::Expr;
use msi_query_expressions::parts::knows_names;
use msi_table::{Column, Row, Rows};
use std::alloc::Global;

/// The failure where there are other rows than their number says, or rows behind one that can't be made.
const MISCOUNTED: Failure = Failure::Unreadable("there are other rows than was said");

/// Prints rows, each as a line. Behind one that can't be made there is none. Fails as that one does, where there are
/// other rows than their number says, and if memory runs out.
pub fn print_rows(answer: &mut Answer, mut rows: Rows) -> Result<(), Failure> {
    if rows.len() == 0 {
        answer.push_str("no rows");
    }
    for _ in 0..rows.len() {
        match rows.next() {
            Some(Ok(row)) => print_row(answer, &row),
            Some(Err(error)) if rows.next().is_none() => return Err(Failure::from(error)),
            _ => return Err(MISCOUNTED),
        }
    }
    Ok(())
}

fn print_row(answer: &mut Answer, row: &Row) {
    for i in 0..row.len() {
        let before = if i == 0 { "" } else { " " };
        write!(answer, "{before}{}", row[i]);
    }
    answer.push_str("\n");
}

/// Prints the names of columns, with a question mark behind those that take null.
pub fn print_names(answer: &mut Answer, columns: &[Column]) {
    let mut before = "";
    for column in columns {
        let mark = if column.is_nullable() { "?" } else { "" };
        write!(answer, "{before}{}{mark}", column.name());
        before = " ";
    }
}

/// Prints what an expression is worth on each row, each as a line; for an expression that names a column which the rows
/// don't have, that there is no such column. Fails as a row that can't be made, and if memory runs out.
pub fn print_worths(
    alloc: Global,
    answer: &mut Answer,
    expression: &Expr,
    rows: Rows,
) -> Result<(), Error> {
    for row in rows {
        let row = row?;
        if knows_names(expression, row.columns()) {
            writeln!(answer, "{}", expression.eval(alloc, &row)?);
        } else {
            answer.push_str("no such column\n");
        }
    }
    Ok(())
}

/// Prints how many rows of a query are left, and the value of a column in a copy of the next one, until none is left.
/// Fails as a row that can't be made, where there are other rows than their number says, and if memory runs out.
pub fn print_values(
    alloc: Global,
    answer: &mut Answer,
    name: &str,
    mut rows: Rows,
) -> Result<(), Failure> {
    for _ in 0..rows.len() {
        write!(answer, "{} ", rows.len());
        match rows.next() {
            Some(row) => print_value(answer, &row?.clone(alloc)?, name),
            None => return Err(MISCOUNTED),
        }
    }
    write!(answer, "{}", rows.len());
    match rows.next() {
        Some(_) => Err(MISCOUNTED),
        None => Ok(()),
    }
}

fn print_value(answer: &mut Answer, row: &Row, name: &str) {
    if row.has_column(name) {
        writeln!(answer, "{}", row[name]);
    } else {
        answer.push_str("no such column\n");
    }
}
