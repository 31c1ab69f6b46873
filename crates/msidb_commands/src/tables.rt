//! `tables FILE` and `rows FILE TABLE`.

use crate::lines::Lines;
use crate::packages;
use msi::{Column, Error, Row, Rows, Select, Table};
use std::alloc::Global;
use std::io::Write;

pub(crate) fn print_tables<O: Write>(
    rt: &HostRuntime,
    file: &str,
    output: &mut O,
) -> Result<(), Error> {
    let mut view = packages::look(rt, file)?;
    lines_of(rt.alloc(), view.tables()?).end(output)
}

fn lines_of(alloc: Global, tables: &[Table]) -> Lines {
    let mut lines = Lines::new(alloc);
    for table in tables {
        lines.push_str(table.name());
        lines.push_str("\n");
    }
    lines
}

pub(crate) fn print_rows<O: Write>(
    rt: &HostRuntime,
    file: &str,
    table: &str,
    output: &mut O,
) -> Result<(), Error> {
    let mut view = packages::look(rt, file)?;
    let query = Select::table(rt.alloc(), table)?;
    let rows = view.select_rows(&query)?;
    let mut lines = Lines::new(rt.alloc());
    write_columns(rows.columns(), &mut lines);
    write_rows(rows, &mut lines, output)?;
    lines.end(output)
}

/// Writes each row as it is made, so that only one at a time has its texts in memory of its own.
fn write_rows<W: Write>(rows: Rows<'_>, lines: &mut Lines, output: &mut W) -> Result<(), Error> {
    for row in rows {
        write_row(&row?, lines);
        if lines.are_many() {
            lines.hand_on(output)?;
        }
    }
    Ok(())
}

fn write_columns(columns: &[Column], lines: &mut Lines) {
    let mut before = "";
    for column in columns {
        lines.push_str(before);
        lines.push_str(column.name());
        before = "\t";
    }
    lines.push_str("\n");
}

fn write_row(row: &Row, lines: &mut Lines) {
    let mut before = "";
    for i in 0..row.len() {
        lines.push_str(before);
        write!(lines, "{}", &row[i]);
        before = "\t";
    }
    lines.push_str("\n");
}
