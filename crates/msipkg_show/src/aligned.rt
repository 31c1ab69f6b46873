//! Rows under the names of their columns, aligned. They are gone over twice, for the widths of the columns and to be
//! written, so that none of their texts is copied.

use msipkg_format::{Style, Widths};
use msipkg_packages::msi::{Column, Rows, ValueView};
use msipkg_packages::output::{NullCells, Output, value_width, write_value};
use std::alloc::{AllocError, Global};

/// Goes over all rows that are left.
pub(crate) fn widths_of(
    alloc: Global,
    style: Style,
    rows: &mut Rows<'_>,
    nulls: &NullCells,
) -> Result<Widths, AllocError> {
    let mut widths = Widths::new(alloc, rows.columns().len())?;
    widen_by_names(style, rows.columns(), nulls, &mut widths);
    for number in 0..rows.len() {
        widen_by_row(style, rows, number, nulls, &mut widths);
        rows.advance();
    }
    Ok(widths)
}

fn widen_by_names(style: Style, columns: &[Column], nulls: &NullCells, widths: &mut Widths) {
    for place in 0..columns.len() {
        widths.widen(place, style.width(nulls.name_of(columns, place)));
    }
}

fn widen_by_row<'a>(
    style: Style,
    rows: &'a Rows<'_>,
    number: usize,
    nulls: &'a NullCells,
    widths: &mut Widths,
) {
    for place in 0..rows.columns().len() {
        match nulls.shown_in(rows, number, place) {
            ValueView::Str(text) => widths.widen_by_text(place, style, text),
            value => widths.widen(place, value_width(style, value)),
        }
    }
}

/// Writes nothing if there are no columns.
pub(crate) fn write_aligned(
    style: Style,
    widths: &Widths,
    mut rows: Rows<'_>,
    nulls: &NullCells,
    output: &mut Output,
) {
    if rows.columns().is_empty() {
        return;
    }
    write_names(style, widths, rows.columns(), nulls, output);
    widths.write_dashes(output);
    for number in 0..rows.len() {
        write_row(style, widths, &rows, number, nulls, output);
        rows.advance();
    }
}

fn write_names(
    style: Style,
    widths: &Widths,
    columns: &[Column],
    nulls: &NullCells,
    output: &mut Output,
) {
    for place in 0..columns.len() {
        let name = nulls.name_of(columns, place);
        style.print(name, output);
        widths.fill_up(place, style.width(name), output);
    }
    output.push_str("\n");
}

/// Writes the values of the next row. The last one isn't filled up, so its width isn't asked for.
fn write_row<'a>(
    style: Style,
    widths: &Widths,
    rows: &'a Rows<'_>,
    number: usize,
    nulls: &'a NullCells,
    output: &mut Output,
) {
    let count = rows.columns().len();
    for place in 0..count {
        let value = nulls.shown_in(rows, number, place);
        write_value(style, value, output);
        if place + 1 < count {
            widths.fill_up(place, value_width(style, value), output);
        }
    }
    output.push_str("\n");
}
