//! What differs between the rows of two tables, and the rows of a table that one package alone has.

use crate::diff::Compared;
use crate::difference::{Change, Content, Difference, Member};
use crate::numbering::{Texts, content_of, numbered_rows};
use crate::report::Report;
use msi_table::{Difference as RowDifference, differences};
use msipkg_format::Shown;
use msipkg_looking::PackageView;
use msipkg_packages::msi::{Column, Error, Items, Row, Rows, Select, Table, Value, ValueView};
use msipkg_packages::output::{Failure, NullCells, push_key};
use msipkg_packages::{PackageTables, null_cells_of};
use std::alloc::{AllocError, Global};
use std::cmp::Ordering;

/// The rows of two tables, whose columns have the same names and keys, with the numbers of texts in their place.
#[derive(Clone, Copy)]
struct Pair<'a> {
    table: &'a str,
    texts: &'a Texts,
    old_columns: &'a [Column],
    new_columns: &'a [Column],
    old: &'a [Items<Value>],
    new: &'a [Items<Value>],
}

/// The null cells of the columns of streams of two tables.
struct PairNulls {
    old: NullCells,
    new: NullCells,
}

/// Written out, so that a function that owns one calls one drop, and its proof doesn't go through those of the parts.
impl Drop for PairNulls {
    fn drop(self) {
        let PairNulls { old: _, new: _ } = self;
    }
}

/// Compares the rows of a table by their keys. Where different rows of one package share a key, only how many rows
/// there are is shown.
pub(crate) fn compare_rows(
    old: &Compared<'_>,
    new: &Compared<'_>,
    table: &Table,
    other: &Table,
    report: &mut Report<'_>,
) -> Result<(), Failure> {
    let old_rows = rows_of_old(old, table, report.alloc)?;
    let new_rows = rows_of_new(new, other, report.alloc)?;
    let nulls = PairNulls {
        old: null_cells_of(report.alloc, &old.package, table)?,
        new: null_cells_of(report.alloc, &new.package, other)?,
    };
    if are_same(old_rows, new_rows, &nulls) {
        return Ok(());
    }
    let old_rows = rows_of_old(old, table, report.alloc)?;
    let new_rows = rows_of_new(new, other, report.alloc)?;
    match compare_numbered(table, other, old_rows, new_rows, &nulls, report) {
        Ok(()) => Ok(()),
        Err(failure) => Err(failure.at(report.alloc, "table", table.name())),
    }
}

fn rows_of_old<'a>(
    old: &'a Compared<'_>,
    table: &Table,
    alloc: Global,
) -> Result<Rows<'a>, Failure> {
    match selected(alloc, &old.package, table) {
        Ok(rows) => Ok(rows),
        Err(error) => Err(Failure::from(error).at(alloc, "table", table.name())),
    }
}

fn rows_of_new<'a>(
    new: &'a Compared<'_>,
    table: &Table,
    alloc: Global,
) -> Result<Rows<'a>, Failure> {
    match selected(alloc, &new.package, table) {
        Ok(rows) => Ok(rows),
        Err(error) => Err(failure_of_new(alloc, new.file, table.name(), error)),
    }
}

fn selected<'a>(alloc: Global, package: &'a PackageView, table: &Table) -> Result<Rows<'a>, Error> {
    package.select_rows(Select::table(alloc, table.name())?)
}

fn compare_numbered(
    table: &Table,
    other: &Table,
    old: Rows<'_>,
    new: Rows<'_>,
    nulls: &PairNulls,
    report: &mut Report<'_>,
) -> Result<(), Failure> {
    let mut texts = Texts::new(report.alloc);
    let old = numbered_rows(report.alloc, &mut texts, old, &nulls.old, other.columns())?;
    let new = numbered_rows(report.alloc, &mut texts, new, &nulls.new, table.columns())?;
    let pair = Pair {
        table: table.name(),
        texts: &texts,
        old_columns: table.columns(),
        new_columns: other.columns(),
        old: old.as_slice(),
        new: new.as_slice(),
    };
    compare_pair(&pair, report)
}

pub(crate) fn add_removed(
    old: &Compared<'_>,
    table: &Table,
    report: &mut Report<'_>,
) -> Result<(), Failure> {
    let rows = rows_of_old(old, table, report.alloc)?;
    let nulls = null_cells_of(report.alloc, &old.package, table)?;
    add_all_rows(Change::Removed, table, rows, &nulls, report)
}

pub(crate) fn add_added(
    new: &Compared<'_>,
    table: &Table,
    report: &mut Report<'_>,
) -> Result<(), Failure> {
    let rows = rows_of_new(new, table, report.alloc)?;
    let nulls = null_cells_of(report.alloc, &new.package, table)?;
    add_all_rows(Change::Added, table, rows, &nulls, report)
}

/// Returns the failure at a table of the new package, whose file has to be named.
fn failure_of_new(alloc: Global, file: &str, table: &str, error: Error) -> Failure {
    let file = Shown::escaped(file);
    match format!(in alloc; "file {file}: table") {
        Ok(kind) => Failure::from(error).at(alloc, kind.as_str(), table),
        Err(refused) => Failure::from(refused),
    }
}

fn compare_pair(pair: &Pair<'_>, report: &mut Report<'_>) -> Result<(), Failure> {
    if share_keys(report.alloc, pair.old_columns, pair.old)?
        || share_keys(report.alloc, pair.old_columns, pair.new)?
    {
        add_counts(pair, report);
        return Ok(());
    }
    add_differences(pair, report)
}

fn are_same(mut rows: Rows<'_>, mut others: Rows<'_>, nulls: &PairNulls) -> bool {
    if rows.len() != others.len() {
        return false;
    }
    for number in 0..rows.len() {
        if !are_same_next(&rows, &others, number, nulls) {
            return false;
        }
        rows.advance();
        others.advance();
    }
    true
}

fn are_same_next(rows: &Rows<'_>, others: &Rows<'_>, number: usize, nulls: &PairNulls) -> bool {
    (0..rows.columns().len()).all(|place| {
        let value = nulls.old.value_in(rows, number, place);
        let other = nulls.new.value_in(others, number, place);
        value.compare(other) == Ordering::Equal
    })
}

/// Returns whether different rows of a table share a key. Then one of them differs from the one that represents the
/// key.
fn share_keys(alloc: Global, columns: &[Column], rows: &[Items<Value>]) -> Result<bool, Error> {
    Ok(!differences(alloc, columns, rows, rows)?.is_empty())
}

fn add_counts(pair: &Pair<'_>, report: &mut Report<'_>) {
    report.add(&Difference {
        change: Change::Changed,
        kind: "table",
        table: "",
        name: pair.table,
        old: &[count_member(pair.old)],
        new: &[count_member(pair.new)],
    });
}

fn count_member(rows: &[Items<Value>]) -> Member<'static> {
    Member {
        name: "rows",
        content: Content::count(rows.len()),
    }
}

fn add_differences(pair: &Pair<'_>, report: &mut Report<'_>) -> Result<(), Failure> {
    let found = differences(report.alloc, pair.old_columns, pair.old, pair.new)?;
    for difference in &found {
        let made = add_difference(pair, *difference, report);
        report.keep(made);
    }
    Ok(())
}

fn add_difference(
    pair: &Pair<'_>,
    difference: RowDifference,
    report: &mut Report<'_>,
) -> Result<(), AllocError> {
    match difference {
        RowDifference::Removed(place) => {
            add_rows(
                pair,
                Change::Removed,
                values_at(pair.old, place),
                &[],
                report,
            )
        }
        RowDifference::Changed(place, there) => {
            let (old, new) = (values_at(pair.old, place), values_at(pair.new, there));
            add_rows(pair, Change::Changed, old, new, report)
        }
        RowDifference::Added(place) => {
            add_rows(pair, Change::Added, &[], values_at(pair.new, place), report)
        }
    }
}

fn values_at(rows: &[Items<Value>], place: usize) -> &[Value] {
    match rows.get(place) {
        Some(row) => row.as_slice(),
        None => &[],
    }
}

/// Adds two rows of one key, or one that is alone, and then the other has no values.
fn add_rows(
    pair: &Pair<'_>,
    change: Change,
    old: &[Value],
    new: &[Value],
    report: &mut Report<'_>,
) -> Result<(), AllocError> {
    let old_members = members_of(report.alloc, pair.texts, pair.old_columns, old)?;
    let new_members = members_of(report.alloc, pair.texts, pair.new_columns, new)?;
    let keyed = if old.is_empty() {
        &new_members
    } else {
        &old_members
    };
    let key = key_text(report.alloc, pair.old_columns, keyed.as_slice())?;
    report.add(&Difference {
        change,
        kind: "row",
        table: pair.table,
        name: key.as_str(),
        old: beside(report.alloc, &old_members, old, new)?.as_slice(),
        new: beside(report.alloc, &new_members, new, old)?.as_slice(),
    });
    Ok(())
}

fn members_of<'a>(
    alloc: Global,
    texts: &'a Texts,
    columns: &'a [Column],
    row: &'a [Value],
) -> Result<Vec<Member<'a>>, AllocError> {
    let mut members = Vec::with_capacity(alloc, row.len())?;
    for (column, value) in columns.iter().zip(row.iter()) {
        members.push(Member {
            name: column.name(),
            content: content_of(texts, column, value),
        })?;
    }
    Ok(members)
}

/// Returns the members of a row whose values another row doesn't have.
fn beside<'a>(
    alloc: Global,
    members: &[Member<'a>],
    row: &[Value],
    other: &[Value],
) -> Result<Vec<Member<'a>>, AllocError> {
    let mut differing = Vec::new(alloc);
    for i in 0..members.len().min(row.len()) {
        if other.get(i) != Some(&row[i]) {
            differing.push(members[i])?;
        }
    }
    Ok(differing)
}

fn key_text(
    alloc: Global,
    columns: &[Column],
    members: &[Member<'_>],
) -> Result<String, AllocError> {
    let mut text = String::new(alloc);
    let mut is_first = true;
    for (column, member) in columns.iter().zip(members.iter()) {
        if column.is_primary_key() {
            if !is_first {
                text.push('/')?;
            }
            is_first = false;
            push_content(member.content, &mut text)?;
        }
    }
    Ok(text)
}

fn push_content(content: Content<'_>, text: &mut String) -> Result<(), AllocError> {
    match content {
        Content::Value(value) => push_key(ValueView::of(value), text),
        Content::Text(value) | Content::Json(value) => text.push_str(value),
        Content::Null | Content::Number(_) | Content::Truth(_) | Content::Stream => Ok(()),
    }
}

fn add_all_rows(
    change: Change,
    table: &Table,
    rows: Rows<'_>,
    nulls: &NullCells,
    report: &mut Report<'_>,
) -> Result<(), Failure> {
    let mut number = 0usize;
    for row in rows {
        add_row(change, table, &row?, number, nulls, report)?;
        number = number.saturating_add(1);
    }
    Ok(())
}

fn add_row<'a>(
    change: Change,
    table: &'a Table,
    row: &'a Row,
    number: usize,
    nulls: &NullCells,
    report: &mut Report<'_>,
) -> Result<(), AllocError> {
    let members = row_members(report.alloc, table.columns(), row, number, nulls)?;
    let key = key_text(report.alloc, table.columns(), members.as_slice())?;
    let none = Vec::new(report.alloc);
    let (old, new) = match change {
        Change::Added => (none, members),
        Change::Removed | Change::Changed => (members, none),
    };
    report.add(&Difference {
        change,
        kind: "row",
        table: table.name(),
        name: key.as_str(),
        old: old.as_slice(),
        new: new.as_slice(),
    });
    Ok(())
}

fn row_members<'a>(
    alloc: Global,
    columns: &'a [Column],
    row: &'a Row,
    number: usize,
    nulls: &NullCells,
) -> Result<Vec<Member<'a>>, AllocError> {
    let mut members = Vec::with_capacity(alloc, row.len())?;
    for i in 0..row.len().min(columns.len()) {
        members.push(Member {
            name: columns[i].name(),
            content: if nulls.has(number, i) {
                Content::Null
            } else {
                Content::Value(&row[i])
            },
        })?;
    }
    Ok(members)
}
