//! `transform show T [BASE]`: what a transform adds, removes and changes.

use crate::base_rows::{BaseRow, BaseRows};
use crate::file::read_transform;
use crate::records::{COLUMNS, Given, TABLES, TableRecords, added_column, key_text, records_of};
use msi_transform::Transform;
use msi_transform_records::{Action, Record};
use msipkg_diff::{Change, Content, Difference, Member, Report, report_added_column};
use msipkg_format::{Failure, Opened, Output, Style, System};
use msipkg_packages::msi::{Column, Package, ValueView};
use msipkg_packages::{PackageFile, open_package};
use std::alloc::{AllocError, Global};

/// A transform that is shown, and the package whose columns and rows it is shown with.
#[derive(Clone, Copy)]
struct Shown<'a> {
    alloc: Global,
    transform: &'a Transform,
    base: Option<&'a Package<Opened>>,
}

impl<'a> Shown<'a> {
    fn new(
        alloc: Global,
        transform: &'a Transform,
        base: Option<&'a Package<Opened>>,
    ) -> Shown<'a> {
        Shown {
            alloc,
            transform,
            base,
        }
    }
}

/// A table of a transform that is shown, with its records, and the rows that it has in the package.
#[derive(Clone, Copy)]
struct ShownTable<'a> {
    shown: Shown<'a>,
    name: &'a str,
    records: &'a TableRecords,
    rows: Option<&'a BaseRows>,
}

impl<'a> ShownTable<'a> {
    fn new(
        shown: Shown<'a>,
        name: &'a str,
        records: &'a TableRecords,
        rows: Option<&'a BaseRows>,
    ) -> ShownTable<'a> {
        ShownTable {
            shown,
            name,
            records,
            rows,
        }
    }
}

/// Prints what a transform adds, removes and changes, as `diff` prints it. Beside a package each table is shown with
/// the columns and the old values of that; without one only the tables and columns, and the rows of tables that the
/// transform itself adds: of others it is shown how many bytes their records have.
///
/// # Errors
/// Fails if a file can't be read, at a malformed record, and if memory is refused.
pub fn show_transform<'a>(
    rt: &System,
    style: Style,
    transform: &'a str,
    base: Option<&PackageFile<'a>>,
    is_json: bool,
    output: &mut Output,
    notes: &mut Output,
) -> Result<(), Failure> {
    let path = base.map_or("", |file| file.path);
    let package = match base {
        Some(file) => Some(open_base(rt, file, notes)?),
        None => None,
    };
    let read = read_transform(rt, transform)?;
    let shown = Shown::new(rt.alloc(), &read.transform, package.as_ref());
    let mut report = Report::new(rt.alloc(), style, is_json, output);
    report.begin(&[("transform", transform), ("base", path)]);
    match report_all(&shown, &mut report) {
        Ok(()) => {
            report.end();
            Ok(())
        }
        Err(failure) => {
            report.end_failed(&failure);
            Err(failure)
        }
    }
}

fn open_base(
    rt: &System,
    file: &PackageFile<'_>,
    notes: &mut Output,
) -> Result<Package<Opened>, Failure> {
    match open_package(rt, file, notes) {
        Ok(package) => Ok(package),
        Err(failure) => Err(failure.at(rt.alloc(), "file", file.path)),
    }
}

/// The tables come first, then columns, then the rows of tables by name.
fn report_all(shown: &Shown<'_>, report: &mut Report<'_>) -> Result<(), Failure> {
    report_tables(shown, report)?;
    report_columns(shown, report)?;
    for (name, bytes) in shown.transform.tables() {
        match name.as_str() {
            TABLES | COLUMNS => {}
            table => report_table(shown, table, bytes.as_slice().len(), report)?,
        }
    }
    Ok(())
}

fn report_tables(shown: &Shown<'_>, report: &mut Report<'_>) -> Result<(), Failure> {
    let Some(listed) = records_of(shown.alloc, shown.base, shown.transform, TABLES)? else {
        return Ok(());
    };
    for record in &listed.records {
        let key = listed.key(shown.alloc, shown.transform, record)?;
        let name = key_text(shown.alloc, key.as_slice())?;
        report.add(&Difference {
            change: change_of(record),
            kind: "table",
            table: "",
            name: name.as_str(),
            old: &[],
            new: &[],
        });
    }
    Ok(())
}

fn change_of(record: &Record) -> Change {
    match record.action {
        Action::Add(_) => Change::Added,
        Action::Remove => Change::Removed,
        Action::Change(_) => Change::Changed,
    }
}

/// A record of `_Columns` that adds no column is shown by its key.
fn report_columns(shown: &Shown<'_>, report: &mut Report<'_>) -> Result<(), Failure> {
    let Some(described) = records_of(shown.alloc, shown.base, shown.transform, COLUMNS)? else {
        return Ok(());
    };
    for record in &described.records {
        match added_column(shown.alloc, shown.transform, &described, record)? {
            Some(added) if matches!(record.action, Action::Add(_)) => {
                report_added_column(added.table, &added.column, report)?;
            }
            Some(_) | None => report_key(shown, &described, record, report)?,
        }
    }
    Ok(())
}

fn report_key(
    shown: &Shown<'_>,
    described: &TableRecords,
    record: &Record,
    report: &mut Report<'_>,
) -> Result<(), Failure> {
    let key = described.key(shown.alloc, shown.transform, record)?;
    let name = key_text(shown.alloc, key.as_slice())?;
    report.add(&Difference {
        change: change_of(record),
        kind: "row",
        table: COLUMNS,
        name: name.as_str(),
        old: &[],
        new: &[],
    });
    Ok(())
}

/// Where the columns of a table aren't known, it is shown how many bytes its records have.
fn report_table(
    shown: &Shown<'_>,
    table: &str,
    bytes: usize,
    report: &mut Report<'_>,
) -> Result<(), Failure> {
    let Some(records) = records_of(shown.alloc, shown.base, shown.transform, table)? else {
        report_bytes(table, &[bytes_member(bytes)], report);
        return Ok(());
    };
    let rows = base_rows_of(shown, table)?;
    let shown_table = ShownTable::new(*shown, table, &records, rows.as_ref());
    for record in &records.records {
        report_row(&shown_table, record, report)?;
    }
    Ok(())
}

fn bytes_member(bytes: usize) -> Member<'static> {
    Member {
        name: "bytes",
        content: Content::count(bytes),
    }
}

fn report_bytes<'a>(table: &'a str, bytes: &'a [Member<'a>], report: &mut Report<'_>) {
    report.add(&Difference {
        change: Change::Changed,
        kind: "rows",
        table: "",
        name: table,
        old: &[],
        new: bytes,
    });
}

fn base_rows_of(shown: &Shown<'_>, table: &str) -> Result<Option<BaseRows>, Failure> {
    let Some(package) = shown.base else {
        return Ok(None);
    };
    match package.get_table(table) {
        Some(known) => Ok(Some(BaseRows::of(shown.alloc, package, known)?)),
        None => Ok(None),
    }
}

fn report_row(
    table: &ShownTable<'_>,
    record: &Record,
    report: &mut Report<'_>,
) -> Result<(), Failure> {
    let (alloc, columns) = (table.shown.alloc, table.records.columns.as_slice());
    let key = table.records.key(alloc, table.shown.transform, record)?;
    let given = table.records.given(alloc, table.shown.transform, record)?;
    let base = match table.rows {
        Some(rows) => rows.get(alloc, key.as_slice())?,
        None => None,
    };
    let old = old_values(alloc, columns, record, base, given.as_slice())?;
    let name = key_text(alloc, key.as_slice())?;
    report.add(&Difference {
        change: change_of(record),
        kind: "row",
        table: table.name,
        name: name.as_str(),
        old: members_of(alloc, columns, old.as_slice())?.as_slice(),
        new: members_of(alloc, columns, given.as_slice())?.as_slice(),
    });
    Ok(())
}

/// Returns what the package has: all values of a row that is removed, and those of the columns that are changed.
fn old_values<'a>(
    alloc: Global,
    columns: &[Column],
    record: &Record,
    base: Option<BaseRow<'a>>,
    given: &[Given<'_>],
) -> Result<Vec<Given<'a>>, AllocError> {
    let mut old = Vec::new(alloc);
    let Some(row) = base else {
        return Ok(old);
    };
    for place in 0..columns.len() {
        let is_shown = match record.action {
            Action::Add(_) => false,
            Action::Remove => true,
            Action::Change(_) => given.iter().any(|given| given.place == place),
        };
        if is_shown {
            let value = row.value(place);
            old.push(Given { place, value })?;
        }
    }
    Ok(old)
}

fn members_of<'a>(
    alloc: Global,
    columns: &'a [Column],
    given: &[Given<'a>],
) -> Result<Vec<Member<'a>>, AllocError> {
    let mut members = Vec::with_capacity(alloc, given.len())?;
    for given in given {
        if let Some(column) = columns.get(given.place) {
            members.push(Member {
                name: column.name(),
                content: content_of(given.value),
            })?;
        }
    }
    Ok(members)
}

fn content_of(value: ValueView<'_>) -> Content<'_> {
    match value {
        ValueView::Null => Content::Null,
        ValueView::Int(number) => Content::Number(i64::from(number)),
        ValueView::Str(text) => Content::Text(text),
        ValueView::Binary => Content::Stream,
    }
}
