//! Streams that no row names, and rows whose stream isn't there.

use crate::reading::pass_over;
use crate::report::{Place, Report};
use crate::shown::{Cut, row_name};
use msipkg_looking::PackageView;
use msipkg_packages::msi::{ColumnType, Rows, Select, Table, ValueView};
use msipkg_packages::output::{Failure, stream_name};
use msipkg_packages::{PackageTables, has_null_streams};
use std::alloc::{AllocError, Global};
use std::collections::BTreeSet;
use std::fmt::{self, Display};

/// The table that names cabinets.
const MEDIA: &str = "Media";

/// Finds the rows whose stream doesn't exist, and the streams that no row names. A row with a stream names it after its
/// table and its key, such as `Icon.App`, and a row of `Media` names a cabinet behind a `#`.
pub(crate) fn check_streams(
    alloc: Global,
    package: &PackageView,
    report: &mut Report<'_>,
) -> Result<(), Failure> {
    let mut names = BTreeSet::new(alloc);
    let mut named = Named {
        alloc,
        package,
        names: &mut names,
    };
    named.add_all(report)?;
    check_unnamed(package, &names, report)
}

fn check_unnamed(
    package: &PackageView,
    names: &BTreeSet<String>,
    report: &mut Report<'_>,
) -> Result<(), Failure> {
    for name in &package.stream_names()? {
        check_stream(package, names, name.as_str(), report);
    }
    Ok(())
}

/// Adds an error if a stream isn't found under its name, or if its name isn't among these.
fn check_stream(
    package: &PackageView,
    names: &BTreeSet<String>,
    name: &str,
    report: &mut Report<'_>,
) {
    let message = if !package.has_stream(name) {
        "it isn't found under its name, which is stored in another form"
    } else if !names.contains(name) {
        "no row names it"
    } else {
        return;
    };
    report.add(Place::Stream(name), &message);
}

/// The streams that are there and that rows name, on their way. Other names aren't held.
#[derive(Drop)]
struct Named<'a> {
    alloc: Global,
    package: &'a PackageView,
    names: &'a mut BTreeSet<String>,
}

impl Named<'_> {
    fn add_all(&mut self, report: &mut Report<'_>) -> Result<(), Failure> {
        for table in self.package.tables() {
            if has_stream_column(table) {
                self.add_table(table, report)?;
            }
        }
        self.add_cabinets(report)
    }

    fn add_table(&mut self, table: &Table, report: &mut Report<'_>) -> Result<(), Failure> {
        match self
            .package
            .select_rows(Select::table(self.alloc, table.name())?)
        {
            Ok(rows) => Ok(self.add_rows(table.name(), rows, report)?),
            Err(error) => pass_over(error),
        }
    }

    fn add_rows(
        &mut self,
        table: &str,
        mut rows: Rows<'_>,
        report: &mut Report<'_>,
    ) -> Result<(), AllocError> {
        for number in 0..rows.len() {
            self.add_row(table, number.saturating_add(1), &rows, report)?;
            rows.advance();
        }
        Ok(())
    }

    /// Adds the stream of the next row. A missing one is an error if the row needs it.
    fn add_row(
        &mut self,
        table: &str,
        number: usize,
        rows: &Rows<'_>,
        report: &mut Report<'_>,
    ) -> Result<(), AllocError> {
        let Some(stream) = stream_name(self.alloc, table, rows)? else {
            return self.add_unnamable(table, number, rows, report);
        };
        if self.package.has_stream(stream.as_str()) {
            self.names.insert(stream)?;
            return Ok(());
        }
        if needs_stream(rows) {
            let row = row_name(self.alloc, rows, number)?;
            let row = row.as_str();
            report.add(Place::Row { table, row }, &Missing(stream.as_str()));
        }
        Ok(())
    }

    /// Adds the error of a row whose stream would have too long a name, if the row needs it.
    fn add_unnamable(
        &self,
        table: &str,
        number: usize,
        rows: &Rows<'_>,
        report: &mut Report<'_>,
    ) -> Result<(), AllocError> {
        if needs_stream(rows) {
            let row = row_name(self.alloc, rows, number)?;
            let row = row.as_str();
            report.add(
                Place::Row { table, row },
                &"its stream isn't there, since the name would be too long",
            );
        }
        Ok(())
    }

    fn add_cabinets(&mut self, report: &mut Report<'_>) -> Result<(), Failure> {
        let query = Select::table(self.alloc, MEDIA)?.columns(&["Cabinet", "DiskId"])?;
        match self.package.select_rows(query) {
            Ok(rows) => Ok(self.add_cabinet_rows(rows, report)?),
            Err(error) => pass_over(error),
        }
    }

    fn add_cabinet_rows(
        &mut self,
        mut rows: Rows<'_>,
        report: &mut Report<'_>,
    ) -> Result<(), AllocError> {
        for number in 0..rows.len() {
            self.add_cabinet(number.saturating_add(1), &rows, report)?;
            rows.advance();
        }
        Ok(())
    }

    /// Adds the cabinet behind a `#` in the next row's first value, if there is one.
    fn add_cabinet(
        &mut self,
        number: usize,
        rows: &Rows<'_>,
        report: &mut Report<'_>,
    ) -> Result<(), AllocError> {
        let Some(ValueView::Str(text)) = rows.get(0) else {
            return Ok(());
        };
        let Some(name) = text.strip_prefix('#') else {
            return Ok(());
        };
        if self.package.has_stream(name) {
            self.names.insert(String::from_str(self.alloc, name)?)?;
            return Ok(());
        }
        let row = row_name(self.alloc, rows, number)?;
        let cell = Place::Cell {
            table: MEDIA,
            row: row.as_str(),
            column: "Cabinet",
        };
        report.add(cell, &Missing(name));
        Ok(())
    }
}

/// A stream that isn't there.
#[derive(Clone, Copy)]
struct Missing<'a>(&'a str);

impl Display for Missing<'_> {
    fn fmt<W: fmt::Write>(&self, f: &mut fmt::Formatter<W>) -> fmt::Result {
        write!(f, "its stream {} isn't there", Cut(self.0))
    }
}

fn has_stream_column(table: &Table) -> bool {
    for column in table.columns() {
        if matches!(column.coltype(), ColumnType::Binary) {
            return true;
        }
    }
    false
}

/// Returns whether the next row needs a stream: one of its columns of streams doesn't take null.
fn needs_stream(rows: &Rows<'_>) -> bool {
    for column in rows.columns() {
        if matches!(column.coltype(), ColumnType::Binary) && !has_null_streams(column) {
            return true;
        }
    }
    false
}
