//! Statements carried out on a package.

use crate::describing::change_validation;
use crate::outcome::Carried;
use msipkg_format::{Shown, said};
use msipkg_import::VALIDATION;
use msipkg_packages::msi::parts::{deleted_rows, row_count, updated_rows};
use msipkg_packages::msi::{Error, Package, Statement};
use msipkg_packages::output::{Failure, Opened, System};
use msipkg_queries::{Written, stream_files};
use msipkg_statements::definition::Definition;
use msipkg_statements::stream_changes::{fill_streams, streams_met};
use msipkg_statements::{Fitted, explained, fitted_statement};
use std::alloc::Global;

/// Carries out a change of rows and of their streams, and returns what it did. The rows are counted first, but why that
/// fails is reported last.
pub(crate) fn apply_rows(
    rt: &System,
    package: &mut Package<Opened>,
    statement: Statement,
    written: Written<'_>,
) -> Result<Carried, Failure> {
    let alloc = rt.alloc();
    let files = stream_files(alloc, written)?;
    let Fitted { statement, streams } = fitted_statement(
        alloc,
        package,
        statement,
        files.as_slice(),
    )?;
    let carried = counted(package, &statement);
    let streams = streams_met(alloc, package, &statement, streams);
    match apply_statement(package, statement) {
        Ok(()) => {
            fill_streams(rt, package, streams?.as_slice())?;
            Ok(carried?)
        }
        Err(failure) => Err(explained(alloc, package, written, failure)),
    }
}

/// Carries out a change of what `_Validation` says of columns, if the package has it.
pub(crate) fn apply_columns(
    rt: &System,
    package: &mut Package<Opened>,
    statement: Statement,
    written: Written<'_>,
) -> Result<Carried, Failure> {
    if !package.has_table(VALIDATION) {
        return apply_rows(rt, package, statement, written);
    }
    let alloc = rt.alloc();
    let Fitted {
        statement,
        streams: _,
    } = fitted_statement(alloc, package, statement, &[])?;
    let carried = counted(package, &statement);
    match change_validation(alloc, package, statement) {
        Ok(()) => Ok(carried?),
        Err(failure) => Err(explained(alloc, package, written, failure)),
    }
}

/// Carries out a statement on rows. Fails for a `SELECT`. After a failure nothing has changed.
pub(crate) fn apply_statement(
    package: &mut Package<Opened>,
    statement: Statement,
) -> Result<(), Failure> {
    let changed = match statement {
        Statement::Select(_) => {
            return Err(Failure::rule("it changes nothing; query prints its rows"));
        }
        Statement::Insert(insert) => package.insert_rows(insert),
        Statement::Update(update) => package.update_rows(update),
        Statement::Delete(delete) => package.delete_rows(delete),
    };
    Ok(changed?)
}

/// Returns what a statement does, and to how many rows: an insert to those that it has, the others to those that meet
/// their condition.
pub(crate) fn counted(package: &Package<Opened>, statement: &Statement) -> Result<Carried, Error> {
    match statement {
        Statement::Select(_) => Ok(Carried::Changed(0)),
        Statement::Insert(insert) => Ok(Carried::Inserted(row_count(insert))),
        Statement::Update(update) => {
            let rows = package.select_rows(updated_rows(update)?)?;
            Ok(Carried::Changed(rows.len()))
        }
        Statement::Delete(delete) => {
            let rows = package.select_rows(deleted_rows(delete)?)?;
            Ok(Carried::Deleted(rows.len()))
        }
    }
}

/// Carries out a change of tables, and returns what it did. After a failure nothing has changed.
pub(crate) fn apply_definition(
    alloc: Global,
    package: &mut Package<Opened>,
    definition: Definition<'_>,
) -> Result<Carried, Failure> {
    match definition {
        Definition::Create { table, columns } => {
            package.create_table(table, columns)?;
            Ok(Carried::Created)
        }
        Definition::Add { table, column } => {
            check_new(alloc, package, table, column.name())?;
            package.add_column(table, column)?;
            Ok(Carried::Added)
        }
        Definition::Remove { table } => {
            package.drop_table(table)?;
            Ok(Carried::Dropped)
        }
    }
}

/// Fails if a table has a column of this name.
fn check_new(
    alloc: Global,
    package: &Package<Opened>,
    table: &str,
    column: &str,
) -> Result<(), Failure> {
    match package.get_table(table) {
        Some(known) if known.has_column(column) => {
            let (table, column) = (Shown::escaped(table), Shown::escaped(column));
            Err(said(format!(in alloc; "{table}: column {column} is there already")))
        }
        Some(_) | None => Ok(()),
    }
}
