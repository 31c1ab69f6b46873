//! Packages that are made anew for `_Validation`: those without it, in which the library creates no table, and those in
//! which it is to say something else of columns, which the library takes only with new tables.

use crate::columns::described_columns;
use crate::descriptions::describe;
use msipkg_format::Shown;
use msipkg_looking::stored_tables;
use msipkg_packages::msi::{Error, Insert, Package, Row, Table, Value};
use msipkg_packages::output::{Failure, Opened, Output, System};
use msipkg_packages::{TableNames, fill_stream, is_list, new_package, rows_of};
use std::alloc::{AllocError, Global};
use std::mem;

/// The table that describes columns further.
pub const VALIDATION: &str = "_Validation";

/// What a package had before it was changed.
pub struct Before {
    is_signed: bool,
    /// The tables that it listed.
    listed: TableNames,
    /// Whether `_Validation` was among them.
    is_described: bool,
}

/// Written out, so that a function that owns one calls one drop, and its proof doesn't go through those of the parts.
impl Drop for Before {
    fn drop(self) {
        let Before {
            is_signed: _,
            listed: _,
            is_described: _,
        } = self;
    }
}

impl Before {
    pub fn of(alloc: Global, package: &Package<Opened>) -> Result<Before, AllocError> {
        Ok(Before {
            is_signed: package.has_digital_signature(),
            listed: TableNames::listed(alloc, package)?,
            is_described: package.has_table(VALIDATION),
        })
    }

    /// Returns what adding `_Validation` did to the package of a file, if it was added. Fails at a table of which the
    /// file has rows and that the package didn't list: a package made anew doesn't have them.
    pub fn added(
        &self,
        rt: &System,
        file: &str,
        package: &Package<Opened>,
    ) -> Result<Option<Added>, Failure> {
        if self.is_described || !package.has_table(VALIDATION) {
            return Ok(None);
        }
        self.check_listed(rt, file)?;
        Ok(Some(Added {
            lost_signature: self.is_signed,
        }))
    }

    /// Fails at a table of which a file has rows and that its package didn't list, since a package made anew doesn't
    /// have them.
    pub fn check_listed(&self, rt: &System, file: &str) -> Result<(), Failure> {
        let stored = stored_tables(rt, file)?;
        match stored.first_beside(&self.listed) {
            Some(table) => {
                let failure = Failure::rule("_Tables doesn't list it, so its rows would be lost");
                Err(failure.at(rt.alloc(), "_Validation can't be stored, table", table))
            }
            None => Ok(()),
        }
    }
}

/// What adding `_Validation` did to a package.
#[derive(Clone, Copy, Debug)]
pub struct Added {
    lost_signature: bool,
}

impl Added {
    /// Writes a line that says so, and one if the signature was left out for it.
    pub fn note(self, file: &str, notes: &mut Output) {
        let file = Shown::escaped(file);
        writeln!(
            notes,
            "msipkg: {file}: _Validation is added, which new tables need"
        );
        if self.lost_signature {
            writeln!(notes, "msipkg: {file}: its digital signature is removed");
        }
    }
}

/// Adds `_Validation`, as a new package has it, if it doesn't exist. It then describes all tables. Fails if the package
/// isn't sound, at a table that can't be read or has a row that its columns don't take, and at a stream that can't be
/// read.
pub fn add_validation(alloc: Global, package: &mut Package<Opened>) -> Result<(), Failure> {
    if package.has_table(VALIDATION) {
        return Ok(());
    }
    make_anew(alloc, package, &[])
}

/// Makes a package anew, with columns as these rows of `_Validation` describe them.
///
/// # Errors
/// Fails as `add_validation` does.
pub fn make_anew(
    alloc: Global,
    package: &mut Package<Opened>,
    rules: &[Vec<Value>],
) -> Result<(), Failure> {
    check_sound(package)?;
    let mut made = new_package(alloc, package.package_type())?;
    copy_package(alloc, package, rules, &mut made)?;
    describe(alloc, &mut made, rules)?;
    *package = made;
    Ok(())
}

/// Fails if a package isn't sound. The page is set to itself, which is a change like any other.
fn check_sound(package: &mut Package<Opened>) -> Result<(), Error> {
    let page = package.database_codepage();
    package.set_database_codepage(page)
}

fn copy_package(
    alloc: Global,
    package: &mut Package<Opened>,
    rules: &[Vec<Value>],
    made: &mut Package<Opened>,
) -> Result<(), Failure> {
    made.set_database_codepage(package.database_codepage())?;
    create_tables(alloc, package, rules, made)?;
    copy_tables(alloc, package, made)?;
    copy_streams(alloc, package, made)?;
    mem::swap(package.summary_info_mut()?, made.summary_info_mut()?);
    Ok(())
}

fn create_tables(
    alloc: Global,
    package: &Package<Opened>,
    rules: &[Vec<Value>],
    made: &mut Package<Opened>,
) -> Result<(), Failure> {
    for table in package.tables() {
        if is_system(table) {
            continue;
        }
        if let Err(error) = create_table(alloc, rules, table, made) {
            return Err(at_table(alloc, Failure::from(error), table));
        }
    }
    Ok(())
}

/// Returns whether a package that is made anew has a table by itself.
fn is_system(table: &Table) -> bool {
    is_list(table) || table.name() == VALIDATION
}

fn create_table(
    alloc: Global,
    rules: &[Vec<Value>],
    table: &Table,
    made: &mut Package<Opened>,
) -> Result<(), Error> {
    made.create_table(table.name(), described_columns(alloc, rules, table)?)
}

fn copy_tables(
    alloc: Global,
    package: &Package<Opened>,
    made: &mut Package<Opened>,
) -> Result<(), Failure> {
    for table in package.tables() {
        if is_system(table) {
            continue;
        }
        if let Err(failure) = copy_table(alloc, package, table.name(), made) {
            return Err(at_table(alloc, failure, table));
        }
    }
    Ok(())
}

fn copy_table(
    alloc: Global,
    package: &Package<Opened>,
    table: &str,
    made: &mut Package<Opened>,
) -> Result<(), Failure> {
    let rows = copied_rows(alloc, package, table)?;
    Ok(made.insert_rows(Insert::into(alloc, table)?.rows(rows)?)?)
}

/// Returns copies of the rows of a table.
///
/// # Errors
/// Fails if a row can't be read, and if memory is refused.
pub fn copied_rows(
    alloc: Global,
    package: &Package<Opened>,
    table: &str,
) -> Result<Vec<Vec<Value>>, Failure> {
    let mut copies = Vec::new(alloc);
    for row in rows_of(alloc, package, table)? {
        copies.push(copied_row(alloc, &row?)?)?;
    }
    Ok(copies)
}

fn copied_row(alloc: Global, row: &Row) -> Result<Vec<Value>, Error> {
    let mut values = Vec::with_capacity(alloc, row.len())?;
    for i in 0..row.len() {
        values.push(row[i].clone(alloc)?)?;
    }
    Ok(values)
}

fn copy_streams(
    alloc: Global,
    package: &Package<Opened>,
    made: &mut Package<Opened>,
) -> Result<(), Failure> {
    for name in package.streams() {
        let name = name?;
        if let Err(failure) = copy_stream(package, name.as_str(), made) {
            return Err(failure.at(alloc, "_Validation can't be stored, stream", name.as_str()));
        }
    }
    Ok(())
}

fn copy_stream(
    package: &Package<Opened>,
    name: &str,
    made: &mut Package<Opened>,
) -> Result<(), Failure> {
    let stream = package.read_stream(name)?;
    fill_stream(made, name, stream.rest())
}

fn at_table(alloc: Global, failure: Failure, table: &Table) -> Failure {
    failure.at(alloc, "_Validation can't be stored, table", table.name())
}
