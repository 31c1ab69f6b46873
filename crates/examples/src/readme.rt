//! Makes a package with a table: the example of README.md.

use msi::{Column, Error, Insert, Memory, Package, PackageType, Value};
use std::alloc::Global;

/// The file of a package with a table of one row.
pub fn numbers(alloc: Global) -> Result<Vec<u8>, Error> {
    let device = Memory::from_vec(Vec::new(alloc));
    let mut package = Package::create(alloc, PackageType::Installer, device)?;
    let number = Column::build(alloc, "Number")?.primary_key().int16();
    package.create_table("Numbers", vec![in alloc; number]?)?;
    let row = vec![in alloc; Value::Int(1)]?;
    package.insert_rows(Insert::into(alloc, "Numbers")?.row(row)?)?;
    package.flush()?;
    Ok(package.into_reader().into_vec())
}
