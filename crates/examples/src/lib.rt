//! Examples of programs that use the library `msi`:
//!
//! - `readme`: makes a package with a table. It is the example of README.md.
//! - `guide`: task by task, from creating a table to handling each error. It is the code of docs/GUIDE.md.
//! - `printing`: a whole program, which prints the rows of a query as CSV.
//!
//! `package_tests` runs all of them, and what they print is compared.
#![tactic(auto)]

pub mod guide;
pub mod printing;
pub mod readme;

use msi::{Error, Memory, Package, Select};
use printing::Failure;
use std::alloc::Global;
use std::fs;

/// Runs the examples, and returns whether the package of `readme` has its row. The rows of that package are printed
/// from the file at `path`, which is made for this and removed.
pub fn run(rt: &HostRuntime, path: &str) -> Result<bool, Failure> {
    let has_row = has_row(rt.alloc())?;
    print_numbers(rt, path)?;
    guide::follow(rt)?;
    Ok(has_row)
}

fn has_row(alloc: Global) -> Result<bool, Error> {
    let package = Package::open(alloc, Memory::from_vec(readme::numbers(alloc)?))?;
    let rows = package.select_rows(Select::table(alloc, "Numbers")?)?;
    Ok(rows.len() == 1)
}

fn print_numbers(rt: &HostRuntime, path: &str) -> Result<(), Failure> {
    fs::write(rt, path, readme::numbers(rt.alloc())?)?;
    let printed = printing::print_rows(rt, path, "SELECT * FROM Numbers");
    fs::remove_file(rt, path)?;
    printed
}
