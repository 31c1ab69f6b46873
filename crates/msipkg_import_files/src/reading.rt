//! Which reader a file has.

use crate::archives::read_archive;
use crate::csv_tables::read_csv;
use crate::given::Given;
use crate::json_packages::read_json;
use msipkg_format::{Failure, System, at_file};
use std::path::Path;

/// Reads files, whose endings say what they are: `.idt` text archives, `.json` packages that `export` wrote, and `.csv`
/// rows of the table that the file is named after.
///
/// # Errors
/// Fails if a file can't be read, has another ending or isn't what its ending says, at its place there.
pub fn read_files(rt: &System, paths: &[&str]) -> Result<Given, Failure> {
    let mut given = Given::new(rt.alloc());
    for path in paths {
        let added = read_file(rt, path, &mut given);
        at_file(rt.alloc(), path, added)?;
    }
    Ok(given)
}

fn read_file(rt: &System, path: &str, given: &mut Given) -> Result<(), Failure> {
    let bytes = rt.read(path)?;
    let name = Path::new(path);
    let ending = name.extension().unwrap_or("");
    if ending.eq_ignore_ascii_case("idt") {
        read_archive(rt, path, bytes.as_slice(), given)
    } else if ending.eq_ignore_ascii_case("json") {
        read_json(rt.alloc(), path, bytes.as_slice(), given)
    } else if ending.eq_ignore_ascii_case("csv") {
        let table = name.file_stem().unwrap_or("");
        read_csv(rt.alloc(), path, table, bytes.as_slice(), given)
    } else {
        Err(Failure::rule("its name has to end in .idt, .json or .csv"))
    }
}
