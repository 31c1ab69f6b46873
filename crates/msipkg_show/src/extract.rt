//! `extract FILE [NAME..] -o DIR`: the streams of a package as files of a folder. Whatever a stream's name is, nothing
//! is written outside the folder.

use msipkg_format::{Shown, Style};
use msipkg_looking::{PackageView, StoredNames, write_stream};
use msipkg_packages::Folder;
use msipkg_packages::output::{Failure, Output, System};
use msipkg_safe_names::SafeNames;
use std::alloc::{AllocError, Global};
use std::collections::BTreeSet;
use std::fs;

/// The refusal of several streams on standard output.
const SEVERAL: &str = "one stream goes to standard output: name it, or give a folder";

/// The refusal of a stream on a terminal.
const TERMINAL: &str = "the bytes of a stream aren't printed on a terminal";

/// What streams are taken from, and where their files go.
struct Extraction<'a> {
    rt: &'a System,
    package: &'a mut PackageView,
    stored: Option<StoredNames>,
    folder: Folder<'a>,
    /// Whether nothing is written, and it is only looked whether all could be.
    is_trial: bool,
}

/// Written out, so that a function that owns one calls one drop, and its proof doesn't go through those of the parts.
impl Drop for Extraction<'_> {
    fn drop(self) {
        let Extraction {
            rt: _,
            package: _,
            stored: _,
            folder: _,
            is_trial: _,
        } = self;
    }
}

/// Writes the named streams, or all where none is named, each once. If a named stream doesn't exist, or a file exists
/// and isn't to be replaced, nothing is written. If the system fails, the files of earlier streams stay.
pub(crate) fn extract_streams(
    rt: &System,
    package: &mut PackageView,
    names: &[&str],
    folder: Folder<'_>,
    notes: &mut Output,
) -> Result<(), Failure> {
    let chosen = chosen_streams(rt.alloc(), package, names)?;
    let stored = package.stored_names()?;
    let mut extraction = Extraction {
        rt,
        package,
        stored,
        folder,
        is_trial: true,
    };
    extraction.extract(chosen.as_slice(), notes)?;
    fs::create_dir_all(&rt.rt, folder.path)?;
    extraction.is_trial = false;
    extraction.extract(chosen.as_slice(), notes)
}

/// Prints the bytes of the one stream that is named. Fails if not exactly one is named, and on a terminal.
pub(crate) fn print_stream(
    alloc: Global,
    style: Style,
    package: &mut PackageView,
    names: &[&str],
    output: &mut Output,
) -> Result<(), Failure> {
    let [name] = names else {
        return Err(Failure::rule(SEVERAL));
    };
    if style.is_terminal {
        return Err(Failure::rule(TERMINAL));
    }
    let stored = package.stored_names()?;
    match package.copy_stream(stored.as_ref(), name, output) {
        Ok(()) => Ok(()),
        Err(failure) => Err(failure.at(alloc, "stream", name)),
    }
}

/// Returns the named streams, each once, or all where none is named.
fn chosen_streams(
    alloc: Global,
    package: &PackageView,
    names: &[&str],
) -> Result<Vec<String>, Failure> {
    if names.is_empty() {
        return Ok(package.stream_names()?);
    }
    Ok(each_once(alloc, names)?)
}

fn each_once(alloc: Global, names: &[&str]) -> Result<Vec<String>, AllocError> {
    let mut given = BTreeSet::new(alloc);
    let mut chosen = Vec::new(alloc);
    for name in names {
        if given.insert(*name)? {
            chosen.push(String::from_str(alloc, name)?)?;
        }
    }
    Ok(chosen)
}

impl Extraction<'_> {
    fn extract(&mut self, names: &[String], notes: &mut Output) -> Result<(), Failure> {
        let mut given = SafeNames::new(self.rt.alloc());
        for name in names {
            self.extract_one(name.as_str(), &mut given, notes)?;
        }
        Ok(())
    }

    fn extract_one(
        &mut self,
        name: &str,
        given: &mut SafeNames,
        notes: &mut Output,
    ) -> Result<(), Failure> {
        if let Err(error) = self.package.stream_length(self.stored.as_ref(), name) {
            return Err(Failure::from(error).at(self.rt.alloc(), "stream", name));
        }
        let safe = given.give(name)?;
        if self.is_trial {
            return self.folder.check(self.rt, &safe);
        }
        note_file(name, safe.as_str(), notes);
        let stored = self.stored.as_ref();
        write_stream(self.rt, self.package, stored, name, &safe, &self.folder)
    }
}

fn note_file(name: &str, safe: &str, notes: &mut Output) {
    if safe != name {
        let name = Shown::escaped(name);
        writeln!(notes, "msipkg: stream {name}: its file is {safe}");
    }
}
