//! `storages FILE`: the storages below a file's root; and `extract FILE --storage PATH`: one of them as a file.

use msipkg_format::{Grid, JsonObject, Style, at_file};
use msipkg_packages::msi::compound::{self, Contents, Name, Storage};
use msipkg_packages::msi::{Error, PackageType};
use msipkg_packages::output::{Failure, Output, System};
use msipkg_packages::{Folder, check_kind, kind_name, write_file};
use std::alloc::Global;
use std::rc::Rc;

/// What stands above the columns.
const HEADS: [&str; 6] = ["Number", "In", "Storage", "Kind", "Streams", "Storages"];

/// The refusal of a storage on a terminal.
const TERMINAL: &str = "the bytes of a storage aren't printed on a terminal";

/// Prints each storage below the root: its number, that of the storage that it lies in, its name, its kind, and how
/// many streams and storages lie in it.
///
/// # Errors
/// Fails if the file can't be read, as `list_storages` does, and with `OutOfMemory`.
pub fn show_storages(
    rt: &System,
    style: Style,
    file: &str,
    is_json: bool,
    output: &mut Output,
) -> Result<(), Failure> {
    check_kind(rt, file)?;
    let bytes = rt.read(file)?;
    let storages = compound::list_storages(rt.alloc(), bytes.as_slice())?;
    if is_json {
        print_json(rt.alloc(), style, file, storages.as_slice(), output)
    } else {
        print_rows(rt.alloc(), style, storages.as_slice(), output)
    }
}

/// Returns the number of the storage that one lies in, from 1 on; the root has none.
fn number_of_parent(storage: &Storage) -> Option<usize> {
    storage.parent.map(|place| place.saturating_add(1))
}

fn kind_of(storage: &Storage) -> &'static str {
    match PackageType::from_clsid(&storage.clsid) {
        Some(kind) => kind_name(kind),
        None => "other",
    }
}

fn print_rows(
    alloc: Global,
    style: Style,
    storages: &[Storage],
    output: &mut Output,
) -> Result<(), Failure> {
    let mut grid = Grid::headed(alloc, HEADS.as_slice());
    for (place, storage) in storages.iter().enumerate() {
        grid.put(&(place + 1));
        match number_of_parent(storage) {
            Some(number) => grid.put(&number),
            None => grid.push(""),
        }
        grid.put_text(style, storage.name.to_text(alloc)?.as_str());
        grid.push(kind_of(storage));
        grid.put(&storage.streams);
        grid.put(&storage.storages);
    }
    grid.print(style, output);
    Ok(())
}

fn print_json(
    alloc: Global,
    style: Style,
    file: &str,
    storages: &[Storage],
    output: &mut Output,
) -> Result<(), Failure> {
    let mut object = JsonObject::new(alloc);
    object.put_text("file", Some(file));
    object.open_list("storages");
    for storage in storages {
        object.open_item();
        object.put_text("storage", Some(storage.name.to_text(alloc)?.as_str()));
        object.put_number("in", number_of(number_of_parent(storage)));
        object.put_text("kind", Some(kind_of(storage)));
        object.put_number("streams", number_of(Some(storage.streams)));
        object.put_number("storages", number_of(Some(storage.storages)));
        object.close_item();
    }
    object.close_list();
    object.print_line(style, output);
    Ok(())
}

fn number_of(count: Option<usize>) -> Option<i64> {
    count.and_then(|n| i64::try_from(n).ok())
}

/// Writes the storage at a path, whose names are parted by `/`, as a compound file of its own, or prints its bytes.
///
/// # Errors
/// Fails if the file can't be read; if there is no such storage, or storages lie in it; if there is a file already that
/// isn't to be replaced; on a terminal, which gets no bytes; and with `OutOfMemory`.
pub fn extract_storage(
    rt: &System,
    style: Style,
    file: &str,
    path: &str,
    target: Folder<'_>,
    output: &mut Output,
) -> Result<(), Failure> {
    if target.is_output() && style.is_terminal {
        return Err(Failure::rule(TERMINAL));
    }
    check_kind(rt, file)?;
    let bytes = storage_bytes(rt, file, path)?;
    if target.is_output() {
        output.push_bytes(bytes.as_slice());
        return Ok(());
    }
    let written = write_file(rt, target.path, target.is_forced, bytes.as_slice());
    at_file(rt.alloc(), target.path, written)
}

fn storage_bytes(rt: &System, file: &str, path: &str) -> Result<Vec<u8>, Failure> {
    let bytes = Rc::new(rt.alloc(), rt.read(file)?)?;
    let written = match contents_at(rt.alloc(), &bytes, path) {
        Ok(contents) => compound::write(rt.alloc(), &contents, 0),
        Err(error) => Err(error),
    };
    match written {
        Ok(bytes) => Ok(bytes),
        Err(error) => Err(Failure::from(error).at(rt.alloc(), "storage", path)),
    }
}

fn contents_at(alloc: Global, bytes: &Rc<Vec<u8>>, path: &str) -> Result<Contents, Error> {
    let mut names = Vec::new(alloc);
    for text in path.split('/') {
        names.push(Name::new(text)?)?;
    }
    compound::read_storage(alloc, bytes, names.as_slice())
}
