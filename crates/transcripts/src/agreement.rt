//! Whether looking at a package shows what opening it does: both ways over the same bytes.

use msi::compound::Name;
use msi::names::is_listed;
use msi::{
    Error, ErrorKind, Memory, Package, Rows, Select, SummaryInfo, SummaryProperty, streamname,
};
use msi_view::{View, byte_count};
use std::alloc::Global;
use transcripts_words::counting::Counting;

/// Returns whether the parts of these bytes that are looked at are those of the package that was opened. Where it
/// wasn't, the first part that isn't had has to be why: the container, the type, the summary, the tables.
pub(crate) fn looks_alike(
    alloc: Global,
    bytes: &[u8],
    opened: &Result<Package<Counting>, Error>,
) -> Result<bool, Error> {
    let (seen, package) = match (refusal_of(alloc, bytes)?, opened) {
        (Ok(view), Ok(package)) => (view, package),
        (Err(kind), Err(error)) => return Ok(kind == error.kind()),
        (Ok(_), Err(_)) | (Err(_), Ok(_)) => return Ok(false),
    };
    shows(alloc, seen, package)
}

/// Looks at bytes: a view where each part is had, or the kind of the first refusal.
fn refusal_of(alloc: Global, bytes: &[u8]) -> Result<Result<View<Memory>, ErrorKind>, Error> {
    let source = Memory::from_vec(Vec::from_slice(alloc, bytes)?);
    let mut view = match View::open(alloc, source) {
        Ok(view) => view,
        Err(error) => return refused(error),
    };
    if let Err(error) = view.package_type() {
        return refused(error);
    }
    if let Err(error) = view.summary_info() {
        return refused(error);
    }
    match view.load_tables() {
        Ok(()) => Ok(Ok(view)),
        Err(error) => refused(error),
    }
}

/// Passes on that memory was refused, which is no refusal of the bytes.
fn refused<T>(error: Error) -> Result<Result<T, ErrorKind>, Error> {
    match error.kind() {
        ErrorKind::OutOfMemory => Err(error),
        kind => Ok(Err(kind)),
    }
}

fn shows(alloc: Global, view: View<Memory>, package: &Package<Counting>) -> Result<bool, Error> {
    let mut view = view;
    let is_same = view.package_type()? == package.package_type()
        && view.has_storages() == package.has_storages()
        && view.has_digital_signature() == package.has_digital_signature()
        && view.database_codepage()? == package.database_codepage()
        && is_same_summary(&view.summary_info()?, package.summary_info());
    Ok(
        is_same
            && are_same_streams(alloc, &mut view, package)?
            && are_same_tables(alloc, &mut view, package)?,
    )
}

/// The texts, numbers and times of both.
fn is_same_summary(seen: &SummaryInfo, opened: &SummaryInfo) -> bool {
    for property in SummaryProperty::all() {
        let is_same = match property {
            SummaryProperty::Text(text) => seen.text_property(text) == opened.text_property(text),
            SummaryProperty::Number(number) => {
                seen.number_property(number) == opened.number_property(number)
            }
            SummaryProperty::Time(time) => seen.time_property(time) == opened.time_property(time),
            SummaryProperty::Arch => seen.arch() == opened.arch(),
            SummaryProperty::Codepage
            | SummaryProperty::Keywords
            | SummaryProperty::Languages
            | SummaryProperty::Uuid => seen.codepage() == opened.codepage(),
        };
        if !is_same {
            return false;
        }
    }
    true
}

/// The streams that are listed, with their bytes.
fn are_same_streams(
    alloc: Global,
    view: &mut View<Memory>,
    package: &Package<Counting>,
) -> Result<bool, Error> {
    let seen = listed(alloc, view)?;
    let mut count = 0;
    for name in package.streams() {
        let name = name?;
        let (text, size) = match seen.get(count) {
            Some(one) => (one.0.as_str(), one.1),
            None => return Ok(false),
        };
        let mut bytes = Vec::new(alloc);
        let answer = view.read_stream(name.as_str(), &mut bytes);
        let is_same = match (answer, package.read_stream(name.as_str())) {
            (Ok(()), Ok(stream)) => stream.rest() == bytes.as_slice() && size == bytes.len() as u64,
            (Err(seen), Err(opened)) => seen.kind() == opened.kind(),
            (Ok(()), Err(_)) | (Err(_), Ok(_)) => false,
        };
        if !is_same || text != name.as_str() {
            return Ok(false);
        }
        count += 1;
    }
    Ok(count == seen.len())
}

fn listed(alloc: Global, view: &View<Memory>) -> Result<Vec<(String, u64)>, Error> {
    let mut names = Vec::new(alloc);
    for (name, extents) in view.streams().iter() {
        if is_listed(name) {
            names.push((text_of(alloc, name)?, byte_count(extents.as_slice())))?;
        }
    }
    Ok(names)
}

fn text_of(alloc: Global, name: &Name) -> Result<String, Error> {
    let encoded = name.to_text(alloc)?;
    let (text, _) = streamname::decode(alloc, encoded.as_str())?;
    Ok(text)
}

/// The tables, and the rows of each.
fn are_same_tables(
    alloc: Global,
    view: &mut View<Memory>,
    package: &Package<Counting>,
) -> Result<bool, Error> {
    let tables = package.tables();
    if view.tables()?.len() != tables.len() {
        return Ok(false);
    }
    for (i, table) in tables.enumerate() {
        match view.tables()?.get(i) {
            Some(seen) if seen.name() == table.name() => {}
            Some(_) | None => return Ok(false),
        }
        let query = Select::table(alloc, table.name())?;
        let is_same = match (view.select_rows(&query), package.select_rows(query)) {
            (Ok(seen), Ok(opened)) => are_same_rows(seen, opened)?,
            (Err(seen), Err(opened)) => seen.kind() == opened.kind(),
            (Ok(_), Err(_)) | (Err(_), Ok(_)) => false,
        };
        if !is_same {
            return Ok(false);
        }
    }
    Ok(true)
}

fn are_same_rows(seen: Rows<'_>, opened: Rows<'_>) -> Result<bool, Error> {
    let mut seen = seen;
    for row in opened {
        let row = row?;
        let Some(other) = seen.next() else {
            return Ok(false);
        };
        let other = other?;
        for i in 0..row.len() {
            if i >= other.len() || other[i] != row[i] {
                return Ok(false);
            }
        }
    }
    Ok(seen.next().is_none())
}
