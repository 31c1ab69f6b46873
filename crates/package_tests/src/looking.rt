//! Looking at packages whose source fails, gives little at a time, or is cut.

use crate::outcome::refusal;
use msi::{Error, ErrorKind, Memory, Package, PackageType};
use msi_view::View;
use std::alloc::Global;
use transcripts_words::counting::Counting;

/// How many lengths a package is cut to: those of its first sectors.
const LENGTHS: usize = 4096;

fn package(alloc: Global) -> Result<Vec<u8>, Error> {
    let device = Memory::from_vec(Vec::new(alloc));
    let mut package = Package::create(alloc, PackageType::Installer, device)?;
    package
        .write_stream("a")?
        .write_vec(Vec::from_slice(alloc, &[7; 9000])?)?;
    package.flush()?;
    Ok(package.into_reader().into_vec())
}

/// A source of these bytes, whose call of this number fails; none for 0.
fn source_of(alloc: Global, bytes: &[u8], failing: usize) -> Result<Counting, Error> {
    let mut source = Counting::new(Vec::from_slice(alloc, bytes)?);
    source.failing = failing;
    Ok(source)
}

/// Looks at all parts; one that fails since its call does is asked for again.
fn looks_again(alloc: Global, source: Counting) -> Result<bool, Error> {
    let mut view = View::open(alloc, source)?;
    let mut bytes = Vec::new(alloc);
    let mut failures = 0;
    if is_failed(look_at_summary(&mut view))? {
        failures += 1;
        look_at_summary(&mut view)?;
    }
    if is_failed(view.load_tables())? {
        failures += 1;
        view.load_tables()?;
    }
    if is_failed(view.read_stream("a", &mut bytes))? {
        failures += 1;
        bytes.clear();
        view.read_stream("a", &mut bytes)?;
    }
    Ok(failures < 2 && bytes.as_slice() == [7; 9000].as_slice())
}

fn look_at_summary(view: &mut View<Counting>) -> Result<(), Error> {
    view.summary_info()?;
    Ok(())
}

/// Whether a call failed since one of the source did.
fn is_failed(answer: Result<(), Error>) -> Result<bool, Error> {
    match answer {
        Ok(()) => Ok(false),
        Err(error) if error.kind() == ErrorKind::Io => Ok(true),
        Err(error) => Err(error),
    }
}

/// Returns whether each call of a source may fail, in turn: then nothing is shown, or the same when it is asked again.
pub(crate) fn failing_sources_are_asked_again(alloc: Global) -> Result<bool, Error> {
    let bytes = package(alloc)?;
    let mut has_failed = false;
    for failing in 1..200 {
        match looks_again(alloc, source_of(alloc, bytes.as_slice(), failing)?) {
            Ok(is_same) if !is_same => return Ok(false),
            Ok(_) => {}
            Err(error) if error.kind() == ErrorKind::Io => has_failed = true,
            Err(error) => return Err(error),
        }
    }
    Ok(has_failed)
}

/// Returns whether sources that give one byte at a time, or seven, show the same.
pub(crate) fn short_reads_show_the_same(alloc: Global) -> Result<bool, Error> {
    let bytes = package(alloc)?;
    for most_read in [1, 7] {
        let mut source = source_of(alloc, bytes.as_slice(), 0)?;
        source.most_read = most_read;
        if !looks_again(alloc, source)? {
            return Ok(false);
        }
    }
    Ok(true)
}

/// Returns whether a package that is cut is refused both ways alike, at each length.
pub(crate) fn cut_packages_are_refused_alike(alloc: Global) -> Result<bool, Error> {
    let bytes = package(alloc)?;
    for len in 0..LENGTHS.min(bytes.len()) {
        let cut = &bytes[..len];
        let seen = refusal(looks_again(alloc, source_of(alloc, cut, 0)?));
        let opened = refusal(Package::open(alloc, source_of(alloc, cut, 0)?));
        if seen.is_none() || seen != opened {
            return Ok(false);
        }
    }
    Ok(true)
}
