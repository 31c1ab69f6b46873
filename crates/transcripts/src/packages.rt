//! Calls that make a package, open one, apply a transform to it, write it or take it apart.

use crate::agreement::looks_alike;
use crate::session::Session;
use msi::transforms::{ErrorConditions, Transform};
use msi::{Error, ErrorKind, Package, PackageType};
use transcripts_words::contents::transform;
use transcripts_words::counting::Counting;
use transcripts_words::failure::Failure;
use transcripts_words::kept::pieces;
use transcripts_words::words::Words;

/// How many bytes a package may have that is also looked at.
const LONGEST: usize = 1 << 20;

/// The names of these calls.
pub(crate) static VERBS: [&str; 7] = [
    "device",
    "create",
    "open",
    "apply_transform",
    "image",
    "into_reader",
    "into_inner",
];

pub(crate) fn make(session: &mut Session, verb: &str, words: &mut Words) -> Result<(), Failure> {
    match verb {
        "device" => {
            session.behave(words);
            Ok(())
        }
        "create" => create(session, words),
        "open" => open(session, words),
        "apply_transform" => apply_transform(session, words),
        _ => {
            let name = words.name();
            session.kept.reserve(words.alloc, name)?;
            keep(session, verb, name, words)
        }
    }
}

fn package_type(words: &mut Words) -> PackageType {
    match words.word() {
        "Installer" => PackageType::Installer,
        "Patch" => PackageType::Patch,
        "Transform" => PackageType::Transform,
        _ => {
            words.refuse("there is no such type of package");
            PackageType::Installer
        }
    }
}

fn create(session: &mut Session, words: &mut Words) -> Result<(), Failure> {
    let kind = package_type(words);
    let _ = words.takes("over");
    let bytes = pieces(&session.kept, words)?;
    let device = session.device(words.alloc, bytes);
    session.package = Some(Package::create(words.alloc, kind, device)?);
    Ok(())
}

fn open(session: &mut Session, words: &mut Words) -> Result<(), Failure> {
    let bytes = Vec::from_slice(words.alloc, session.kept.bytes(words.name())?)?;
    let seen = Vec::from_slice(words.alloc, bytes.as_slice())?;
    let device = session.device(words.alloc, bytes);
    let opened = Package::open(words.alloc, device);
    if seen.len() <= LONGEST
        && !is_of_device(&opened)
        && !looks_alike(words.alloc, seen.as_slice(), &opened)?
    {
        return Err(Failure::Unreadable("looking shows another package"));
    }
    session.package = Some(opened?);
    Ok(())
}

/// Returns whether a package isn't opened since its device failed, or memory was refused.
fn is_of_device<P>(opened: &Result<P, Error>) -> bool {
    match opened {
        Ok(_) => false,
        Err(error) => matches!(error.kind(), ErrorKind::Io | ErrorKind::OutOfMemory),
    }
}

/// Applies a transform that is given by its streams.
fn apply_transform(session: &mut Session, words: &mut Words) -> Result<(), Failure> {
    let contents = transform(&session.kept, words)?;
    let passing = conditions(words);
    words.check()?;
    let transform = Transform::of_contents(words.alloc, contents)?;
    match session.package_mut()?.apply_transform(&transform, passing) {
        Ok(()) => Ok(()),
        Err(refusal) => Err(Failure::from(refusal.into_error())),
    }
}

/// Reads which faults of a transform's records pass.
fn conditions(words: &mut Words) -> ErrorConditions {
    let mut passing = ErrorConditions::default();
    for _ in 0..words.len() {
        match words.word() {
            "added_row_exists" => passing.added_row_exists = true,
            "removed_row_missing" => passing.removed_row_missing = true,
            "added_table_exists" => passing.added_table_exists = true,
            "removed_table_missing" => passing.removed_table_missing = true,
            "changed_row_missing" => passing.changed_row_missing = true,
            "other_page" => passing.other_page = true,
            _ => words.refuse("a transform has no such fault"),
        }
    }
    passing
}

/// Keeps the bytes that a flush would write over so many; or takes the package apart, written or not, and keeps the
/// bytes of its device.
fn keep(session: &mut Session, verb: &str, name: &str, words: &mut Words) -> Result<(), Failure> {
    if verb == "image" {
        let bytes = session.package()?.image(words.count() as u64)?;
        session.kept.keep(name, bytes);
        return Ok(());
    }
    let package = session.take()?;
    let device = if verb == "into_inner" {
        written(session, package)?
    } else {
        package.into_reader()
    };
    session.close(name, device);
    Ok(())
}

/// Writes a package and takes it apart. One that can't be written is the session's again.
fn written(session: &mut Session, package: Package<Counting>) -> Result<Counting, Error> {
    match package.into_inner() {
        Ok(device) => Ok(device),
        Err((error, package)) => {
            session.package = Some(package);
            Err(error)
        }
    }
}
