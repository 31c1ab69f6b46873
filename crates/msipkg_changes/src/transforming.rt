//! `transform apply FILE T..`: transforms that are applied to a package.

ghost use Rattle.std.specs.Prelude.{OnOk, length};
ghost use Rattle.msi.specs.Whole.{Whole};
ghost use Rattle.msipkg_changes.specs.TransformsInTurn.{AreApplied, IsApplied, IsMended};

use crate::change::Manner;
use crate::outcome::Outcome;
use crate::recounting::{mend_first, noted};
use msipkg_format::{Shown, said};
use msipkg_packages::msi::transforms::{ErrorConditions, Fault, RecordPlace, Refusal, Transform};
use msipkg_packages::msi::{ErrorKind, Package};
use msipkg_packages::output::{Failure, Opened, System};
use msipkg_transforms::{TransformFile, key_at, read_transform, words_of};
use std::alloc::{AllocError, Global};

/// Transforms that are applied to a package.
#[derive(Clone, Copy)]
pub struct Transforms<'a, 'b> {
    /// What names them, in the order in which they are applied: a file, a storage of one as `FILE:NAME`, or a storage
    /// of the package's own file as `:NAME`.
    pub words: &'b [&'a str],
    /// Which errors are ignored. Without it those are that the summary of each transform says.
    pub passing: Option<ErrorConditions>,
}

/// Applies transforms in turn. Counts that are too low for that are mended first, or the failure has the note that
/// counting anew mends them.
pub(crate) fn apply_transforms(
    rt: &System,
    file: &str,
    package: &mut Package<Opened>,
    asked: Transforms<'_, '_>,
    manner: Manner,
    outcome: &mut Outcome,
) -> Result<(), Failure>
    ensures ok { OnOk result ((mended : Whole) × IsMended «package».old mended
        × AreApplied asked.entry.passing (length asked.entry.words.now) mended «package».new) }
{
    mend_first(package, manner, outcome);
    apply_in_turn(rt, file, package, asked)
}

fn apply_in_turn(
    rt: &System,
    file: &str,
    package: &mut Package<Opened>,
    asked: Transforms<'_, '_>,
) -> Result<(), Failure>
    ensures ok { let count = length asked.entry.words.now in
        OnOk result (AreApplied asked.entry.passing count «package».old «package».new) }
{
    for word in asked.words {
        if let Err(failure) = apply_named(rt, file, package, word, asked.passing) {
            return Err(failure.at(rt.alloc(), "transform", word));
        }
    }
    Ok(())
}

fn apply_named(
    rt: &System,
    file: &str,
    package: &mut Package<Opened>,
    word: &str,
    passing: Option<ErrorConditions>,
) -> Result<(), Failure>
    ensures ok { OnOk result (IsApplied passing «package».old «package».new) }
{
    let read = read_named(rt, file, word)?;
    let passing = match passing {
        Some(passing) => passing,
        None => read.conditions(),
    };
    match package.apply_transform(&read.transform, passing) {
        Ok(()) => Ok(()),
        Err(refusal) => {
            let failure = failure_of(rt.alloc(), package, &read.transform, passing, refusal);
            Err(noted(package, failure))
        }
    }
}

fn read_named(rt: &System, file: &str, word: &str) -> Result<TransformFile, Failure> {
    if !word.starts_with(':') {
        return read_transform(rt, word);
    }
    let place = format!(in rt.alloc(); "{file}{word}")?;
    read_transform(rt, place.as_str())
}

/// Returns the failure of a transform that is refused: at which record, why, and what ignores it. The package may
/// have changed then.
fn failure_of(
    alloc: Global,
    package: &mut Package<Opened>,
    transform: &Transform,
    passing: ErrorConditions,
    refusal: Refusal,
) -> Failure {
    let place = match refusal.place() {
        Some(place) => place_text(alloc, package, transform, place),
        None => Ok(String::new(alloc)),
    };
    let lenient = lenient_for(package, transform, passing, &refusal);
    match place {
        Ok(place) if place.is_empty() && lenient.is_none() => Failure::from(refusal.into_error()),
        Ok(place) => said(refusal_text(alloc, place.as_str(), &refusal, lenient)),
        Err(error) => Failure::from(error),
    }
}

fn refusal_text(
    alloc: Global,
    place: &str,
    refusal: &Refusal,
    lenient: Option<ErrorConditions>,
) -> Result<String, AllocError> {
    let hint = match lenient {
        Some(conditions) => hint_text(alloc, conditions)?,
        None => String::new(alloc),
    };
    format!(in alloc; "{place}{}{hint}", refusal.error())
}

/// Returns the table, the record's number, from 1 on, and the key, where the record can be read.
fn place_text(
    alloc: Global,
    package: &Package<Opened>,
    transform: &Transform,
    place: RecordPlace,
) -> Result<String, AllocError> {
    let name = match transform.tables().nth(place.table) {
        Some((name, _)) => name.as_str(),
        None => "",
    };
    let (table, number) = (Shown::escaped(name), place.record_number.saturating_add(1));
    match key_at(alloc, package, transform, place) {
        Some(key) => {
            let key = Shown::escaped(key.as_str());
            format!(in alloc; "table {table}: record {number} (key {key}): ")
        }
        None => format!(in alloc; "table {table}: record {number}: "),
    }
}

/// The words are all that has to be given: those of errors that were ignored already, too.
fn hint_text(alloc: Global, conditions: ErrorConditions) -> Result<String, AllocError> {
    let words = words_of(alloc, conditions)?;
    format!(in alloc; " (--ignore {words} ignores it)")
}

/// Returns conditions that ignore a refusal, if one error more does. That is tried, so the package may change.
fn lenient_for(
    package: &mut Package<Opened>,
    transform: &Transform,
    passing: ErrorConditions,
    refusal: &Refusal,
) -> Option<ErrorConditions> {
    for fault in faults_of(refusal.error().kind()) {
        if !passing.passes(*fault) {
            let mut lenient = passing;
            lenient.pass(*fault);
            if gets_past(&package.apply_transform(transform, lenient), refusal) {
                return Some(lenient);
            }
        }
    }
    None
}

/// Returns the errors of records that are of a kind.
fn faults_of(kind: ErrorKind) -> &'static [Fault] {
    match kind {
        ErrorKind::AlreadyExists => &[Fault::AddedRowExists, Fault::AddedTableExists],
        ErrorKind::NotFound => &[
            Fault::RemovedRowMissing,
            Fault::ChangedRowMissing,
            Fault::RemovedTableMissing,
        ],
        ErrorKind::InvalidInput => &[Fault::OtherPage],
        ErrorKind::InvalidData | ErrorKind::Io | ErrorKind::OutOfMemory => &[],
    }
}

/// Returns whether applying a transform was refused later than at a refusal, or not at all.
fn gets_past(applied: &Result<(), Refusal>, refusal: &Refusal) -> bool {
    match applied {
        Ok(()) => true,
        Err(other) if matches!(other.error().kind(), ErrorKind::OutOfMemory) => false,
        Err(other) => {
            other.place() != refusal.place()
                || other.error().kind() != refusal.error().kind()
                || other.error().reason() != refusal.error().reason()
        }
    }
}
