//! The commands that change a package: each is lent the one that is opened here.

use crate::outcome::Outcome;
use crate::pages::recode;
use crate::recounting::{mend_first, noted};
use crate::statements::{PreparedStatement, carry_out_statements};
use crate::storing::{Destination, store, store_new};
use crate::streams::{add_streams, remove_parts};
use crate::transforming::{Transforms, apply_transforms};
use msipkg_format::Style;
use msipkg_import::{Before, Losses, Merging, import_given, note_losses};
use msipkg_import_files::read_files;
use msipkg_packages::msi::Package;
use msipkg_packages::output::{Failure, Opened, Output, System};
use msipkg_packages::{Claim, FileState, PackageFile, open_to_change, set_properties};
use std::alloc::Global;

/// A change of a package.
#[derive(Drop)]
pub enum Change<'a, 'b> {
    /// Files are stored as streams, each given as `NAME=PATH`.
    Add(&'b [&'a str]),
    /// The streams of these names are removed, and its digital signature where that is asked for.
    Remove {
        names: &'b [&'a str],
        is_signature: bool,
    },
    /// Statements are carried out.
    Execute(Vec<PreparedStatement<'b>>),
    /// It gets what files have.
    Import(Import<'a, 'b>),
    /// Transforms are applied.
    Transforms(Transforms<'a, 'b>),
    /// Properties of its summary are set, each given as `NAME=VALUE`, and then others are cleared.
    Properties {
        set: &'b [&'a str],
        cleared: &'b [&'a str],
    },
}

/// What is imported.
#[derive(Clone, Copy)]
pub struct Import<'a, 'b> {
    /// The paths of the files.
    pub paths: &'b [&'a str],
    /// What becomes of rows whose keys are there.
    pub merging: Merging,
    /// Whether something may be lost that the package can't hold.
    pub is_lossy: bool,
}

/// How a package is changed.
#[derive(Clone, Copy)]
pub struct Manner {
    /// Whether reference counts that are too low refuse a change, in place of being mended first.
    pub is_strict: bool,
    /// Whether the new bytes are opened before they take the place of the file.
    pub is_verified: bool,
    /// Whether the counts of rows are printed as JSON, in place of a line for each statement.
    pub is_json: bool,
    /// How JSON is printed.
    pub style: Style,
}

/// Changes the package of a file: all of the change, or none of it. The file is locked from before it is read until it
/// is replaced. `notes` gets lines that say what else the change does to the file, and then what each statement did; as
/// JSON that goes to `output`.
///
/// # Errors
/// Fails as `Claim::take`, `open_to_change`, the change, `bytes_to_write` and the calls of the system do. Then the file
/// is as it was.
pub fn change_file(
    rt: &System,
    file: &PackageFile<'_>,
    change: Change<'_, '_>,
    manner: Manner,
    output: &mut Output,
    notes: &mut Output,
) -> Result<(), Failure> {
    let claim = Claim::take(rt, file.path)?;
    let mut outcome = Outcome::new(rt.alloc());
    let (package, state) = changed_package(rt, file, change, manner, &mut outcome, notes)?;
    store(rt, file.path, &claim, package, state, manner, notes)?;
    outcome.note_added(file.path, notes);
    outcome.note_mended(file.path, notes);
    if manner.is_json {
        outcome.print(rt.alloc(), manner.style, file.path, output);
    } else {
        outcome.note_carried(file.path, notes);
    }
    Ok(())
}

/// Makes a file of the package of another one, with a change made: all of the change, or no file. The other file stays
/// as it is. `notes` gets lines that say what else the change does, and then what each statement did.
///
/// # Errors
/// Fails as `open_to_change`, the change, `FileBytes::of` and `write_package` do.
pub fn change_into(
    rt: &System,
    file: &PackageFile<'_>,
    change: Change<'_, '_>,
    target: Destination<'_>,
    manner: Manner,
    notes: &mut Output,
) -> Result<(), Failure> {
    let mut outcome = Outcome::new(rt.alloc());
    let (package, state) = changed_package(rt, file, change, manner, &mut outcome, notes)?;
    store_new(rt, target, package, state, manner, notes)?;
    outcome.note_added(target.path, notes);
    outcome.note_mended(target.path, notes);
    outcome.note_carried(target.path, notes);
    Ok(())
}

/// Returns the package of a file with the change made, and how the file differed from it when it was opened.
fn changed_package(
    rt: &System,
    file: &PackageFile<'_>,
    change: Change<'_, '_>,
    manner: Manner,
    outcome: &mut Outcome,
    notes: &mut Output,
) -> Result<(Package<Opened>, FileState), Failure> {
    let (mut package, state) = open_to_change(rt, file, notes)?;
    let before = Before::of(rt.alloc(), &package)?;
    // A transform that brings `_Validation` doesn't make the package anew for it.
    let is_transformed = matches!(change, Change::Transforms(_));
    apply(rt, file.path, &mut package, change, manner, outcome, notes)?;
    if !is_transformed && let Some(added) = before.added(rt, file.path, &package)? {
        outcome.add_validation(added);
    }
    if outcome.is_anew() {
        before.check_listed(rt, file.path)?;
    }
    recode(&mut package, file.purpose, manner, outcome)?;
    Ok((package, state))
}

fn apply(
    rt: &System,
    file: &str,
    package: &mut Package<Opened>,
    change: Change<'_, '_>,
    manner: Manner,
    outcome: &mut Outcome,
    notes: &mut Output,
) -> Result<(), Failure> {
    match change {
        Change::Add(pairs) => add_streams(rt, package, pairs),
        Change::Remove {
            names,
            is_signature,
        } => remove_parts(rt.alloc(), package, names, is_signature),
        Change::Execute(statements) => execute(rt, package, statements, manner, outcome),
        Change::Import(asked) => {
            let losses = &mut Losses::new(file, notes);
            import_files(rt, package, asked, manner, outcome, losses)
        }
        Change::Transforms(asked) => apply_transforms(rt, file, package, asked, manner, outcome),
        Change::Properties { set, cleared } => set_properties(rt.alloc(), package, set, cleared),
    }
}

/// Carries out statements. Counts that are too low for that are mended first, or the failure has the note that counting
/// anew mends them.
fn execute(
    rt: &System,
    package: &mut Package<Opened>,
    statements: Vec<PreparedStatement<'_>>,
    manner: Manner,
    outcome: &mut Outcome,
) -> Result<(), Failure> {
    mend_first(package, manner, outcome);
    match carry_out_statements(rt, package, statements, outcome) {
        Ok(()) => Ok(()),
        Err(failure) => Err(noted(package, failure)),
    }
}

/// Counts that are too low for the tables of the files are mended first.
fn import_files(
    rt: &System,
    package: &mut Package<Opened>,
    asked: Import<'_, '_>,
    manner: Manner,
    outcome: &mut Outcome,
    losses: &mut Losses<'_>,
) -> Result<(), Failure> {
    let given = read_files(rt, asked.paths)?;
    if given.page.is_some() || !given.tables.is_empty() {
        mend_first(package, manner, outcome);
    }
    if let Err(failure) = import_given(rt.alloc(), package, &given, asked.merging) {
        return Err(noted(package, failure));
    }
    note_losses(rt.alloc(), package, given.tables.as_slice(), losses)?;
    losses.permit(asked.is_lossy)
}
