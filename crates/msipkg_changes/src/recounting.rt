//! The counts of a package's texts: counting them anew, and what is said where they are too low for a change.

ghost use Rattle.msipkg_changes.specs.TransformsInTurn.{IsMended};

use crate::change::Manner;
use crate::emptying::empty_texts;
use crate::outcome::{Outcome, note_mended};
use crate::pages::recode;
use crate::storing::store;
use msipkg_format::Shown;
use msipkg_packages::msi::Package;
use msipkg_packages::output::{Failure, Opened, Output, System};
use msipkg_packages::{Claim, PackageFile, open_to_change};
use msipkg_transforms::is_miscounted;
use std::alloc::Global;

/// Counts the texts of a file's package anew and makes its empty texts null, and replaces the file if that changed
/// something. Then `notes` gets lines that say how many.
///
/// # Errors
/// Fails as `Claim::take`, `open_package`, `Package::recount`, `bytes_to_write` and the calls of the system do. Then
/// the file is as it was.
pub fn mend_counts(
    rt: &System,
    file: &PackageFile<'_>,
    manner: Manner,
    notes: &mut Output,
) -> Result<(), Failure> {
    let claim = Claim::take(rt, file.path)?;
    let (mut package, state) = open_to_change(rt, file, notes)?;
    let mended = mend(rt.alloc(), &mut package)?;
    if mended.is_nothing() {
        return Ok(());
    }
    let mut outcome = Outcome::new(rt.alloc());
    recode(&mut package, file.purpose, manner, &mut outcome)?;
    store(rt, file.path, &claim, package, state, manner, notes)?;
    mended.note(file.path, notes);
    Ok(())
}

/// What was mended in a package.
#[derive(Clone, Copy)]
struct Mended {
    /// How many counts were wrong.
    counts: u32,
    /// How many empty texts became null.
    texts: usize,
}

impl Mended {
    fn is_nothing(self) -> bool {
        self.counts == 0 && self.texts == 0
    }

    fn note(self, file: &str, notes: &mut Output) {
        note_mended(file, self.counts, notes);
        let file = Shown::escaped(file);
        match self.texts {
            0 => {}
            1 => writeln!(notes, "msipkg: {file}: 1 empty text is null now"),
            texts => writeln!(notes, "msipkg: {file}: {texts} empty texts are null now"),
        }
    }
}

fn mend(alloc: Global, package: &mut Package<Opened>) -> Result<Mended, Failure> {
    let counts = package.recount()?;
    let texts = empty_texts(alloc, package)?;
    Ok(Mended { counts, texts })
}

/// Counts the texts of a package anew if their counts are too low for a change, unless that is to be refused.
pub(crate) fn mend_first(package: &mut Package<Opened>, manner: Manner, outcome: &mut Outcome)
    ensures { IsMended «package».old «package».new }
{
    if manner.is_strict || !is_miscounted(package) {
        return;
    }
    // Where this is refused, the change is too.
    if let Ok(changed) = package.recount() {
        outcome.add_mended(changed);
    }
}

/// Returns the failure of a change, with the note that counting the package anew mends it, if that is so. The package
/// is counted anew then.
pub(crate) fn noted(package: &mut Package<Opened>, failure: Failure) -> Failure {
    if failure.is_invalid_data() && is_miscounted(package) && package.recount().is_ok() {
        failure.mended_by_counting()
    } else {
        failure
    }
}
