//! Opening packages that are looked at.

use crate::package_view::PackageView;
use msipkg_format::{Failure, Output, System, SystemFile};
use msipkg_packages::{
    PackageFile, Recoded, check_kind, note_summary, read_file, recoded_by_page, recoded_instead,
    without_summary,
};

/// Returns the package of a file that is looked at. If its texts are recoded, `notes` gets a line that says so.
///
/// # Errors
/// Fails if the file can't be opened, as `Package::open` does, and at a text that its page doesn't read.
pub fn look_at(
    rt: &System,
    file: &PackageFile<'_>,
    notes: &mut Output,
) -> Result<PackageView, Failure> {
    check_kind(rt, file.path)?;
    if let Some(recoded) = recoded_by_page(rt, file)? {
        return look_at_recoded(rt, file, recoded, notes);
    }
    match PackageView::open(rt.alloc(), rt.open(file.path)?) {
        Ok(package) => Ok(package),
        Err(failure) if failure.is_invalid_data() => {
            let bytes = read_file(rt, file.path)?;
            let recoded = recoded_instead(rt.alloc(), bytes, file, failure)?;
            look_at_recoded(rt, file, recoded, notes)
        }
        Err(failure) => Err(failure),
    }
}

fn look_at_recoded(
    rt: &System,
    file: &PackageFile<'_>,
    recoded: Recoded,
    notes: &mut Output,
) -> Result<PackageView, Failure> {
    recoded.permit(file, notes)?;
    let page = recoded.named_page();
    let file = SystemFile::of_bytes(recoded.into_bytes());
    Ok(PackageView::open(rt.alloc(), file)?.recoded_from(page))
}

/// Returns the package of a file that is looked at. If only its summary can't be read, it has none, and `notes` gets a
/// line that says so.
///
/// # Errors
/// Fails as `look_at` does, if more than the summary can't be read.
pub fn open_to_look(
    rt: &System,
    file: &PackageFile<'_>,
    notes: &mut Output,
) -> Result<PackageView, Failure> {
    match look_at(rt, file, notes) {
        Ok(package) => Ok(package),
        Err(failure) if failure.is_invalid_data() => look_at_rest(rt, file, failure, notes),
        Err(failure) => Err(failure),
    }
}

/// Returns the package, without its summary, of a file that isn't opened because of `failure`.
fn look_at_rest(
    rt: &System,
    file: &PackageFile<'_>,
    failure: Failure,
    notes: &mut Output,
) -> Result<PackageView, Failure> {
    match rest_of(rt, file, notes) {
        Ok(package) => {
            note_summary(file, &failure, notes);
            Ok(package)
        }
        Err(_) => Err(failure),
    }
}

/// The texts may have to be recoded, too.
fn rest_of(
    rt: &System,
    file: &PackageFile<'_>,
    notes: &mut Output,
) -> Result<PackageView, Failure> {
    if file.page.is_none()
        && let Ok(package) = PackageView::open_rest(rt.alloc(), rt.open(file.path)?)
    {
        return Ok(package);
    }
    let rest = without_summary(rt, file)?;
    Ok(look_at_recoded(rt, file, rest, notes)?.without_summary())
}
