//! The code pages of a package that is changed: both become UTF-8 where that is asked for.

use crate::change::Manner;
use crate::outcome::Outcome;
use crate::recounting::{mend_first, noted};
use msipkg_packages::Purpose;
use msipkg_packages::msi::{CodePage, Error, Package};
use msipkg_packages::output::{Failure, Opened};

/// Sets the pages of a package to UTF-8, if it is opened to be written so. Counts that are too low for that are mended
/// first.
pub(crate) fn recode(
    package: &mut Package<Opened>,
    purpose: Purpose,
    manner: Manner,
    outcome: &mut Outcome,
) -> Result<(), Failure> {
    match purpose {
        Purpose::Look | Purpose::Change => Ok(()),
        Purpose::Recode | Purpose::RecodeSilently => set_pages(package, manner, outcome),
    }
}

fn set_pages(
    package: &mut Package<Opened>,
    manner: Manner,
    outcome: &mut Outcome,
) -> Result<(), Failure> {
    if !is_utf8(package.database_codepage()) {
        mend_first(package, manner, outcome);
        if let Err(error) = package.set_database_codepage(CodePage::Utf8) {
            return Err(noted(package, Failure::from(error)));
        }
    }
    Ok(set_summary_page(package)?)
}

fn set_summary_page(package: &mut Package<Opened>) -> Result<(), Error> {
    if is_utf8(package.summary_info().codepage()) {
        return Ok(());
    }
    package.summary_info_mut()?.set_codepage(CodePage::Utf8)
}

fn is_utf8(page: CodePage) -> bool {
    matches!(page, CodePage::Utf8)
}
