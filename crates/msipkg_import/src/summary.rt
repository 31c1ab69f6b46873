//! Giving a package a summary.

use msipkg_import_files::GivenProperty;
use msipkg_packages::msi::{Error, Package, SummaryInfo, SummaryProperty};
use msipkg_packages::output::{Failure, Opened};
use msipkg_packages::set_property_text;
use std::alloc::Global;

/// Replaces the summary of a package. Of the old one only the code page stays, if no other is given.
pub(crate) fn apply_summary(
    alloc: Global,
    package: &mut Package<Opened>,
    properties: &[GivenProperty],
) -> Result<(), Failure> {
    let summary = package.summary_info_mut()?;
    clear_all(summary)?;
    for given in properties {
        if let Err(failure) = set_property_text(
            alloc,
            summary,
            given.property,
            given.text.as_str(),
        ) {
            return Err(failure.at(alloc, "summary property", given.property.name()));
        }
    }
    Ok(())
}

/// Clears all properties but the code page, which each summary has.
fn clear_all(summary: &mut SummaryInfo) -> Result<(), Error> {
    for property in SummaryProperty::all() {
        if !matches!(property, SummaryProperty::Codepage) {
            summary.clear_property(property)?;
        }
    }
    Ok(())
}
