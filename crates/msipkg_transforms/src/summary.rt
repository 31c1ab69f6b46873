//! The summary of a transform that is made.

use crate::file::{FLAGS, NEW_TEMPLATE, OLD_TEMPLATE, PAGE_COUNT, PRODUCTS, TITLE};
use msi_summary_properties::parts::stream_of;
use msipkg_format::{Failure, Opened, StoredProperty};
use msipkg_packages::msi::{
    CodePage, Error, NumberProperty, OperatingSystem, Package, PackageType, Parse, PropertySet,
    PropertyText, PropertyValue, Rows, Select, SummaryInfo, Text, ValueView,
};
use msipkg_packages::property_text;
use std::alloc::{AllocError, Global};

/// The format identifier that says that a property set is a summary (FMTID_SummaryInformation of MS-OLEPS).
const FORMAT: [u8; 16] = [
    0xE0, 0x85, 0x9F, 0xF2, 0xF9, 0x4F, 0x68, 0x10, 0xAB, 0x91, 0x08, 0x00, 0x2B, 0x27, 0xB3, 0xD9,
];

/// The queries for what a package's properties say of its product.
const PRODUCT_CODE: &str = "SELECT Value FROM Property WHERE Property = 'ProductCode'";

const PRODUCT_VERSION: &str = "SELECT Value FROM Property WHERE Property = 'ProductVersion'";

const UPGRADE_CODE: &str = "SELECT Value FROM Property WHERE Property = 'UpgradeCode'";

/// The version of the system that the set says it was made on.
const SYSTEM_VERSION: u16 = 10;

/// Returns the stream of the summary of a transform from one package to another, in UTF-8: the title, the templates of
/// both, their products where `Property` has them, the greater version of the installer that they need, and the flags.
///
/// # Errors
/// Fails if memory is refused.
pub(crate) fn summary_of(
    alloc: Global,
    old: &Package<Opened>,
    new: &Package<Opened>,
    flags: u32,
) -> Result<Vec<u8>, Failure> {
    let mut set = PropertySet::new(alloc, OperatingSystem::Win32, SYSTEM_VERSION, FORMAT);
    set.set_codepage(CodePage::Utf8)?;
    let title = String::from_str(alloc, PackageType::Transform.title())?;
    set_text(&mut set, TITLE, Some(title))?;
    let template = template_of(alloc, old.summary_info())?;
    set_text(&mut set, OLD_TEMPLATE, template)?;
    let template = template_of(alloc, new.summary_info())?;
    set_text(&mut set, NEW_TEMPLATE, template)?;
    set_text(&mut set, PRODUCTS, products_of(alloc, old, new)?)?;
    if let Some(count) = page_count(old.summary_info(), new.summary_info()) {
        set.set(PAGE_COUNT, PropertyValue::I4(count))?;
    }
    set.set(FLAGS, PropertyValue::I4(flags.cast_signed()))?;
    Ok(stream_of(&set)?)
}

/// Sets a property to a text, if there is one.
fn set_text(set: &mut PropertySet, id: u32, text: Option<String>) -> Result<(), Error> {
    match text {
        Some(text) => {
            let text = PropertyText::from_text(Text::from_string(text));
            set.set(id, PropertyValue::LpStr(text))
        }
        None => Ok(()),
    }
}

fn template_of(alloc: Global, summary: &SummaryInfo) -> Result<Option<String>, Error> {
    property_text(alloc, summary, StoredProperty::Template)
}

fn page_count(old: &SummaryInfo, new: &SummaryInfo) -> Option<i32> {
    let old = old.number_property(NumberProperty::PageCount);
    let new = new.number_property(NumberProperty::PageCount);
    match (old, new) {
        (Some(old), Some(new)) => Some(old.max(new)),
        (Some(count), None) | (None, Some(count)) => Some(count),
        (None, None) => None,
    }
}

/// Returns the codes and versions of both products, and the upgrade code of the new one, which may be missing, as a
/// transform has them: `{code}version;{code}version;{upgrade}`.
fn products_of(
    alloc: Global,
    old: &Package<Opened>,
    new: &Package<Opened>,
) -> Result<Option<String>, AllocError> {
    let Some(mut text) = product_of(alloc, old)? else {
        return Ok(None);
    };
    let Some(product) = product_of(alloc, new)? else {
        return Ok(None);
    };
    text.push(';')?;
    text.push_str(product.as_str())?;
    text.push(';')?;
    push_selected(alloc, new, UPGRADE_CODE, &mut text)?;
    Ok(Some(text))
}

/// Returns the code of a package's product with the version behind it, if the package has both.
fn product_of(alloc: Global, package: &Package<Opened>) -> Result<Option<String>, AllocError> {
    let mut text = String::new(alloc);
    let has_code = push_selected(alloc, package, PRODUCT_CODE, &mut text)?;
    let has_version = push_selected(alloc, package, PRODUCT_VERSION, &mut text)?;
    Ok(if has_code && has_version {
        Some(text)
    } else {
        None
    })
}

/// Puts the text that a query selects behind another, and returns whether there is one. A table that isn't there, can't
/// be read, or has other columns has none.
fn push_selected(
    alloc: Global,
    package: &Package<Opened>,
    query: &str,
    text: &mut String,
) -> Result<bool, AllocError> {
    if let Ok(rows) = selected(alloc, package, query)
        && let Some(ValueView::Str(value)) = rows.get(0)
    {
        text.push_str(value)?;
        return Ok(true);
    }
    Ok(false)
}

fn selected<'a>(
    alloc: Global,
    package: &'a Package<Opened>,
    query: &str,
) -> Result<Rows<'a>, Failure> {
    Ok(package.select_rows(Select::parse(alloc, query)?)?)
}
