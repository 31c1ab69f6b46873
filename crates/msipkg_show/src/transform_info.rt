//! `info` of a transform: what it was made from and for, and how much it has.

use crate::facts::Facts;
use msipkg_format::Style;
use msipkg_packages::msi::compound::Name;
use msipkg_packages::msi::streamname;
use msipkg_packages::output::{Failure, Output, System};
use msipkg_transforms::file::{FLAGS, NEW_TEMPLATE, OLD_TEMPLATE, PAGE_COUNT, PRODUCTS, TITLE};
use msipkg_transforms::{TransformFile, read_transform, validation_words, words_of};
use std::alloc::Global;

/// What the parts of the property about products are called.
static PRODUCT_NAMES: [&str; 3] = ["old_product", "new_product", "upgrade_code"];

/// Prints what a transform is, as lines or as JSON on one line.
///
/// # Errors
/// Fails as `read_transform` does.
pub(crate) fn show_transform_info(
    rt: &System,
    style: Style,
    path: &str,
    is_json: bool,
    output: &mut Output,
) -> Result<(), Failure> {
    let read = read_transform(rt, path)?;
    let mut facts = Facts::new(rt.alloc(), style, path, is_json);
    facts.text("kind", Some("transform"));
    facts.number(
        "database_codepage",
        Some(i64::from(read.transform.page_id())),
    );
    add_summary(rt.alloc(), &read, &mut facts)?;
    add_parts(&read, &mut facts)?;
    facts.print(output);
    Ok(())
}

fn add_summary(alloc: Global, read: &TransformFile, facts: &mut Facts) -> Result<(), Failure> {
    facts.text("title", read.text(TITLE));
    facts.text("old_template", read.text(OLD_TEMPLATE));
    facts.text("new_template", read.text(NEW_TEMPLATE));
    if let Some(products) = read.text(PRODUCTS) {
        for (name, product) in PRODUCT_NAMES.iter().zip(products.split(';')) {
            facts.text(name, Some(product));
        }
    }
    facts.number("page_count", read.number(PAGE_COUNT).map(i64::from));
    if let Some(flags) = read.number(FLAGS) {
        let validated = validation_words(alloc, flags.cast_unsigned() / 0x10000)?;
        facts.text("validate", Some(validated.as_str()));
        let ignored = words_of(alloc, read.conditions())?;
        facts.text("ignore", Some(ignored.as_str()));
    }
    Ok(())
}

/// The summary isn't among the streams that are counted.
fn add_parts(read: &TransformFile, facts: &mut Facts) -> Result<(), Failure> {
    let (mut tables, mut bytes) = (0usize, 0usize);
    for (_, records) in read.transform.tables() {
        tables = tables.saturating_add(1);
        bytes = bytes.saturating_add(records.as_slice().len());
    }
    facts.number("tables", i64::try_from(tables).ok());
    facts.number("record_bytes", i64::try_from(bytes).ok());
    let name = Name::new(streamname::SUMMARY_INFO_STREAM_NAME)?;
    let summaries = usize::from(read.transform.streams().get(&name).is_some());
    let streams = read.transform.streams().len().saturating_sub(summaries);
    facts.number("streams", i64::try_from(streams).ok());
    Ok(())
}
