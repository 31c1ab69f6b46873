//! What differs between the kinds, the code pages and the summaries of two packages.

use crate::diff::Compared;
use crate::difference::{Change, Content, Difference, Member};
use crate::report::Report;
use msipkg_packages::msi::{Error, SummaryInfo, SummaryProperty};
use msipkg_packages::output::StoredProperty;
use msipkg_packages::{kind_name, property_text};

/// Compares the kinds, the code pages that the files name, and whether there is a signature.
pub(crate) fn compare_kinds(old: &Compared<'_>, new: &Compared<'_>, report: &mut Report<'_>) {
    let kind = kind_name(old.package.package_type());
    let other = kind_name(new.package.package_type());
    compare_texts("package", "kind", Some(kind), Some(other), report);
    if old.page != new.page {
        let (page, other) = (page_content(old.page), page_content(new.page));
        add_fact("codepage", page, other, report);
    }
    let signed = old.package.has_digital_signature();
    let other = new.package.has_digital_signature();
    if signed != other {
        let (signed, other) = (Content::Truth(signed), Content::Truth(other));
        add_fact("signed", signed, other, report);
    }
}

fn page_content(page: i32) -> Content<'static> {
    Content::Number(i64::from(page))
}

fn add_fact(name: &'static str, old: Content<'_>, new: Content<'_>, report: &mut Report<'_>) {
    report.add(&Difference {
        change: Change::Changed,
        kind: "package",
        table: "",
        name,
        old: &[Member { name, content: old }],
        new: &[Member { name, content: new }],
    });
}

pub(crate) fn compare_summaries(
    old: &SummaryInfo,
    new: &SummaryInfo,
    report: &mut Report<'_>,
) -> Result<(), Error> {
    for property in SummaryProperty::all() {
        if let Some(property) = StoredProperty::of(property) {
            compare_property(property, old, new, report)?;
        }
    }
    Ok(())
}

fn compare_property(
    property: StoredProperty,
    old: &SummaryInfo,
    new: &SummaryInfo,
    report: &mut Report<'_>,
) -> Result<(), Error> {
    let old = property_text(report.alloc, old, property)?;
    let new = property_text(report.alloc, new, property)?;
    let old_text = old.as_ref().map(|text| text.as_str());
    let new_text = new.as_ref().map(|text| text.as_str());
    compare_texts("summary", property.name(), old_text, new_text, report);
    Ok(())
}

fn compare_texts(
    kind: &'static str,
    name: &'static str,
    old: Option<&str>,
    new: Option<&str>,
    report: &mut Report<'_>,
) {
    if old == new {
        return;
    }
    let (old_member, new_member) = (text_member(name, old), text_member(name, new));
    report.add(&Difference {
        change: Change::of(old.is_some(), new.is_some()),
        kind,
        table: "",
        name,
        old: old_member.as_slice(),
        new: new_member.as_slice(),
    });
}

fn text_member<'a>(name: &'a str, text: Option<&'a str>) -> Option<Member<'a>> {
    let content = Content::Text(text?);
    Some(Member { name, content })
}
