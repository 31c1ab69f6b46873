//! `summary FILE`: the properties of a package's summary.

use crate::facts::Facts;
use msipkg_format::Style;
use msipkg_packages::msi::{SummaryInfo, SummaryProperty, TextProperty};
use msipkg_packages::output::{Output, TimeText};
use std::alloc::Global;

/// What properties are about, in the order in which they are shown.
#[derive(Clone, Copy, PartialEq, Eq)]
enum Group {
    Package,
    Making,
    Times,
    Numbers,
}

/// The groups in their order.
static GROUPS: [Group; 4] = [Group::Package, Group::Making, Group::Times, Group::Numbers];

impl Group {
    fn of(property: SummaryProperty) -> Group {
        match property {
            SummaryProperty::Text(text) => Group::of_text(text),
            SummaryProperty::Time(_) => Group::Times,
            SummaryProperty::Number(_) => Group::Numbers,
            SummaryProperty::Codepage
            | SummaryProperty::Keywords
            | SummaryProperty::Arch
            | SummaryProperty::Languages
            | SummaryProperty::Uuid => Group::Package,
        }
    }

    fn of_text(text: TextProperty) -> Group {
        match text {
            TextProperty::LastSavedBy | TextProperty::CreatingApplication => Group::Making,
            TextProperty::Title
            | TextProperty::Subject
            | TextProperty::Author
            | TextProperty::Comments => Group::Package,
        }
    }
}

pub(crate) fn print_summary(
    alloc: Global,
    style: Style,
    file: &str,
    summary: &SummaryInfo,
    is_json: bool,
    output: &mut Output,
) {
    let mut facts = Facts::new(alloc, style, file, is_json);
    add_summary(summary, &mut facts);
    facts.print(output);
}

/// Adds the properties that exist, under the names that `--set` takes.
pub(crate) fn add_summary(summary: &SummaryInfo, facts: &mut Facts) {
    for group in &GROUPS {
        add_group(summary, *group, facts);
    }
}

fn add_group(summary: &SummaryInfo, group: Group, facts: &mut Facts) {
    for property in SummaryProperty::all() {
        if Group::of(property) == group {
            add_property(summary, property, facts);
        }
    }
}

fn add_property(summary: &SummaryInfo, property: SummaryProperty, facts: &mut Facts) {
    let name = property.name();
    match property {
        SummaryProperty::Codepage => facts.number(name, Some(i64::from(summary.codepage().id()))),
        SummaryProperty::Text(text) => facts.text(name, summary.text_property(text)),
        SummaryProperty::Number(number) => {
            facts.number(name, summary.number_property(number).map(i64::from));
        }
        SummaryProperty::Time(time) => {
            if let Some(time) = summary.time_property(time) {
                facts.shown(name, &TimeText(time));
            }
        }
        SummaryProperty::Keywords => add_keywords(name, summary, facts),
        SummaryProperty::Arch => facts.text(name, summary.arch()),
        SummaryProperty::Languages => add_languages(name, summary, facts),
        SummaryProperty::Uuid => facts.uuid(name, summary),
    }
}

/// Adds the keywords, which can be read unless memory is refused.
fn add_keywords(name: &str, summary: &SummaryInfo, facts: &mut Facts) {
    match summary.keywords() {
        Ok(keywords) => facts.texts(name, keywords.as_slice()),
        Err(_) => facts.refuse_memory(),
    }
}

/// Adds the languages, which can be read unless memory is refused.
fn add_languages(name: &str, summary: &SummaryInfo, facts: &mut Facts) {
    match summary.languages() {
        Ok(languages) => facts.languages(name, languages.as_slice()),
        Err(_) => facts.refuse_memory(),
    }
}
