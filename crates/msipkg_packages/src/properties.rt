//! Properties of a package's summary, set and cleared as `msipkg` takes them.

use crate::output::{Failure, Opened};
use msi::{
    CodePage, HasUuid, LanguageId, NumberProperty, Package, SummaryInfo, SummaryProperty,
    TimeProperty, Timestamp,
};
use std::alloc::Global;
use uuid::Uuid;

/// How many nanoseconds a second has.
const NANOSECONDS: i128 = 1_000_000_000;

/// Sets properties, each written as `NAME=VALUE`, and then clears others.
///
/// # Errors
/// Fails at the first word that names no property or whose value the property doesn't take, and with `OutOfMemory`.
/// Those in front of it are set.
pub fn set_properties(
    alloc: Global,
    package: &mut Package<Opened>,
    pairs: &[&str],
    cleared: &[&str],
) -> Result<(), Failure> {
    let summary = package.summary_info_mut()?;
    for pair in pairs {
        set_pair(alloc, summary, pair)?;
    }
    clear_all(alloc, summary, cleared)
}

fn set_pair(alloc: Global, summary: &mut SummaryInfo, pair: &str) -> Result<(), Failure> {
    let Some((name, value)) = pair.split_once('=') else {
        return Err(Failure::rule("it isn't of the form NAME=VALUE").at(alloc, "word", pair));
    };
    set_named(alloc, summary, name, value).map_err(|failure| failure.at(alloc, "property", name))
}

fn set_named(
    alloc: Global,
    summary: &mut SummaryInfo,
    name: &str,
    value: &str,
) -> Result<(), Failure> {
    set_property(alloc, summary, property_named(name)?, value)
}

fn clear_all(alloc: Global, summary: &mut SummaryInfo, names: &[&str]) -> Result<(), Failure> {
    for name in names {
        clear_named(summary, name).map_err(|failure| failure.at(alloc, "property", name))?;
    }
    Ok(())
}

/// Clears a property, but never the code page, since there always is one.
fn clear_named(summary: &mut SummaryInfo, name: &str) -> Result<(), Failure> {
    let property = property_named(name)?;
    if matches!(property, SummaryProperty::Codepage) {
        return Err(no_property());
    }
    Ok(summary.clear_property(property)?)
}

fn property_named(name: &str) -> Result<SummaryProperty, Failure> {
    match SummaryProperty::from_name(name) {
        Some(property) => Ok(property),
        None => Err(no_property()),
    }
}

fn no_property() -> Failure {
    Failure::rule("there is no property of this name that can be set")
}

/// Sets a property to what a value says: keywords separated by `;`, languages by commas, a time as in
/// `2024-02-29T12:00:00Z`.
///
/// # Errors
/// Fails if the property doesn't take the value, and with `OutOfMemory`.
pub fn set_property(
    alloc: Global,
    summary: &mut SummaryInfo,
    property: SummaryProperty,
    value: &str,
) -> Result<(), Failure> {
    match property {
        SummaryProperty::Codepage => Ok(summary.set_codepage(page_of(value)?)?),
        SummaryProperty::Text(property) => Ok(summary.set_text_property(property, value)?),
        SummaryProperty::Number(property) => set_number(summary, property, value),
        SummaryProperty::Time(property) => set_time(summary, property, value),
        SummaryProperty::Keywords => set_keywords(alloc, summary, value),
        SummaryProperty::Arch => Ok(summary.set_arch(value)?),
        SummaryProperty::Languages => set_languages(alloc, summary, value),
        SummaryProperty::Uuid => set_uuid(summary, value),
    }
}

fn set_number(
    summary: &mut SummaryInfo,
    property: NumberProperty,
    value: &str,
) -> Result<(), Failure> {
    match value.parse::<i32>() {
        Ok(number) => Ok(summary.set_number_property(property, number)?),
        Err(_) => Err(Failure::rule("its value has to be a number of 32 bits")),
    }
}

fn set_time(summary: &mut SummaryInfo, property: TimeProperty, value: &str) -> Result<(), Failure> {
    match time_of(value) {
        Some(time) => Ok(summary.set_time_property(property, time)?),
        None => Err(Failure::rule("its value has to be a time such as 2024-02-29T12:00:00Z")),
    }
}

/// Reads a time as `summary` prints it: in ISO 8601, such as `2024-02-29T12:00:00Z`, or as a number of ticks.
fn time_of(text: &str) -> Option<Timestamp> {
    if let Some(number) = text.strip_suffix(" ticks") {
        return Some(Timestamp::from_ticks(number.parse::<u64>().ok()?));
    }
    let instant = text.parse::<jiff::Timestamp>().ok()?;
    let nanoseconds = instant.as_nanosecond();
    let seconds = i64::try_from(nanoseconds.div_euclid(NANOSECONDS)).ok()?;
    let rest = u32::try_from(nanoseconds.rem_euclid(NANOSECONDS)).ok()?;
    Some(Timestamp::from_unix(seconds, rest))
}

/// Returns the code page of a number.
///
/// # Errors
/// Fails if there is no such page.
pub fn page_of(number: &str) -> Result<CodePage, Failure> {
    let known = match number.parse::<i32>() {
        Ok(number) => CodePage::from_id(number),
        Err(_) => None,
    };
    match known {
        Some(page) => Ok(page),
        None => Err(Failure::rule("there is no code page of this number")),
    }
}

fn set_uuid(summary: &mut SummaryInfo, value: &str) -> Result<(), Failure> {
    match Uuid::parse_str(value) {
        Ok(uuid) => Ok(summary.set_uuid(uuid)?),
        Err(_) => Err(Failure::rule("its value has to be a UUID")),
    }
}

fn set_keywords(alloc: Global, summary: &mut SummaryInfo, value: &str) -> Result<(), Failure> {
    let keywords = keywords_of(alloc, value)?;
    Ok(summary.set_keywords(keywords.as_slice())?)
}

/// Reads keywords, separated by `;`.
fn keywords_of(alloc: Global, value: &str) -> Result<Vec<String>, Failure> {
    let mut keywords = Vec::new(alloc);
    for keyword in value.split(';') {
        keywords.push(String::from_str(alloc, keyword.trim())?)?;
    }
    Ok(keywords)
}

fn set_languages(alloc: Global, summary: &mut SummaryInfo, value: &str) -> Result<(), Failure> {
    let languages = languages_of(alloc, value)?;
    Ok(summary.set_languages(languages.as_slice())?)
}

/// Reads the numbers of languages, separated by commas.
fn languages_of(alloc: Global, value: &str) -> Result<Vec<LanguageId>, Failure> {
    let mut languages = Vec::new(alloc);
    for number in value.split(',') {
        let Ok(number) = number.trim().parse::<u16>() else {
            return Err(Failure::rule(
                "its value has to be numbers of languages, such as 1033,1031",
            ));
        };
        languages.push(LanguageId::from_id(number))?;
    }
    Ok(languages)
}
