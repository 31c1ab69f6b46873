//! The properties of a summary as texts, as the installer's table `_SummaryInformation` has them, and their way back.

use crate::installer_times::{installer_time, iso_text};
use crate::output::{Failure, StoredProperty};
use crate::properties::set_property;
use msi::{Error, HasUuid, SummaryInfo, SummaryProperty, Timestamp};
use std::alloc::{AllocError, Global};
use uuid::Uuid;

/// Returns the text of a property, if it is there: keywords with `; ` between each two, the template as
/// `Intel;1033,1031`, and times in UTC as `2024/02/29 12:00:00`.
///
/// # Errors
/// Fails with `OutOfMemory`.
pub fn property_text(
    alloc: Global,
    summary: &SummaryInfo,
    property: StoredProperty,
) -> Result<Option<String>, Error> {
    match property {
        StoredProperty::Template => template_text(alloc, summary),
        StoredProperty::Single(property) => single_text(alloc, summary, property),
    }
}

fn single_text(
    alloc: Global,
    summary: &SummaryInfo,
    property: SummaryProperty,
) -> Result<Option<String>, Error> {
    match property {
        SummaryProperty::Codepage => Ok(number_text(alloc, Some(summary.codepage().id()))?),
        SummaryProperty::Text(property) => Ok(copied(alloc, summary.text_property(property))?),
        SummaryProperty::Number(property) => {
            Ok(number_text(alloc, summary.number_property(property))?)
        }
        SummaryProperty::Time(property) => Ok(time_text(alloc, summary.time_property(property))?),
        SummaryProperty::Keywords => keywords_text(alloc, summary),
        SummaryProperty::Arch => Ok(copied(alloc, summary.arch())?),
        SummaryProperty::Languages => languages_text(alloc, summary),
        SummaryProperty::Uuid => Ok(uuid_text(alloc, summary)?),
    }
}

fn copied(alloc: Global, text: Option<&str>) -> Result<Option<String>, AllocError> {
    match text {
        Some(text) => Ok(Some(String::from_str(alloc, text)?)),
        None => Ok(None),
    }
}

fn number_text(alloc: Global, number: Option<i32>) -> Result<Option<String>, AllocError> {
    match number {
        Some(number) => Ok(Some(number.to_string(alloc)?)),
        None => Ok(None),
    }
}

fn time_text(alloc: Global, time: Option<Timestamp>) -> Result<Option<String>, AllocError> {
    match time {
        Some(time) => Ok(Some(installer_time(alloc, time)?)),
        None => Ok(None),
    }
}

/// Returns the UUID of a summary as the installer writes it, in braces and capital letters, if it is there.
///
/// # Errors
/// Fails if memory is refused.
pub fn uuid_text(alloc: Global, summary: &SummaryInfo) -> Result<Option<String>, AllocError> {
    let Some(uuid) = summary.uuid() else {
        return Ok(None);
    };
    let mut room = Uuid::encode_buffer();
    let text = String::from_str(alloc, uuid.braced().encode_upper(&mut room))?;
    Ok(Some(text))
}

fn keywords_text(alloc: Global, summary: &SummaryInfo) -> Result<Option<String>, Error> {
    let keywords = summary.keywords()?;
    if keywords.is_empty() {
        return Ok(None);
    }
    let mut text = String::new(alloc);
    let mut before = "";
    for keyword in &keywords {
        text.push_str(before)?;
        text.push_str(keyword.as_str())?;
        before = "; ";
    }
    Ok(Some(text))
}

/// Returns the languages' numbers with a comma between each two, if there is one.
fn languages_text(alloc: Global, summary: &SummaryInfo) -> Result<Option<String>, Error> {
    let languages = summary.languages()?;
    if languages.is_empty() {
        return Ok(None);
    }
    let mut text = String::new(alloc);
    let mut before = "";
    for language in &languages {
        let id = language.id();
        text.push_str(before)?;
        write!(text, "{id}")?;
        before = ",";
    }
    Ok(Some(text))
}

fn template_text(alloc: Global, summary: &SummaryInfo) -> Result<Option<String>, Error> {
    let languages = languages_text(alloc, summary)?;
    let arch = summary.arch();
    if arch.is_none() && languages.is_none() {
        return Ok(None);
    }
    let mut text = String::from_str(alloc, arch.unwrap_or(""))?;
    if let Some(languages) = &languages {
        text.push(';')?;
        text.push_str(languages.as_str())?;
    }
    Ok(Some(text))
}

/// Sets a property to what a text of it says, as `property_text` returns it.
///
/// # Errors
/// Fails if the text is none of the property's, or with `OutOfMemory`. The architecture may be set then.
pub fn set_property_text(
    alloc: Global,
    summary: &mut SummaryInfo,
    property: StoredProperty,
    text: &str,
) -> Result<(), Failure> {
    match property {
        StoredProperty::Template => set_template(alloc, summary, text),
        StoredProperty::Single(property) => set_single(alloc, summary, property, text),
    }
}

fn set_single(
    alloc: Global,
    summary: &mut SummaryInfo,
    property: SummaryProperty,
    text: &str,
) -> Result<(), Failure> {
    match property {
        SummaryProperty::Keywords => Ok(set_keywords(alloc, summary, text)?),
        SummaryProperty::Time(_) => {
            let time = iso_text(alloc, text)?;
            set_property(alloc, summary, property, time.as_str())
        }
        SummaryProperty::Codepage
        | SummaryProperty::Text(_)
        | SummaryProperty::Number(_)
        | SummaryProperty::Arch
        | SummaryProperty::Languages
        | SummaryProperty::Uuid => set_property(alloc, summary, property, text),
    }
}

/// Sets the keywords to a text as it is, in which they are separated already.
fn set_keywords(alloc: Global, summary: &mut SummaryInfo, text: &str) -> Result<(), Error> {
    let text = String::from_str(alloc, text)?;
    summary.set_keywords(vec![in alloc; text]?.as_slice())
}

/// Sets the architecture, and the languages behind the first `;`, if there are any.
fn set_template(alloc: Global, summary: &mut SummaryInfo, text: &str) -> Result<(), Failure> {
    let (arch, languages) = text.split_once(';').unwrap_or((text, ""));
    summary.set_arch(arch)?;
    if languages.is_empty() {
        return Ok(());
    }
    set_property(alloc, summary, SummaryProperty::Languages, languages)
}
