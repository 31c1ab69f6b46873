//! Calls on the summary, and the value of a UUID. A property has the name that the programs use.

use msi::{Error, FromUuid, HasUuid, SummaryInfo, SummaryProperty, TimeProperty, Value};
use std::alloc::AllocError;
use transcripts_words::answers::Answer;
use transcripts_words::failure::Failure;
use transcripts_words::texts::{codepage, ticks};
use transcripts_words::values::languages;
use transcripts_words::words::Words;
use uuid::Uuid;

pub(crate) fn print(
    answer: &mut Answer,
    summary: &SummaryInfo,
    words: &mut Words,
) -> Result<(), Failure> {
    match SummaryProperty::from_name(words.word()) {
        Some(property) => print_property(answer, summary, property)?,
        None => words.refuse(NO_PROPERTY),
    }
    Ok(())
}

fn print_property(
    answer: &mut Answer,
    summary: &SummaryInfo,
    property: SummaryProperty,
) -> Result<(), Error> {
    match property {
        SummaryProperty::Codepage => write!(answer, "{}", summary.codepage().id()),
        SummaryProperty::Text(text) => print_text(answer, summary.text_property(text)),
        SummaryProperty::Number(number) => answer.push_option(summary.number_property(number)),
        SummaryProperty::Time(time) => {
            answer.push_option(summary.time_property(time).map(|time| time.ticks()));
        }
        SummaryProperty::Keywords => print_keywords(answer, summary)?,
        SummaryProperty::Arch => print_text(answer, summary.arch()),
        SummaryProperty::Languages => print_languages(answer, summary)?,
        SummaryProperty::Uuid => answer.push_option(summary.uuid()),
    }
    Ok(())
}

fn print_text(answer: &mut Answer, text: Option<&str>) {
    match text {
        Some(text) => write!(answer, "{text:?}"),
        None => answer.push_str("none"),
    }
}

/// The reason why a call on another property can't be read.
const NO_PROPERTY: &str = "a summary has no such property";

fn print_keywords(answer: &mut Answer, summary: &SummaryInfo) -> Result<(), Error> {
    let keywords = summary.keywords()?;
    let mut before = "";
    for keyword in &keywords {
        write!(answer, "{before}{:?}", keyword.as_str());
        before = " ";
    }
    if keywords.is_empty() {
        answer.push_str("none");
    }
    Ok(())
}

fn print_languages(answer: &mut Answer, summary: &SummaryInfo) -> Result<(), Error> {
    let languages = summary.languages()?;
    let mut before = "";
    for language in &languages {
        write!(answer, "{before}{}", language.id());
        before = " ";
    }
    if languages.is_empty() {
        answer.push_str("none");
    }
    Ok(())
}

pub(crate) fn set(summary: &mut SummaryInfo, words: &mut Words) -> Result<(), Error> {
    let name = words.word();
    if let Some(property) = SummaryProperty::from_name(name) {
        return set_property(summary, property, words);
    }
    match time_to_now(name) {
        Some(property) => set_to_now(summary, property, words),
        None => {
            words.refuse(NO_PROPERTY);
            Ok(())
        }
    }
}

fn set_property(
    summary: &mut SummaryInfo,
    property: SummaryProperty,
    words: &mut Words,
) -> Result<(), Error> {
    match property {
        SummaryProperty::Codepage => summary.set_codepage(codepage(words)),
        SummaryProperty::Text(text) => summary.set_text_property(text, words.name()),
        SummaryProperty::Number(number) => summary.set_number_property(number, words.number()),
        SummaryProperty::Time(time) => summary.set_time_property(time, ticks(words)),
        SummaryProperty::Keywords => summary.set_keywords(names(words)?.as_slice()),
        SummaryProperty::Arch => summary.set_arch(words.name()),
        SummaryProperty::Languages => summary.set_languages(languages(words)?.as_slice()),
        SummaryProperty::Uuid => summary.set_uuid(uuid(words)),
    }
}

/// Returns the time of a word such as `creation_time_to_now`.
fn time_to_now(word: &str) -> Option<TimeProperty> {
    match SummaryProperty::from_name(word.strip_suffix("_to_now")?)? {
        SummaryProperty::Time(time) => Some(time),
        SummaryProperty::Codepage
        | SummaryProperty::Text(_)
        | SummaryProperty::Number(_)
        | SummaryProperty::Keywords
        | SummaryProperty::Arch
        | SummaryProperty::Languages
        | SummaryProperty::Uuid => None,
    }
}

fn set_to_now(
    summary: &mut SummaryInfo,
    property: TimeProperty,
    words: &mut Words,
) -> Result<(), Error> {
    match property {
        TimeProperty::LastPrinted => summary.set_last_printed_to_now(ticks(words)),
        TimeProperty::CreationTime => summary.set_creation_time_to_now(ticks(words)),
        TimeProperty::LastSavedTime => summary.set_last_save_time_to_now(ticks(words)),
    }
}

fn uuid(words: &mut Words) -> Uuid {
    let uuid = Uuid::parse_str(words.name()).ok();
    words.spelled(uuid, Uuid::nil(), "a UUID is missing")
}

pub(crate) fn print_uuid_value(words: &mut Words, answer: &mut Answer) -> Result<(), Failure> {
    write!(answer, "{}", Value::from_uuid(words.alloc, uuid(words))?);
    Ok(())
}

fn names(words: &mut Words) -> Result<Vec<String>, AllocError> {
    let mut names = Vec::new(words.alloc);
    for _ in 0..words.len() {
        names.push(String::from_str(words.alloc, words.name())?)?;
    }
    Ok(names)
}

pub(crate) fn clear(summary: &mut SummaryInfo, words: &mut Words) -> Result<(), Error> {
    match SummaryProperty::from_name(words.word()) {
        Some(SummaryProperty::Codepage) | None => {
            words.refuse(NO_PROPERTY);
            Ok(())
        }
        Some(property) => summary.clear_property(property),
    }
}
