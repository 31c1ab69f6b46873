//! `summary FILE`.

use crate::lines::Lines;
use crate::packages;
use msi::{Error, HasUuid, LanguageId, SummaryInfo, SummaryProperty, Timestamp};
use std::alloc::Global;
use std::fmt::Display;
use std::io::Write;

pub(crate) fn print_summary<O: Write>(
    rt: &HostRuntime,
    file: &str,
    output: &mut O,
) -> Result<(), Error> {
    let summary = packages::look(rt, file)?.summary_info()?;
    lines_of(rt.alloc(), &summary)?.end(output)
}

fn lines_of(alloc: Global, summary: &SummaryInfo) -> Result<Lines, Error> {
    let mut lines = Lines::new(alloc);
    for property in SummaryProperty::all() {
        write_property(summary, property, &mut lines)?;
    }
    Ok(lines)
}

fn write_property(
    summary: &SummaryInfo,
    property: SummaryProperty,
    lines: &mut Lines,
) -> Result<(), Error> {
    let name = property.name();
    match property {
        SummaryProperty::Codepage => write_value(name, Some(summary.codepage().id()), lines),
        SummaryProperty::Text(text) => write_value(name, summary.text_property(text), lines),
        SummaryProperty::Number(number) => {
            write_value(name, summary.number_property(number), lines);
        }
        SummaryProperty::Time(time) => {
            write_value(name, ticks(summary.time_property(time)), lines);
        }
        SummaryProperty::Keywords => write_keywords(name, summary.keywords()?.as_slice(), lines),
        SummaryProperty::Arch => write_value(name, summary.arch(), lines),
        SummaryProperty::Languages => write_languages(name, summary.languages()?.as_slice(), lines),
        SummaryProperty::Uuid => write_value(name, summary.uuid(), lines),
    }
    Ok(())
}

fn ticks(time: Option<Timestamp>) -> Option<u64> {
    time.map(|time| time.ticks())
}

fn write_value<T: Display + Copy>(name: &str, value: Option<T>, lines: &mut Lines) {
    if let Some(value) = value {
        writeln!(lines, "{name}: {value}");
    }
}

fn write_keywords(name: &str, keywords: &[String], lines: &mut Lines) {
    let Some((first, others)) = keywords.split_first() else {
        return;
    };
    write!(lines, "{name}: {}", first.as_str());
    for keyword in others {
        lines.push_str("; ");
        lines.push_str(keyword.as_str());
    }
    lines.push_str("\n");
}

fn write_languages(name: &str, languages: &[LanguageId], lines: &mut Lines) {
    let Some((first, others)) = languages.split_first() else {
        return;
    };
    write!(lines, "{name}: {first}");
    for language in others {
        write!(lines, ",{language}");
    }
    lines.push_str("\n");
}
