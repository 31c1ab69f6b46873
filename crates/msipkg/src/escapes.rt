//! Which characters a command prints as escapes.

use clap::ArgMatches;
use msipkg_cli::Verb;
use msipkg_format::{Escapes, RowFormat};
use msipkg_show::Format;

/// Returns what a command prints as escapes. JSON and CSV have escapes or quotes of their own.
pub(crate) fn escapes_of(verb: Verb, given: &ArgMatches<'_>, is_terminal: bool) -> Escapes {
    if is_terminal || given.get_flag("escape") {
        return Escapes::Hidden;
    }
    match verb {
        Verb::Info
        | Verb::Tables
        | Verb::Schema
        | Verb::Find
        | Verb::Refs
        | Verb::Streams
        | Verb::Storages
        | Verb::Summary
        | Verb::Check
        | Verb::Diff
        | Verb::ShowTransform => line_escapes(given),
        Verb::Query => row_escapes(given),
        Verb::Extract
        | Verb::New
        | Verb::Add
        | Verb::Remove
        | Verb::Exec
        | Verb::Export
        | Verb::Import
        | Verb::ApplyTransform
        | Verb::MakeTransform
        | Verb::Batch => Escapes::Nothing,
    }
}

fn line_escapes(given: &ArgMatches<'_>) -> Escapes {
    if given.get_flag("json") {
        Escapes::Nothing
    } else {
        Escapes::Hidden
    }
}

fn row_escapes(given: &ArgMatches<'_>) -> Escapes {
    if given.get_flag("raw") {
        return Escapes::Nothing;
    }
    match Format::of_name(given.get_str("format").unwrap_or("tabs")) {
        Some(Format::Table) => Escapes::Hidden,
        Some(Format::Rows(RowFormat::Csv | RowFormat::Json)) => Escapes::Nothing,
        Some(Format::Rows(RowFormat::Tabs | RowFormat::Lines)) | None => Escapes::Breaks,
    }
}
