//! Facts of a package under their names, which print as lines or as JSON.

use msipkg_format::{JsonObject, Style};
use msipkg_packages::msi::{LanguageId, SummaryInfo};
use msipkg_packages::output::Output;
use msipkg_packages::uuid_text;
use std::alloc::{AllocError, Global};
use std::fmt::Display;

/// Facts in the order in which they are added. As a line each is its name, a colon and what it says.
///
/// Where memory is refused for a fact, that is kept, and said once the facts are printed.
pub(crate) struct Facts {
    alloc: Global,
    style: Style,
    text: FactsText,
    /// Whether memory was refused for what a fact was to say.
    is_cut: bool,
}

/// Written out, so that a function that owns one calls one drop, and its proof doesn't go through those of the parts.
impl Drop for Facts {
    fn drop(self) {
        let Facts {
            alloc: _,
            style: _,
            text: _,
            is_cut: _,
        } = self;
    }
}

/// The facts as they are printed.
#[derive(Drop)]
enum FactsText {
    Json(JsonObject),
    /// The lines, which are printed to memory.
    Lines(Output),
}

impl Facts {
    pub(crate) fn new(alloc: Global, style: Style, file: &str, is_json: bool) -> Facts {
        let text = if is_json {
            FactsText::Json(object_of(alloc, file))
        } else {
            FactsText::Lines(Output::to_memory(alloc))
        };
        Facts {
            alloc,
            style,
            text,
            is_cut: false,
        }
    }

    pub(crate) fn text(&mut self, name: &str, text: Option<&str>) {
        let Some(text) = text else {
            return;
        };
        match &mut self.text {
            FactsText::Json(object) => object.put_text(name, Some(text)),
            FactsText::Lines(lines) => writeln!(lines, "{name}: {}", self.style.show(text)),
        }
    }

    /// Adds what a value prints, which has to be safe on a terminal.
    pub(crate) fn shown<D: Display>(&mut self, name: &str, value: &D) {
        match &mut self.text {
            FactsText::Json(object) => object.put_shown(name, value),
            FactsText::Lines(lines) => writeln!(lines, "{name}: {value}"),
        }
    }

    pub(crate) fn uuid(&mut self, name: &str, summary: &SummaryInfo) {
        match uuid_text(self.alloc, summary) {
            Ok(Some(text)) => self.text(name, Some(text.as_str())),
            Ok(None) => {}
            Err(_) => self.refuse_memory(),
        }
    }

    pub(crate) fn number(&mut self, name: &str, number: Option<i64>) {
        let Some(number) = number else {
            return;
        };
        match &mut self.text {
            FactsText::Json(object) => object.put_number(name, Some(number)),
            FactsText::Lines(lines) => writeln!(lines, "{name}: {number}"),
        }
    }

    pub(crate) fn noted_number(&mut self, name: &str, number: i64, note: &str) {
        match &mut self.text {
            FactsText::Json(object) => object.put_number(name, Some(number)),
            FactsText::Lines(lines) => writeln!(lines, "{name}: {number} ({note})"),
        }
    }

    pub(crate) fn truth(&mut self, name: &str, holds: bool) {
        match &mut self.text {
            FactsText::Json(object) => object.put_truth(name, holds),
            FactsText::Lines(lines) => {
                writeln!(lines, "{name}: {}", if holds { "yes" } else { "no" })
            }
        }
    }

    pub(crate) fn texts(&mut self, name: &str, texts: &[String]) {
        if texts.is_empty() {
            return;
        }
        match &mut self.text {
            FactsText::Json(object) => put_texts(name, texts, object),
            FactsText::Lines(lines) => push_texts(self.style, name, texts, lines),
        }
    }

    /// Adds languages, and their tags behind them.
    pub(crate) fn languages(&mut self, name: &str, languages: &[LanguageId]) {
        if languages.is_empty() {
            return;
        }
        match &mut self.text {
            FactsText::Json(object) => put_languages(name, languages, object),
            FactsText::Lines(lines) => push_languages(name, languages, lines),
        }
    }

    pub(crate) fn refuse_memory(&mut self) {
        self.is_cut = true;
    }

    /// Prints the facts, or none of them where memory was refused, which the output then notes.
    pub(crate) fn print(self, output: &mut Output) {
        let Facts {
            alloc: _,
            style,
            text,
            is_cut,
        } = self;
        if is_cut {
            return output.refuse_memory(AllocError);
        }
        match text {
            FactsText::Json(object) => object.print_line(style, output),
            FactsText::Lines(lines) => print_lines(&lines, output),
        }
    }
}

fn object_of(alloc: Global, file: &str) -> JsonObject {
    let mut object = JsonObject::new(alloc);
    object.put_text("file", Some(file));
    object
}

fn put_texts(name: &str, texts: &[String], object: &mut JsonObject) {
    object.open_list(name);
    for text in texts {
        object.put_text_item(text.as_str());
    }
    object.close_list();
}

fn push_texts(style: Style, name: &str, texts: &[String], lines: &mut Output) {
    lines.push_str(name);
    let mut before = ": ";
    for text in texts {
        write!(lines, "{before}{}", style.show(text.as_str()));
        before = "; ";
    }
    lines.push_str("\n");
}

fn put_languages(name: &str, languages: &[LanguageId], object: &mut JsonObject) {
    object.open_list(name);
    for language in languages {
        object.put_number_item(i64::from(language.id()));
    }
    object.close_list();
    put_tags(languages, object);
}

fn put_tags(languages: &[LanguageId], object: &mut JsonObject) {
    object.open_list("language_tags");
    for language in languages {
        object.put_text_item(language.tag());
    }
    object.close_list();
}

fn push_languages(name: &str, languages: &[LanguageId], lines: &mut Output) {
    lines.push_str(name);
    let mut before = ": ";
    for language in languages {
        write!(lines, "{before}{}", language.id());
        before = ",";
    }
    lines.push_str("\n");
    push_tags(languages, lines);
}

fn push_tags(languages: &[LanguageId], lines: &mut Output) {
    lines.push_str("language_tags");
    let mut before = ": ";
    for language in languages {
        write!(lines, "{before}{}", language.tag());
        before = "; ";
    }
    lines.push_str("\n");
}

/// Prints lines. Printing to memory fails only where memory is refused.
fn print_lines(lines: &Output, output: &mut Output) {
    if lines.has_failed() {
        output.refuse_memory(AllocError);
    } else {
        output.push_bytes(lines.as_bytes());
    }
}
