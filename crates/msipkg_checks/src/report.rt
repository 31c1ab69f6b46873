//! What a check finds in a package, each finding with its place and its severity.

use crate::check::CheckOptions;
use crate::shown::Cut;
use msipkg_format::{JsonObject, write_quoted, write_text};
use msipkg_packages::output::{Failure, Output};
use std::alloc::Global;
use std::{fmt, mem};

/// How bad a finding is.
#[derive(Clone, Copy)]
enum Severity {
    Error,
    Warning,
}

/// Where something was found. Rows have names, as `row_name` gives them.
#[derive(Clone, Copy)]
pub(crate) enum Place<'a> {
    Summary,
    Pool,
    Stream(&'a str),
    Table(&'a str),
    Column {
        table: &'a str,
        column: &'a str,
    },
    Row {
        table: &'a str,
        row: &'a str,
    },
    Cell {
        table: &'a str,
        row: &'a str,
        column: &'a str,
    },
}

impl fmt::Display for Place<'_> {
    fn fmt<W: fmt::Write>(&self, f: &mut fmt::Formatter<W>) -> fmt::Result {
        match *self {
            Place::Summary => f.write_str("summary"),
            Place::Pool => f.write_str("string pool"),
            Place::Stream(name) => write!(f, "stream {}", Cut(name)),
            Place::Table(name) => write!(f, "table {}", Cut(name)),
            Place::Column { table, column } => {
                write!(f, "table {}: column {}", Cut(table), Cut(column))
            }
            Place::Row { table, row } => write!(f, "table {}: row {row}", Cut(table)),
            Place::Cell { table, row, column } => {
                let (table, column) = (Cut(table), Cut(column));
                write!(f, "table {table}: row {row}, column {column}")
            }
        }
    }
}

/// The findings of a package, each of which is printed as it is found.
#[derive(Drop)]
pub(crate) struct Report<'a> {
    alloc: Global,
    options: CheckOptions,
    file: &'a str,
    /// Whether nothing was found.
    is_empty: bool,
    /// Whether no error was found.
    is_well: bool,
    output: &'a mut Output,
}

impl<'a> Report<'a> {
    pub(crate) fn new(
        alloc: Global,
        options: CheckOptions,
        file: &'a str,
        output: &'a mut Output,
    ) -> Report<'a> {
        Report {
            alloc,
            options,
            file,
            is_empty: true,
            is_well: true,
            output,
        }
    }

    pub(crate) fn is_well(&self) -> bool {
        self.is_well
    }

    pub(crate) fn file(&self) -> Cut<'a> {
        Cut(self.file)
    }

    /// Begins the report: JSON is an object with the file's path and the list of the findings, on one line.
    pub(crate) fn begin(&mut self) {
        if !self.options.is_json {
            return;
        }
        let mut object = JsonObject::new(self.alloc);
        object.put_text("file", Some(self.file));
        object.open_list("findings");
        match object.begun() {
            Ok(text) => write_text(self.options.style, text, self.output),
            Err(error) => self.output.refuse_memory(error),
        }
    }

    pub(crate) fn add<M: fmt::Display>(&mut self, place: Place<'_>, message: &M) {
        self.put(Severity::Error, place, message);
    }

    /// Prints a warning, or an error if warnings are to be errors.
    pub(crate) fn warn<M: fmt::Display>(&mut self, place: Place<'_>, message: &M) {
        let severity = if self.options.is_strict {
            Severity::Error
        } else {
            Severity::Warning
        };
        self.put(severity, place, message);
    }

    fn put<M: fmt::Display>(&mut self, severity: Severity, place: Place<'_>, message: &M) {
        let is_first = mem::replace(&mut self.is_empty, false);
        self.is_well &= matches!(severity, Severity::Warning);
        if self.options.is_json {
            self.put_item(is_first, severity, place, message);
        } else {
            let file = self.options.style.show(self.file);
            let sign = match severity {
                Severity::Error => "",
                Severity::Warning => "warning: ",
            };
            writeln!(self.output, "{file}: {sign}{place}: {message}");
        }
    }

    fn put_item<M: fmt::Display>(
        &mut self,
        is_first: bool,
        severity: Severity,
        place: Place<'_>,
        message: &M,
    ) {
        if !is_first {
            self.output.push_str(",");
        }
        let severity = match severity {
            Severity::Error => "error",
            Severity::Warning => "warning",
        };
        let mut object = JsonObject::new(self.alloc);
        object.put_text("severity", Some(severity));
        object.put_shown("place", &place);
        object.put_shown("message", message);
        object.print(self.options.style, self.output);
    }

    /// Ends the report, also if the check failed, and then JSON says why.
    pub(crate) fn end(&mut self, failure: Option<&Failure>) {
        if !self.options.is_json {
            return;
        }
        self.output.push_str("]");
        if let Some(failure) = failure {
            self.output.push_str(",\"error\":");
            self.put_failure(failure);
        }
        self.output.push_str("}\n");
    }

    fn put_failure(&mut self, failure: &Failure) {
        let style = self.options.style;
        match failure.to_string(self.alloc) {
            Ok(text) => write_quoted(self.alloc, style, text.as_str(), self.output),
            Err(error) => self.output.refuse_memory(error),
        }
    }
}
