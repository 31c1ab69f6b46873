//! The differences as they are found: printed as lines, or as one line of JSON.

use crate::difference::{Difference, difference_json, print_lines};
use msipkg_format::{JsonObject, Style, write_quoted, write_text};
use msipkg_packages::output::{Failure, Output};
use std::alloc::{AllocError, Global};

/// Where differences are printed.
#[derive(Drop)]
pub struct Report<'a> {
    pub(crate) alloc: Global,
    style: Style,
    is_json: bool,
    /// Whether nothing was found to differ.
    is_equal: bool,
    output: &'a mut Output,
}

impl<'a> Report<'a> {
    pub fn new(alloc: Global, style: Style, is_json: bool, output: &'a mut Output) -> Report<'a> {
        Report {
            alloc,
            style,
            is_json,
            is_equal: true,
            output,
        }
    }

    /// Begins it with the names of what is compared. One that is empty is left out.
    pub fn begin(&mut self, names: &[(&str, &str)]) {
        if !self.is_json {
            return;
        }
        let object = object_of(self.alloc, names);
        match object.begun() {
            Ok(text) => write_text(self.style, text, self.output),
            Err(error) => self.output.refuse_memory(error),
        }
    }

    pub fn add(&mut self, difference: &Difference<'_>) {
        if self.is_json {
            if !self.is_equal {
                self.output.push_str(",");
            }
            difference_json(self.alloc, difference).print(self.style, self.output);
        } else {
            print_lines(self.style, difference, self.output);
        }
        self.is_equal = false;
    }

    /// Reports to the output that memory was refused for what a difference is made of, if it was.
    pub(crate) fn keep(&mut self, made: Result<(), AllocError>) {
        if let Err(error) = made {
            self.output.refuse_memory(error);
        }
    }

    /// Ends the report, and returns whether nothing was found to differ.
    pub fn end(&mut self) -> bool {
        let is_equal = self.is_equal;
        if self.is_json {
            writeln!(self.output, "],\"equal\":{is_equal}}}");
        }
        is_equal
    }

    pub fn end_failed(&mut self, failure: &Failure) {
        if !self.is_json {
            return;
        }
        self.output.push_str("],\"error\":");
        match failure.to_string(self.alloc) {
            Ok(message) => write_quoted(self.alloc, self.style, message.as_str(), self.output),
            Err(error) => self.output.refuse_memory(error),
        }
        self.output.push_str("}\n");
    }
}

fn object_of(alloc: Global, names: &[(&str, &str)]) -> JsonObject {
    let mut object = JsonObject::new(alloc);
    for (what, name) in names {
        if !name.is_empty() {
            object.put_text(what, Some(name));
        }
    }
    object.open_list("differences");
    object
}
