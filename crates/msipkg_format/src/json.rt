//! JSON on one line: objects whose members stand in the order in which they are put.

use crate::escape::is_hidden;
use crate::style::Style;
use msipkg_system::Output;
use serde_json::Value;
use std::alloc::{AllocError, Global};
use std::fmt::Display;

/// An object that is being written. Lists and objects in it are opened and closed in turn. Where memory is refused for
/// a part of it, that is kept, and who takes the text or prints it gets that in its place.
pub struct JsonObject {
    alloc: Global,
    text: String,
    /// Whether nothing stands in front of the next member or item.
    is_first: bool,
    /// Whether memory was refused for a part.
    is_cut: bool,
}

/// Written out, so that a function that owns one calls one drop, and its proof doesn't go through those of the parts.
impl Drop for JsonObject {
    fn drop(self) {
        let JsonObject {
            alloc: _,
            text: _,
            is_first: _,
            is_cut: _,
        } = self;
    }
}

impl JsonObject {
    /// Returns an object without members.
    pub fn new(alloc: Global) -> JsonObject {
        let mut object = JsonObject {
            alloc,
            text: String::new(alloc),
            is_first: true,
            is_cut: false,
        };
        object.push("{");
        object
    }

    /// Puts a member whose value is written as JSON already.
    pub fn put_json(&mut self, name: &str, value: &str) {
        self.put_name(name);
        self.push(value);
    }

    /// Puts a text, or null where there is none.
    pub fn put_text(&mut self, name: &str, text: Option<&str>) {
        self.put_name(name);
        match text {
            Some(text) => self.push_quoted(text),
            None => self.push("null"),
        }
    }

    /// Puts what a value prints, as a text.
    pub fn put_shown<D: Display>(&mut self, name: &str, value: &D) {
        match value.to_string(self.alloc) {
            Ok(text) => self.put_text(name, Some(text.as_str())),
            Err(_) => self.is_cut = true,
        }
    }

    /// Puts a number, or null where there is none.
    pub fn put_number(&mut self, name: &str, number: Option<i64>) {
        self.put_name(name);
        match number {
            Some(number) => self.push_number(number),
            None => self.push("null"),
        }
    }

    /// Puts whether something holds.
    pub fn put_truth(&mut self, name: &str, holds: bool) {
        self.put_json(name, if holds { "true" } else { "false" });
    }

    /// Puts a list, whose items follow until it is closed.
    pub fn open_list(&mut self, name: &str) {
        self.put_name(name);
        self.open("[");
    }

    /// Puts an object, whose members follow until it is closed.
    pub fn open_object(&mut self, name: &str) {
        self.put_name(name);
        self.open("{");
    }

    /// Puts a text into the list.
    pub fn put_text_item(&mut self, text: &str) {
        self.separate();
        self.push_quoted(text);
    }

    /// Puts a number into the list.
    pub fn put_number_item(&mut self, number: i64) {
        self.separate();
        self.push_number(number);
    }

    /// Puts an object into the list, whose members follow until it is closed.
    pub fn open_item(&mut self) {
        self.separate();
        self.open("{");
    }

    /// Closes the object, or the one in the list.
    pub fn close_item(&mut self) {
        self.close("}");
    }

    /// Closes the list.
    pub fn close_list(&mut self) {
        self.close("]");
    }

    /// Returns the text so far, behind which more members and the end of the object are still to stand.
    ///
    /// # Errors
    /// Fails if memory was refused for a part.
    pub fn begun(&self) -> Result<&str, AllocError> {
        if self.is_cut {
            return Err(AllocError);
        }
        Ok(self.text.as_str())
    }

    /// Writes the whole object as `write_text` does. Where memory was refused, the output gets that in its place.
    pub fn print(self, style: Style, output: &mut Output) {
        match self.begun() {
            Ok(text) => {
                write_text(style, text, output);
                output.push_str("}");
            }
            Err(error) => output.refuse_memory(error),
        }
    }

    /// Writes the whole object on a line, as `print` does.
    pub fn print_line(self, style: Style, output: &mut Output) {
        self.print(style, output);
        output.push_str("\n");
    }

    fn put_name(&mut self, name: &str) {
        self.separate();
        self.push_quoted(name);
        self.push(":");
    }

    fn separate(&mut self) {
        if !self.is_first {
            self.push(",");
        }
        self.is_first = false;
    }

    fn open(&mut self, bracket: &str) {
        self.is_first = true;
        self.push(bracket);
    }

    fn close(&mut self, bracket: &str) {
        self.is_first = false;
        self.push(bracket);
    }

    fn push_quoted(&mut self, text: &str) {
        match quoted(self.alloc, text) {
            Ok(json) => self.push(json.as_str()),
            Err(_) => self.is_cut = true,
        }
    }

    fn push_number(&mut self, number: i64) {
        if self.text.write(number).is_err() {
            self.is_cut = true;
        }
    }

    fn push(&mut self, json: &str) {
        if self.text.push_str(json).is_err() {
            self.is_cut = true;
        }
    }
}

/// Returns a text as a JSON string, with its quotes.
///
/// # Errors
/// Fails if memory is refused.
pub fn quoted(alloc: Global, text: &str) -> Result<String, AllocError> {
    Value::try_from_str(alloc, text)?.to_string(alloc)
}

/// Writes a text as a JSON string, as the style has it.
pub fn write_quoted(alloc: Global, style: Style, text: &str, output: &mut Output) {
    if text.bytes().all(|byte| is_plain(style, byte)) {
        write!(output, "\"{text}\"");
        return;
    }
    match quoted(alloc, text) {
        Ok(json) => write_text(style, json.as_str(), output),
        Err(error) => output.refuse_memory(error),
    }
}

fn is_plain(style: Style, byte: u8) -> bool {
    byte >= 0x20 && byte != b'"' && byte != b'\\' && (byte < 0x7F || !style.escapes_hidden())
}

/// Writes JSON. If the style escapes, characters that a terminal would obey or not show are written as `\uXXXX`, which
/// JSON reads as the same text.
pub fn write_text(style: Style, json: &str, output: &mut Output) {
    if style.escapes_hidden() {
        write_escaped(json, output);
    } else {
        output.push_str(json);
    }
}

fn write_escaped(json: &str, output: &mut Output) {
    for c in json.chars() {
        if is_hidden(c) {
            write_units(c, output);
        } else {
            write!(output, "{c}");
        }
    }
}

/// Writes a character as one or two escapes, each of a unit of UTF-16.
fn write_units(c: char, output: &mut Output) {
    let mut units = [0u16; 2];
    for unit in c.encode_utf16(&mut units).iter() {
        write!(output, "\\u{unit:04x}");
    }
}
