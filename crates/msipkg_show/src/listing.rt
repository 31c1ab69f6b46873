//! Names with a number each, as a list of tables has them. They print as rows or as JSON.

use msipkg_format::{Grid, JsonObject, Style};
use msipkg_packages::output::Output;
use std::alloc::Global;

/// What is listed: the heads of the two columns, and the names in JSON of the list and of the members of its objects.
pub(crate) struct Subject {
    pub(crate) heads: [&'static str; 2],
    pub(crate) list: &'static str,
    pub(crate) members: [&'static str; 2],
}

/// Names and numbers in the order in which they are put.
pub(crate) struct Listing {
    style: Style,
    subject: &'static Subject,
    text: ListingText,
}

/// Written out, so that a function that owns one calls one drop, and its proof doesn't go through those of the parts.
impl Drop for Listing {
    fn drop(self) {
        let Listing {
            style: _,
            subject: _,
            text: _,
        } = self;
    }
}

/// The names and numbers as they are printed.
#[derive(Drop)]
enum ListingText {
    Json(JsonObject),
    Rows(Grid),
}

impl Listing {
    pub(crate) fn new(
        alloc: Global,
        style: Style,
        file: &str,
        is_json: bool,
        subject: &'static Subject,
    ) -> Listing {
        let text = if is_json {
            ListingText::Json(object_of(alloc, file, subject.list))
        } else {
            ListingText::Rows(Grid::headed(alloc, subject.heads.as_slice()))
        };
        Listing {
            style,
            subject,
            text,
        }
    }

    /// Adds a name and its number. An unknown number prints as `?`, and in JSON as null.
    pub(crate) fn put(&mut self, name: &str, number: Option<u64>) {
        match &mut self.text {
            ListingText::Json(object) => put_object(self.subject, name, number, object),
            ListingText::Rows(grid) => put_row(self.style, name, number, grid),
        }
    }

    pub(crate) fn print(self, output: &mut Output) {
        let Listing {
            style,
            subject: _,
            text,
        } = self;
        match text {
            ListingText::Json(object) => print_object(object, style, output),
            ListingText::Rows(grid) => grid.print(style, output),
        }
    }
}

fn object_of(alloc: Global, file: &str, list: &str) -> JsonObject {
    let mut object = JsonObject::new(alloc);
    object.put_text("file", Some(file));
    object.open_list(list);
    object
}

fn put_object(subject: &Subject, name: &str, number: Option<u64>, object: &mut JsonObject) {
    let [name_member, number_member] = subject.members;
    object.open_item();
    object.put_text(name_member, Some(name));
    object.put_number(number_member, number.and_then(|n| i64::try_from(n).ok()));
    object.close_item();
}

fn put_row(style: Style, name: &str, number: Option<u64>, grid: &mut Grid) {
    grid.put_text(style, name);
    match number {
        Some(number) => grid.put(&number),
        None => grid.push("?"),
    }
}

fn print_object(mut object: JsonObject, style: Style, output: &mut Output) {
    object.close_list();
    object.print_line(style, output);
}
