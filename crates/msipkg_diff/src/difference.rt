//! A difference between two packages, as lines and as JSON.

use msipkg_format::{JsonObject, Style};
use msipkg_packages::msi::Value;
use msipkg_packages::output::Output;
use std::alloc::Global;
use std::fmt::{self, Display};

/// How something differs.
#[derive(Clone, Copy)]
pub enum Change {
    Added,
    Removed,
    Changed,
}

impl Change {
    /// Returns how something differs that exists in the old package, in the new one, or in both.
    pub(crate) fn of(is_old: bool, is_new: bool) -> Change {
        match (is_old, is_new) {
            (false, _) => Change::Added,
            (_, false) => Change::Removed,
            _ => Change::Changed,
        }
    }

    fn name(self) -> &'static str {
        match self {
            Change::Added => "added",
            Change::Removed => "removed",
            Change::Changed => "changed",
        }
    }
}

/// What differs, with what either package has in its place, as far as that is shown.
#[derive(Clone, Copy)]
pub struct Difference<'a> {
    pub change: Change,
    /// What kind of thing it is, as `row`.
    pub kind: &'static str,
    /// The table that it is of, or no name if it is of none.
    pub table: &'a str,
    pub name: &'a str,
    pub old: &'a [Member<'a>],
    pub new: &'a [Member<'a>],
}

/// A value under its name.
#[derive(Clone, Copy)]
pub struct Member<'a> {
    pub name: &'a str,
    pub content: Content<'a>,
}

/// What stands under a name.
#[derive(Clone, Copy)]
pub enum Content<'a> {
    Null,
    Value(&'a Value),
    Text(&'a str),
    Number(i64),
    Truth(bool),
    /// A row's stream.
    Stream,
    /// A text that is JSON already.
    Json(&'a str),
}

impl<'a> Content<'a> {
    pub fn count(count: usize) -> Content<'a> {
        Content::Number(i64::try_from(count).unwrap_or(i64::MAX))
    }
}

/// Prints what differs, the old values behind `-`, and the new ones behind `+`. A value that is null has no line.
pub(crate) fn print_lines(style: Style, difference: &Difference<'_>, output: &mut Output) {
    print_head(style, difference, output);
    print_members(style, '-', difference.old, output);
    print_members(style, '+', difference.new, output);
}

fn print_head(style: Style, difference: &Difference<'_>, output: &mut Output) {
    let (change, kind) = (difference.change.name(), difference.kind);
    let name = style.show(difference.name);
    if difference.table.is_empty() {
        writeln!(output, "{change} {kind} {name}");
    } else {
        let table = style.show(difference.table);
        writeln!(output, "{change} {kind} {table} {name}");
    }
}

fn print_members(style: Style, sign: char, members: &[Member<'_>], output: &mut Output) {
    for member in members {
        print_member(style, sign, member, output);
    }
}

fn print_member(style: Style, sign: char, member: &Member<'_>, output: &mut Output) {
    if let Content::Null | Content::Value(Value::Null) = member.content {
        return;
    }
    let name = style.show(member.name);
    let content = ShownContent {
        style,
        content: member.content,
    };
    writeln!(output, "{sign} {name}: {content}");
}

/// What stands under a name, in a line.
#[derive(Clone, Copy)]
struct ShownContent<'a> {
    style: Style,
    content: Content<'a>,
}

impl Display for ShownContent<'_> {
    fn fmt<W: fmt::Write>(&self, f: &mut fmt::Formatter<W>) -> fmt::Result {
        match self.content {
            Content::Null | Content::Value(Value::Null) => Ok(()),
            Content::Value(Value::Int(number)) => write!(f, "{number}"),
            Content::Value(Value::Str(text)) => self.style.show(text.as_str()).fmt(f),
            Content::Stream | Content::Value(Value::Binary) => f.write_str("[stream]"),
            Content::Text(text) | Content::Json(text) => self.style.show(text).fmt(f),
            Content::Number(number) => write!(f, "{number}"),
            Content::Truth(holds) => f.write_str(if holds { "yes" } else { "no" }),
        }
    }
}

pub(crate) fn difference_json(alloc: Global, difference: &Difference<'_>) -> JsonObject {
    let mut object = JsonObject::new(alloc);
    put_head(difference, &mut object);
    put_members("old", difference.old, &mut object);
    put_members("new", difference.new, &mut object);
    object
}

fn put_head(difference: &Difference<'_>, object: &mut JsonObject) {
    object.put_text("change", Some(difference.change.name()));
    object.put_text("kind", Some(difference.kind));
    if !difference.table.is_empty() {
        object.put_text("table", Some(difference.table));
    }
    object.put_text("name", Some(difference.name));
}

fn put_members(side: &str, members: &[Member<'_>], object: &mut JsonObject) {
    if members.is_empty() {
        return;
    }
    object.open_object(side);
    for member in members {
        put_member(member, object);
    }
    object.close_item();
}

/// Adds a member, where a stream is `true`.
fn put_member(member: &Member<'_>, object: &mut JsonObject) {
    let name = member.name;
    match member.content {
        Content::Null | Content::Value(Value::Null) => object.put_text(name, None),
        Content::Value(Value::Int(number)) => object.put_number(name, Some(i64::from(*number))),
        Content::Value(Value::Str(text)) => object.put_text(name, Some(text.as_str())),
        Content::Stream | Content::Value(Value::Binary) => object.put_truth(name, true),
        Content::Text(text) => object.put_text(name, Some(text)),
        Content::Number(number) => object.put_number(name, Some(number)),
        Content::Truth(holds) => object.put_truth(name, holds),
        Content::Json(json) => object.put_json(name, json),
    }
}
