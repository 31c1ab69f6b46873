//! Rows of two tables with numbers in place of texts, so that a text is held once, however many rows have it.

use crate::difference::Content;
use msipkg_packages::msi::{Column, ColumnType, Error, Items, Rows, Value, ValueView};
use msipkg_packages::output::NullCells;
use std::alloc::Global;
use std::collections::BTreeMap;

/// Texts with their numbers.
pub(crate) struct Texts {
    alloc: Global,
    numbers: BTreeMap<String, i32>,
    /// The texts as values, by their numbers.
    values: Vec<Value>,
}

/// Written out, so that a function that owns one calls one drop, and its proof doesn't go through those of the parts.
impl Drop for Texts {
    fn drop(self) {
        let Texts {
            alloc: _,
            numbers: _,
            values: _,
        } = self;
    }
}

impl Texts {
    pub(crate) fn new(alloc: Global) -> Texts {
        Texts {
            alloc,
            numbers: BTreeMap::new(alloc),
            values: Vec::new(alloc),
        }
    }

    fn number(&mut self, text: &str) -> Result<i32, Error> {
        if let Some(number) = self.numbers.get(text) {
            return Ok(*number);
        }
        // There are less than 2^25 texts in two packages.
        let number = i32::try_from(self.values.len()).unwrap_or(i32::MAX);
        let key = String::from_str(self.alloc, text)?;
        self.values.push(Value::from_text(self.alloc, text)?)?;
        self.numbers.insert(key, number)?;
        Ok(number)
    }

    fn text(&self, number: i32) -> Option<&Value> {
        self.values.get(usize::try_from(number).ok()?)
    }
}

/// Returns rows in which numbers replace the texts. Where the other column of the same place holds texts, numbers are
/// texts, so that no number of a text is taken for one of them.
pub(crate) fn numbered_rows(
    alloc: Global,
    texts: &mut Texts,
    mut rows: Rows<'_>,
    nulls: &NullCells,
    others: &[Column],
) -> Result<Vec<Items<Value>>, Error> {
    let mut all = Vec::with_capacity(alloc, rows.len())?;
    for number in 0..rows.len() {
        all.push(numbered_row(alloc, texts, &rows, number, nulls, others)?)?;
        rows.advance();
    }
    Ok(all)
}

fn numbered_row(
    alloc: Global,
    texts: &mut Texts,
    rows: &Rows<'_>,
    number: usize,
    nulls: &NullCells,
    others: &[Column],
) -> Result<Items<Value>, Error> {
    let mut values = Vec::with_capacity(alloc, rows.columns().len())?;
    for place in 0..rows.columns().len() {
        let value = match nulls.value_in(rows, number, place) {
            ValueView::Null => Value::Null,
            ValueView::Int(number) => number_beside(alloc, number, others.get(place))?,
            ValueView::Str(text) => Value::Int(texts.number(text)?),
            ValueView::Binary => Value::Binary,
        };
        values.push(value)?;
    }
    Ok(Items::from_vec(values))
}

fn number_beside(alloc: Global, number: i32, other: Option<&Column>) -> Result<Value, Error> {
    match other {
        Some(column) if holds_texts(column) => {
            let text = number.to_string(alloc)?;
            Value::from_text(alloc, text.as_str())
        }
        Some(_) | None => Ok(Value::Int(number)),
    }
}

fn holds_texts(column: &Column) -> bool {
    matches!(column.coltype(), ColumnType::Str(_))
}

pub(crate) fn content_of<'a>(texts: &'a Texts, column: &Column, value: &'a Value) -> Content<'a> {
    match value {
        Value::Int(number) if holds_texts(column) => match texts.text(*number) {
            Some(text) => Content::Value(text),
            None => Content::Value(value),
        },
        Value::Str(number) => Content::Json(number.as_str()),
        Value::Int(_) | Value::Null | Value::Binary => Content::Value(value),
    }
}
