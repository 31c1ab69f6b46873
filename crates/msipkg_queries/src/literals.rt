//! Literals that a query selects beside columns. The library selects columns, so a literal is asked for as a column,
//! and is put in its place when the rows are printed.

use crate::pieces::{Piece, has_kind, is_at};
use crate::spelled_values::value_at;
use msi_query_tokens::token::Kind;
use msi_table::Value;
use std::alloc::{AllocError, Global};

/// What a query selects without columns is refused with `DISTINCT`, since its rows aren't told apart.
pub(crate) const DISTINCT_LITERALS: &str = "DISTINCT needs a column beside literals";

/// A literal that a query selects.
pub struct SelectedLiteral {
    /// Its place among what is selected, from 0 on.
    pub place: usize,
    /// How it is written, without quotes.
    pub name: String,
    pub value: Value,
}

/// Written out, so that a function that owns one calls one drop, and its proof doesn't go through those of the parts.
impl Drop for SelectedLiteral {
    fn drop(self) {
        let SelectedLiteral {
            place: _,
            name: _,
            value: _,
        } = self;
    }
}

/// What stands between `SELECT` and `FROM`.
#[derive(Clone, Copy)]
struct Items {
    start: usize,
    end: usize,
}

/// Returns where the items of a query are, if it selects literals.
fn items_with_literals(pieces: &[Piece<'_>]) -> Option<Items> {
    if !is_at(pieces, 0, Kind::Select) {
        return None;
    }
    let start = if is_at(pieces, 1, Kind::Distinct) {
        2
    } else {
        1
    };
    let end = pieces.iter().position(|piece| piece.kind == Kind::From)?;
    let has_literal = (start..end).any(|i| is_literal_at(pieces, i));
    if has_literal {
        Some(Items { start, end })
    } else {
        None
    }
}

/// Returns whether an item is a literal that begins at a place.
fn is_literal_at(pieces: &[Piece<'_>], place: usize) -> bool {
    let is_first = is_at(pieces, place.saturating_sub(1), Kind::Comma)
        || is_at(pieces, place.saturating_sub(1), Kind::Select)
        || is_at(pieces, place.saturating_sub(1), Kind::Distinct);
    let last = if is_at(pieces, place, Kind::Sub)
        && is_at(pieces, place.saturating_add(1), Kind::Number)
    {
        place.saturating_add(1)
    } else {
        place
    };
    is_first && is_value_at(pieces, last) && is_last(pieces, last)
}

fn is_value_at(pieces: &[Piece<'_>], place: usize) -> bool {
    match pieces.get(place) {
        Some(piece) => {
            matches!(
                piece.kind,
                Kind::Number | Kind::SingleQuoted | Kind::DoubleQuoted | Kind::Null
            )
        }
        None => false,
    }
}

fn is_last(pieces: &[Piece<'_>], place: usize) -> bool {
    let behind = place.saturating_add(1);
    is_at(pieces, behind, Kind::Comma) || is_at(pieces, behind, Kind::From)
}

/// Returns the literals that a query selects.
pub(crate) fn selected_literals(
    alloc: Global,
    pieces: &[Piece<'_>],
) -> Result<Vec<SelectedLiteral>, AllocError> {
    let mut literals = Vec::new(alloc);
    let Some(items) = items_with_literals(pieces) else {
        return Ok(literals);
    };
    let mut place = 0usize;
    for i in items.start..items.end {
        if is_literal_at(pieces, i) {
            if let Some(literal) = literal_at(alloc, pieces, i, place)? {
                literals.push(literal)?;
            }
        } else if is_at(pieces, i, Kind::Comma) {
            place = place.saturating_add(1);
        }
    }
    Ok(literals)
}

fn literal_at(
    alloc: Global,
    pieces: &[Piece<'_>],
    start: usize,
    place: usize,
) -> Result<Option<SelectedLiteral>, AllocError> {
    let last = if is_at(pieces, start, Kind::Sub) {
        start.saturating_add(1)
    } else {
        start
    };
    let Some(value) = value_at(alloc, pieces, last)? else {
        return Ok(None);
    };
    let name = match &value {
        Value::Str(text) => String::from_str(alloc, text.as_str())?,
        Value::Int(number) => number.to_string(alloc)?,
        Value::Null | Value::Binary => String::new(alloc),
    };
    Ok(Some(SelectedLiteral { place, name, value }))
}

/// Returns the pieces of a query with its first column in the place of each literal, or with a star in the place of all
/// that it selects where there is no column. Returns them as they are without literals.
pub(crate) fn with_columns<'a>(
    alloc: Global,
    pieces: Vec<Piece<'a>>,
) -> Result<Vec<Piece<'a>>, AllocError> {
    let Some(items) = items_with_literals(pieces.as_slice()) else {
        return Ok(pieces);
    };
    match first_column(pieces.as_slice(), items) {
        Some(column) => with_column(alloc, pieces.as_slice(), items, column),
        None => with_star(alloc, pieces.as_slice(), items),
    }
}

/// Returns where the first column of what is selected begins and ends.
fn first_column(pieces: &[Piece<'_>], items: Items) -> Option<Items> {
    let start = (items.start..items.end).find(|i| is_name_at(pieces, *i))?;
    let end = if is_at(pieces, start.saturating_add(1), Kind::Dot) {
        start.saturating_add(3)
    } else {
        start.saturating_add(1)
    };
    Some(Items { start, end })
}

fn is_name_at(pieces: &[Piece<'_>], place: usize) -> bool {
    match pieces.get(place) {
        Some(piece) => piece.name().is_some(),
        None => false,
    }
}

fn with_column<'a>(
    alloc: Global,
    pieces: &[Piece<'a>],
    items: Items,
    column: Items,
) -> Result<Vec<Piece<'a>>, AllocError> {
    let column = pieces.get(column.start..column.end).unwrap_or(&[]);
    let mut filled = Vec::new(alloc);
    for i in 0..pieces.len() {
        if i < items.end && is_literal_at(pieces, i) {
            push_all(column, pieces[i].place, &mut filled)?;
        } else if items.end <= i || !is_number_of_literal(pieces, i) {
            filled.push(pieces[i])?;
        }
    }
    Ok(filled)
}

fn push_all<'a>(
    column: &[Piece<'a>],
    place: usize,
    filled: &mut Vec<Piece<'a>>,
) -> Result<(), AllocError> {
    for piece in column {
        filled.push(Piece { place, ..*piece })?;
    }
    Ok(())
}

/// Returns whether a piece is the number of a literal with a minus sign.
fn is_number_of_literal(pieces: &[Piece<'_>], place: usize) -> bool {
    let before = place.saturating_sub(1);
    is_at(pieces, before, Kind::Sub) && is_literal_at(pieces, before)
}

fn with_star<'a>(
    alloc: Global,
    pieces: &[Piece<'a>],
    items: Items,
) -> Result<Vec<Piece<'a>>, AllocError> {
    let mut filled = Vec::new(alloc);
    for (i, piece) in pieces.iter().enumerate() {
        if i == items.start {
            filled.push(Piece {
                kind: Kind::Star,
                place: piece.place,
                text: "*",
            })?;
        } else if i < items.start || items.end <= i {
            filled.push(*piece)?;
        }
    }
    Ok(filled)
}

/// Returns whether a query selects literals alone.
pub(crate) fn has_only_literals(pieces: &[Piece<'_>]) -> bool {
    match items_with_literals(pieces) {
        Some(items) => first_column(pieces, items).is_none(),
        None => false,
    }
}

/// Returns whether `DISTINCT` is asked of literals alone.
pub(crate) fn is_distinct_without_columns(pieces: &[Piece<'_>]) -> bool {
    has_only_literals(pieces) && has_kind(pieces, Kind::Distinct)
}
