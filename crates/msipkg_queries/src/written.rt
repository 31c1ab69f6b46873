//! Texts as they are written, and the pieces that they stand for.

use crate::marks::MarkValue;
use crate::pieces::{Piece, cut_pieces, is_at, table_at};
use msi_query_tokens::token::Kind;
use msi_query_tokens::tokens::Tokens;
use std::alloc::{AllocError, Global};

/// A query or a statement as it is written.
#[derive(Clone, Copy)]
pub struct Written<'a> {
    pub text: &'a str,
    /// The values that take the places of its marks, in order.
    pub values: &'a [MarkValue],
}

/// Returns the pieces that a text stands for: values in place of its marks, no semicolon at its end, and columns
/// without the name of the table in front, where there is one table.
///
/// # Errors
/// Fails if memory is refused.
pub fn pieces_of<'a>(alloc: Global, written: Written<'a>) -> Result<Vec<Piece<'a>>, AllocError> {
    let cut = cut_pieces(alloc, written.text)?;
    let mut pieces = with_values(alloc, cut.as_slice(), written.values)?;
    if let Some(last) = pieces.as_slice().last()
        && last.text == ";"
    {
        let _semicolon = pieces.pop();
    }
    match only_table(pieces.as_slice()) {
        Some(table) => without_table(alloc, pieces.as_slice(), table),
        None => Ok(pieces),
    }
}

/// Returns whether this is the table whose rows a text changes.
///
/// # Errors
/// Fails if memory is refused.
pub fn changes_table(alloc: Global, written: Written<'_>, table: &str) -> Result<bool, AllocError> {
    let pieces = pieces_of(alloc, written)?;
    Ok(only_table(pieces.as_slice()) == Some(table))
}

/// Returns whether a text only sets a column.
///
/// # Errors
/// Fails if memory is refused.
pub fn sets_only(alloc: Global, written: Written<'_>, column: &str) -> Result<bool, AllocError> {
    let pieces = pieces_of(alloc, written)?;
    let pieces = pieces.as_slice();
    let end = pieces.iter().position(|piece| piece.kind == Kind::Where);
    let sets = pieces.iter().take(end.unwrap_or(pieces.len()));
    let mut is_only = is_at(pieces, 0, Kind::Update);
    for (place, piece) in sets.enumerate() {
        if is_at(pieces, place.saturating_add(1), Kind::Eq) {
            is_only = is_only && piece.name() == Some(column);
        }
    }
    Ok(is_only)
}

/// Returns how many marks a text has.
///
/// # Errors
/// Fails if memory is refused.
pub fn mark_count(alloc: Global, text: &str) -> Result<usize, AllocError> {
    let pieces = cut_pieces(alloc, text)?;
    Ok(pieces.iter().filter(|piece| is_mark(**piece)).count())
}

fn is_mark(piece: Piece<'_>) -> bool {
    piece.text == "?"
}

/// Returns the pieces with values in place of the marks, in order.
fn with_values<'a>(
    alloc: Global,
    pieces: &[Piece<'a>],
    values: &'a [MarkValue],
) -> Result<Vec<Piece<'a>>, AllocError> {
    let mut filled = Vec::with_capacity(alloc, pieces.len())?;
    let mut left = values;
    for piece in pieces {
        if is_mark(*piece)
            && let [value, others @ ..] = left
        {
            filled.push(literal_piece(value.literal(), piece.place))?;
            left = others;
        } else {
            filled.push(*piece)?;
        }
    }
    Ok(filled)
}

/// Returns for each stream that a text spells or has a mark for, in order, the file that it gets its bytes from, if
/// that is given.
///
/// # Errors
/// Fails if memory is refused.
pub fn stream_files<'a>(
    alloc: Global,
    written: Written<'a>,
) -> Result<Vec<Option<&'a str>>, AllocError> {
    let mut files = Vec::new(alloc);
    let mut left = written.values;
    for piece in &cut_pieces(alloc, written.text)? {
        if is_mark(*piece)
            && let [value, others @ ..] = left
        {
            if value.file().is_some() {
                files.push(value.file())?;
            }
            left = others;
        } else if piece.kind == Kind::BinaryStream {
            files.push(None)?;
        }
    }
    Ok(files)
}

fn literal_piece<'a>(literal: &'a str, place: usize) -> Piece<'a> {
    Piece {
        kind: literal_kind(literal),
        place,
        text: literal,
    }
}

/// Returns the kind of the piece that a literal is. That of a negative number is one piece here.
fn literal_kind(literal: &str) -> Kind {
    let digits = literal.strip_prefix('-').unwrap_or(literal);
    Tokens::new(digits.as_bytes()).peek()
}

/// Returns the name of the table of a text, if it has just one.
fn only_table<'a>(pieces: &[Piece<'a>]) -> Option<&'a str> {
    let mut only = None;
    for i in 0..pieces.len() {
        if let Some(name) = table_at(pieces, i) {
            if only.is_some() {
                return None;
            }
            only = Some(name);
        }
    }
    only
}

/// Returns the pieces without the name of a table and the dot in front of its columns.
fn without_table<'a>(
    alloc: Global,
    pieces: &[Piece<'a>],
    table: &str,
) -> Result<Vec<Piece<'a>>, AllocError> {
    let mut left = Vec::new(alloc);
    for i in 0..pieces.len() {
        if !is_table_of_column(pieces, i, table) && !is_dot_of_column(pieces, i, table) {
            left.push(bare(pieces[i], table))?;
        }
    }
    Ok(left)
}

fn is_table_of_column(pieces: &[Piece<'_>], place: usize, table: &str) -> bool {
    match pieces.get(place) {
        Some(piece) => {
            piece.name() == Some(table) && is_at(pieces, place.saturating_add(1), Kind::Dot)
        }
        None => false,
    }
}

fn is_dot_of_column(pieces: &[Piece<'_>], place: usize, table: &str) -> bool {
    place > 0 && is_table_of_column(pieces, place.saturating_sub(1), table)
}

/// Returns a piece that is a column with its table in front, in one word, without the table. A key word is a name then.
fn bare<'a>(piece: Piece<'a>, table: &str) -> Piece<'a> {
    match column_in(piece, table) {
        Some(column) => Piece {
            kind: Kind::QuotedName,
            text: column,
            ..piece
        },
        None => piece,
    }
}

fn column_in<'a>(piece: Piece<'a>, table: &str) -> Option<&'a str> {
    if piece.kind != Kind::Name {
        return None;
    }
    let column = piece.text.strip_prefix(table)?.strip_prefix('.')?;
    if column.is_empty() {
        return None;
    }
    Some(column)
}
