//! Reading queries and statements.

use crate::caret::refused_at;
use crate::literals::{
    DISTINCT_LITERALS, SelectedLiteral, has_only_literals, is_distinct_without_columns,
    selected_literals, with_columns,
};
use crate::mistakes::sentence_at;
use crate::pieces::{Piece, is_at};
use crate::rules::{check_pieces, check_quotes};
use crate::written::{Written, pieces_of};
use msi_query::Select;
use msi_query_parse::{Parse, ParseError, Refused, Statement};
use msi_query_tokens::token::Kind;
use msipkg_format::Failure;
use std::alloc::{AllocError, Global};

/// A query for rows as it was read.
pub struct Selection {
    /// The query, which has a column in the place of each literal.
    pub select: Select,
    pub literals: Vec<SelectedLiteral>,
    /// Whether all that it selects are literals. Then the query selects all columns.
    pub has_only_literals: bool,
}

/// Written out, so that a function that owns one calls one drop, and its proof doesn't go through those of the parts.
impl Drop for Selection {
    fn drop(self) {
        let Selection {
            select: _,
            literals: _,
            has_only_literals: _,
        } = self;
    }
}

/// Reads a query for rows. The empty text in it stands for null.
///
/// # Errors
/// Fails if the text spells none, if it has a text in double quotes with a backslash, a `NOT` in front of a comparison
/// without brackets, two tables that go by one name or `DISTINCT` of literals alone, and with `OutOfMemory`.
pub fn read_select(alloc: Global, written: Written<'_>) -> Result<Selection, Failure> {
    let pieces = pieces_of(alloc, written)?;
    check_quotes(alloc, written.text, pieces.as_slice())?;
    let literals = selected_literals(alloc, pieces.as_slice())?;
    let has_only_literals = has_only_literals(pieces.as_slice());
    if is_distinct_without_columns(pieces.as_slice()) {
        return Err(Failure::rule(DISTINCT_LITERALS));
    }
    let pieces = with_columns(alloc, pieces)?;
    let select = parsed(alloc, written.text, pieces.as_slice())?;
    check_pieces(alloc, written.text, pieces.as_slice())?;
    Ok(Selection {
        select,
        literals,
        has_only_literals,
    })
}

/// Reads a statement. The empty text in it stands for null, since the installer knows no empty text.
///
/// # Errors
/// Fails as `read_select` does, and if an `INSERT` has no rows or an `UPDATE` sets nothing.
pub fn read_statement(alloc: Global, written: Written<'_>) -> Result<Statement, Failure> {
    let pieces = pieces_of(alloc, written)?;
    check_quotes(alloc, written.text, pieces.as_slice())?;
    let statement = parsed(alloc, written.text, pieces.as_slice())?;
    check_pieces(alloc, written.text, pieces.as_slice())?;
    Ok(statement)
}

/// Parses the text that pieces spell. A failure is shown in the text as it was written.
fn parsed<Q: Parse>(alloc: Global, text: &str, pieces: &[Piece<'_>]) -> Result<Q, Failure> {
    let spelled = spelled_text(alloc, pieces)?;
    match Q::parse(alloc, spelled.as_str()) {
        Ok(query) => Ok(query),
        Err(error) => Err(shown_error(alloc, text, pieces, error)),
    }
}

fn shown_error(alloc: Global, text: &str, pieces: &[Piece<'_>], error: ParseError) -> Failure {
    match error {
        ParseError::OutOfMemory => Failure::from(AllocError),
        ParseError::Refused(Refused { place, expected }) => {
            let piece = piece_at(pieces, place);
            let place = written_place(text, pieces, piece);
            refused_at(alloc, text, place, sentence_at(pieces, piece, expected))
        }
    }
}

/// Returns the text that pieces spell, with a blank behind each. An empty text that means null is spelled as `NULL`.
fn spelled_text(alloc: Global, pieces: &[Piece<'_>]) -> Result<String, AllocError> {
    let mut text = String::new(alloc);
    for i in 0..pieces.len() {
        let quote = missing_quote(pieces[i]);
        text.push_str(quote)?;
        text.push_str(spelling(pieces, i))?;
        text.push_str(quote)?;
        text.push(' ')?;
    }
    Ok(text)
}

/// Returns the quote that a piece lacks on both sides.
fn missing_quote(piece: Piece<'_>) -> &'static str {
    if piece.kind == Kind::QuotedName && !piece.text.starts_with('`') {
        "`"
    } else {
        ""
    }
}

fn spelling<'a>(pieces: &[Piece<'a>], place: usize) -> &'a str {
    if is_null(pieces, place) {
        return "NULL";
    }
    match pieces.get(place) {
        Some(piece) => piece.text,
        None => "",
    }
}

/// Returns whether a piece is an empty text that means null: one that is joined with another text doesn't.
fn is_null(pieces: &[Piece<'_>], place: usize) -> bool {
    let is_empty_text = match pieces.get(place) {
        Some(piece) => piece.is_empty_text(),
        None => false,
    };
    let is_joined_before = place > 0 && is_at(pieces, place.saturating_sub(1), Kind::Add);
    is_empty_text && !is_joined_before && !is_at(pieces, place.saturating_add(1), Kind::Add)
}

/// Returns which piece has a byte of the text that they spell, or the number of pieces at its end.
fn piece_at(pieces: &[Piece<'_>], byte: usize) -> usize {
    let mut end = 0usize;
    for i in 0..pieces.len() {
        let quotes = missing_quote(pieces[i]).len().saturating_mul(2);
        let length = spelling(pieces, i).len().saturating_add(quotes);
        end = end.saturating_add(length).saturating_add(1);
        if byte < end {
            return i;
        }
    }
    pieces.len()
}

/// Returns where a piece was written, or the end of the text where there is none.
fn written_place(text: &str, pieces: &[Piece<'_>], place: usize) -> usize {
    match pieces.get(place) {
        Some(piece) => piece.place,
        None => {
            let text = text.trim_end();
            text.strip_suffix(';').unwrap_or(text).trim_end().len()
        }
    }
}
