//! The pieces of a query's text, cut as the library cuts them.

use msi_query_tokens::token::Kind;
use msi_query_tokens::tokens::Tokens;
use std::alloc::{AllocError, Global};

/// What a byte that begins no piece is spelled as, where it is only a part of a character.
const UNKNOWN: &str = "#";

/// A piece of a text.
#[derive(Clone, Copy)]
pub struct Piece<'a> {
    pub kind: Kind,
    /// The byte at which it begins.
    pub place: usize,
    /// How it is spelled. A name in backquotes may lack them.
    pub text: &'a str,
}

impl<'a> Piece<'a> {
    /// Returns the name that it is, without its backquotes, if it is one.
    pub fn name(self) -> Option<&'a str> {
        match self.kind {
            Kind::Name => Some(self.text),
            Kind::QuotedName => Some(without_quotes(self.text)),
            _ => None,
        }
    }

    pub(crate) fn is_empty_text(self) -> bool {
        matches!(self.text, "''" | "\"\"")
    }

    /// Returns whether it is this word, in any case.
    pub(crate) fn is_word(self, word: &str) -> bool {
        self.text.eq_ignore_ascii_case(word)
    }
}

fn without_quotes(name: &str) -> &str {
    let name = name.strip_prefix('`').unwrap_or(name);
    name.strip_suffix('`').unwrap_or(name)
}

/// Cuts a text into pieces.
pub(crate) fn cut_pieces<'a>(alloc: Global, text: &'a str) -> Result<Vec<Piece<'a>>, AllocError> {
    let mut tokens = Tokens::new(text.as_bytes());
    let mut pieces = Vec::new(alloc);
    for _ in 0..text.len() {
        if tokens.sees(Kind::End) {
            break;
        }
        pieces.push(piece_of(text, &tokens))?;
        tokens.take();
    }
    Ok(pieces)
}

fn piece_of<'a>(text: &'a str, tokens: &Tokens<'_>) -> Piece<'a> {
    let place = text.len().saturating_sub(tokens.left());
    let end = place.saturating_add(tokens.spelling().len());
    Piece {
        kind: tokens.peek(),
        place,
        text: text.get(place..end).unwrap_or(UNKNOWN),
    }
}

/// Returns whether there is a piece of a kind at a place.
pub fn is_at(pieces: &[Piece<'_>], place: usize, kind: Kind) -> bool {
    match pieces.get(place) {
        Some(piece) => piece.kind == kind,
        None => false,
    }
}

/// Returns whether a piece is of a kind.
pub fn has_kind(pieces: &[Piece<'_>], kind: Kind) -> bool {
    pieces.iter().any(|piece| piece.kind == kind)
}

/// Returns the name of a table at a place behind `FROM`, `JOIN`, `INTO` or `UPDATE`, or in the list behind `FROM`.
pub fn table_at<'a>(pieces: &[Piece<'a>], place: usize) -> Option<&'a str> {
    let before = pieces.get(list_start(pieces, place).checked_sub(1)?)?;
    match before.kind {
        Kind::From | Kind::Join | Kind::Into | Kind::Update => pieces.get(place)?.name(),
        _ => None,
    }
}

/// Returns where the list of names begins that has a name at a place. A table of a list may have a name of its own
/// behind its name.
fn list_start(pieces: &[Piece<'_>], place: usize) -> usize {
    let mut start = place;
    for _ in 0..place {
        match item_before(pieces, start) {
            Some(before) => start = before,
            None => break,
        }
    }
    start
}

/// Returns where the item of a list begins that ends at the comma in front of a place.
fn item_before(pieces: &[Piece<'_>], place: usize) -> Option<usize> {
    if !is_at(pieces, place.checked_sub(1)?, Kind::Comma) {
        return None;
    }
    let name = place.checked_sub(2)?;
    let front = place.saturating_sub(3);
    if !is_name_at(pieces, name) {
        None
    } else if front < name && is_name_at(pieces, front) {
        Some(front)
    } else {
        Some(name)
    }
}

fn is_name_at(pieces: &[Piece<'_>], place: usize) -> bool {
    match pieces.get(place) {
        Some(piece) => piece.name().is_some(),
        None => false,
    }
}

/// Returns the name of its own that the table at a place has behind its name, in a list of tables.
pub fn own_name_at<'a>(pieces: &[Piece<'a>], place: usize) -> Option<&'a str> {
    let before = list_start(pieces, place).checked_sub(1)?;
    if is_at(pieces, before, Kind::From) {
        pieces.get(place.saturating_add(1))?.name()
    } else {
        None
    }
}
