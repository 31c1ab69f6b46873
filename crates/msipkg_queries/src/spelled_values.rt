//! The values that the pieces of a text spell.

use crate::pieces::{Piece, is_at};
use msi_query_parse::ParseError;
use msi_query_tokens::texts;
use msi_query_tokens::token::Kind;
use msi_query_tokens::tokens::Tokens;
use msi_table::Value;
use std::alloc::{AllocError, Global};

/// Returns the value that the piece at a place spells, if it spells one.
///
/// # Errors
/// Fails if memory is refused.
pub fn value_at(
    alloc: Global,
    pieces: &[Piece<'_>],
    place: usize,
) -> Result<Option<Value>, AllocError> {
    let Some(piece) = pieces.get(place) else {
        return Ok(None);
    };
    match piece.kind {
        Kind::Null => Ok(Some(Value::Null)),
        Kind::BinaryStream => Ok(Some(Value::Binary)),
        Kind::Number => Ok(number_in(piece.text, is_negative(pieces, place))),
        Kind::SingleQuoted | Kind::DoubleQuoted => text_in(alloc, piece.text),
        _ => Ok(None),
    }
}

fn is_negative(pieces: &[Piece<'_>], place: usize) -> bool {
    place > 0 && is_at(pieces, place.saturating_sub(1), Kind::Sub)
}

fn number_in(digits: &str, is_negative: bool) -> Option<Value> {
    let number = digits.parse::<i64>().ok()?;
    let number = if is_negative {
        number.checked_neg()?
    } else {
        number
    };
    Some(Value::Int(i32::try_from(number).ok()?))
}

fn text_in(alloc: Global, quoted: &str) -> Result<Option<Value>, AllocError> {
    match texts::text(alloc, &mut Tokens::new(quoted.as_bytes())) {
        Ok(text) if text.as_str().is_empty() => Ok(Some(Value::Null)),
        Ok(text) => Ok(Some(Value::Str(text))),
        Err(ParseError::OutOfMemory) => Err(AllocError),
        Err(ParseError::Refused(_)) => Ok(None),
    }
}
