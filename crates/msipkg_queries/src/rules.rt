//! What is refused of texts that the library reads, since people mean something else by them.

use crate::caret::refused_at;
use crate::comparing::{is_operator, operand_end};
use crate::pieces::{Piece, has_kind, own_name_at, table_at};
use msi_query_tokens::token::Kind;
use msipkg_format::{Failure, Shown, said};
use std::alloc::Global;

/// The error of a text in double quotes with a backslash.
const BACKSLASH: &str = "a backslash begins an escape in \"..\"; '..' takes it as it stands";

/// Refuses a text in double quotes that has a backslash, as a path does.
pub(crate) fn check_quotes(alloc: Global, text: &str, pieces: &[Piece<'_>]) -> Result<(), Failure> {
    for piece in pieces {
        if piece.text.starts_with('"') && piece.text.contains('\\') {
            return Err(refused_at(alloc, text, piece.place, BACKSLASH));
        }
    }
    Ok(())
}

/// Refuses a statement that would change nothing, a `NOT` that doesn't reach over the comparison behind it, and a join
/// of a table with itself.
pub(crate) fn check_pieces(alloc: Global, text: &str, pieces: &[Piece<'_>]) -> Result<(), Failure> {
    check_parts(pieces)?;
    check_not(alloc, text, pieces)?;
    check_joins(alloc, pieces)
}

fn check_parts(pieces: &[Piece<'_>]) -> Result<(), Failure> {
    let Some(first) = pieces.first() else {
        return Ok(());
    };
    match first.kind {
        Kind::Insert if !has_kind(pieces, Kind::Values) => {
            Err(Failure::rule("INSERT has no VALUES, so it inserts nothing"))
        }
        Kind::Update if !has_kind(pieces, Kind::Set) => {
            Err(Failure::rule("UPDATE has no SET, so it changes nothing"))
        }
        _ => Ok(()),
    }
}

fn check_not(alloc: Global, text: &str, pieces: &[Piece<'_>]) -> Result<(), Failure> {
    for i in 0..pieces.len() {
        if pieces[i].kind != Kind::Not {
            continue;
        }
        let end = operand_end(pieces, i.saturating_add(1));
        if let Some(operator) = pieces.get(end)
            && is_operator(*operator)
        {
            return Err(not_failure(alloc, text, pieces[i], *operator));
        }
    }
    Ok(())
}

fn not_failure(alloc: Global, text: &str, not: Piece<'_>, operator: Piece<'_>) -> Failure {
    let start = not.place.saturating_add(not.text.len());
    let operand = text.get(start..operator.place).unwrap_or("").trim();
    let (operand, operator) = (Shown::escaped(operand), operator.text);
    match format!(in alloc;
        "write NOT ({operand} {operator} ..) or (NOT {operand}) {operator} .."
    ) {
        Ok(sentence) => refused_at(alloc, text, not.place, sentence.as_str()),
        Err(error) => Failure::from(error),
    }
}

/// Refuses two tables that go by one name, whose columns couldn't be told apart.
fn check_joins(alloc: Global, pieces: &[Piece<'_>]) -> Result<(), Failure> {
    for i in 0..pieces.len() {
        if let Some(name) = name_of_table(pieces, i)
            && is_named_before(pieces, i, name)
        {
            let name = Shown::escaped(name);
            return Err(said(format!(in alloc;
                "two tables go by the name {name}; name them apart, as in FROM {name} A, {name} B"
            )));
        }
    }
    Ok(())
}

fn is_named_before(pieces: &[Piece<'_>], place: usize, name: &str) -> bool {
    (0..place).any(|i| name_of_table(pieces, i) == Some(name))
}

/// Returns the name that the columns of the table at a place go by.
fn name_of_table<'a>(pieces: &[Piece<'a>], place: usize) -> Option<&'a str> {
    let name = table_at(pieces, place)?;
    Some(own_name_at(pieces, place).unwrap_or(name))
}
