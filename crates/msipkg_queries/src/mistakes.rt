//! Sentences for frequent mistakes, where the library says what its grammar expected.

use crate::pieces::{Piece, is_at, table_at};
use msi_query_tokens::refusal::Expected;
use msi_query_tokens::token::Kind;

/// Said of `TEMPORARY`.
const TEMPORARY: &str = "a file has no temporary rows; leave TEMPORARY out";

/// Said of a text that begins as no statement.
const OTHER_STATEMENT: &str =
    "expected INSERT, UPDATE, DELETE, CREATE TABLE, ALTER TABLE or DROP TABLE";

/// Said of `HOLD` and `FREE`.
const HOLD: &str = "HOLD and FREE count uses within a session, which a file doesn't have";

/// Said of joins by other words.
const JOINS: &str = "write INNER JOIN .. ON .. or LEFT JOIN .. ON ..";

/// Said of words of sorting.
const SORTING: &str = "rows are sorted upwards; leave ASC and DESC out";

/// Said of calls.
const CALLS: &str = "the installer's SQL has no functions; pipe --format json into jq";

/// What is said of words that other programs take behind what was read.
static WORDS: [(&str, &str); 24] = [
    ("TEMPORARY", TEMPORARY),
    ("HOLD", HOLD),
    ("FREE", HOLD),
    (
        "LIKE",
        "the installer's SQL has no LIKE; pipe the rows into grep",
    ),
    ("IN", "the installer's SQL has no IN; write A = 1 OR A = 2"),
    (
        "BETWEEN",
        "the installer's SQL has no BETWEEN; write A >= 1 AND A <= 2",
    ),
    (
        "LIMIT",
        "the installer's SQL has no LIMIT; pipe the rows into head",
    ),
    (
        "TOP",
        "the installer's SQL has no TOP; pipe the rows into head",
    ),
    (
        "OFFSET",
        "the installer's SQL has no OFFSET; pipe the rows into tail",
    ),
    (
        "GROUP",
        "the installer's SQL has no GROUP BY; pipe --format json into jq",
    ),
    (
        "HAVING",
        "the installer's SQL has no HAVING; pipe --format json into jq",
    ),
    ("UNION", "the installer's SQL has no UNION; ask two queries"),
    (
        "AS",
        "the installer's SQL has no AS; columns and tables keep their names",
    ),
    ("ASC", SORTING),
    ("DESC", SORTING),
    ("JOIN", JOINS),
    ("RIGHT", JOINS),
    ("FULL", JOINS),
    ("CROSS", JOINS),
    ("OUTER", JOINS),
    ("NATURAL", JOINS),
    ("USING", JOINS),
    (
        ";",
        "a text is one statement; give the next one as a text of its own",
    ),
    ("!", "write <> or != for differs from"),
];

/// What is said of calls by the name of the function.
static FUNCTIONS: [(&str, &str); 5] = [
    (
        "COUNT",
        "the installer's SQL has no COUNT; pipe --format json into jq",
    ),
    (
        "SUM",
        "the installer's SQL has no SUM; pipe --format json into jq",
    ),
    (
        "MIN",
        "the installer's SQL has no MIN; pipe --format json into jq",
    ),
    (
        "MAX",
        "the installer's SQL has no MAX; pipe --format json into jq",
    ),
    (
        "AVG",
        "the installer's SQL has no AVG; pipe --format json into jq",
    ),
];

/// Returns what is said of a word of sessions, which files don't have.
pub fn session_sentence(word: &str) -> Option<&'static str> {
    if word.eq_ignore_ascii_case("TEMPORARY") {
        return Some(TEMPORARY);
    }
    if word.eq_ignore_ascii_case("HOLD") || word.eq_ignore_ascii_case("FREE") {
        return Some(HOLD);
    }
    None
}

/// Returns why a text is refused at a piece: the mistake that people make there, or what was expected.
pub(crate) fn sentence_at(pieces: &[Piece<'_>], place: usize, expected: Expected) -> &'static str {
    match expected {
        Expected::Select => other_command(pieces, place).unwrap_or(expected.description()),
        Expected::Query => OTHER_STATEMENT,
        Expected::End | Expected::From | Expected::CloseBracket | Expected::Join | Expected::On => {
            continued(pieces, place).unwrap_or(expected.description())
        }
        Expected::Operand if has_double(pieces, place, Kind::Eq) => "write = for equals",
        Expected::Insert
        | Expected::Update
        | Expected::Delete
        | Expected::Into
        | Expected::JoinKind
        | Expected::Equals
        | Expected::Name
        | Expected::Columns
        | Expected::Side
        | Expected::Operand
        | Expected::Value
        | Expected::OpenBracket
        | Expected::By
        | Expected::Null
        | Expected::Number
        | Expected::ClosingQuote
        | Expected::Escape
        | Expected::FewerLevels => comment(pieces, place).unwrap_or(expected.description()),
    }
}

/// Returns what is said of a statement where a query is wanted.
fn other_command(pieces: &[Piece<'_>], place: usize) -> Option<&'static str> {
    let piece = pieces.get(place)?;
    let is_statement = matches!(piece.kind, Kind::Insert | Kind::Update | Kind::Delete)
        || piece.is_word("CREATE")
        || piece.is_word("DROP")
        || piece.is_word("ALTER");
    if place == 0 && is_statement {
        Some("query prints the rows of a SELECT; exec carries out statements")
    } else {
        None
    }
}

/// Returns what is said of what stands behind what was read.
fn continued(pieces: &[Piece<'_>], place: usize) -> Option<&'static str> {
    let piece = pieces.get(place)?;
    if piece.kind == Kind::Open {
        return called(pieces, place);
    }
    if piece.kind == Kind::Not {
        return said_of(pieces.get(place.saturating_add(1))?.text);
    }
    said_of(piece.text)
        .or(said_before(pieces, place))
        .or(comment(pieces, place))
}

/// Returns what is said of the word in front, which was read as a table's own name.
fn said_before(pieces: &[Piece<'_>], place: usize) -> Option<&'static str> {
    let before = pieces.get(place.checked_sub(1)?)?;
    if before.kind == Kind::Name {
        said_of(before.text)
    } else {
        None
    }
}

fn said_of(word: &str) -> Option<&'static str> {
    for (known, sentence) in WORDS.as_slice() {
        if word.eq_ignore_ascii_case(known) {
            return Some(sentence);
        }
    }
    None
}

/// Returns what is said of a name in front of an opening bracket, as a function has it.
fn called(pieces: &[Piece<'_>], place: usize) -> Option<&'static str> {
    let before = place.checked_sub(1)?;
    let name = pieces.get(before)?;
    if name.kind != Kind::Name || table_at(pieces, before).is_some() {
        return said_of(name.text);
    }
    for (known, sentence) in FUNCTIONS.as_slice() {
        if name.is_word(known) {
            return Some(sentence);
        }
    }
    Some(CALLS)
}

/// Returns what is said of two minus signs, which begin a comment elsewhere.
fn comment(pieces: &[Piece<'_>], place: usize) -> Option<&'static str> {
    let is_found = (0..pieces.len().min(place.saturating_add(1))).any(|i| has_double(
        pieces,
        i.saturating_add(1),
        Kind::Sub,
    ));
    if is_found {
        Some("-- begins a comment only in a file that --from reads")
    } else {
        None
    }
}

/// Returns whether the pieces at a place and in front of it are of a kind, without a blank between them.
fn has_double(pieces: &[Piece<'_>], place: usize, kind: Kind) -> bool {
    let Some(before) = place.checked_sub(1) else {
        return false;
    };
    if !is_at(pieces, before, kind) || !is_at(pieces, place, kind) {
        return false;
    }
    match (pieces.get(before), pieces.get(place)) {
        (Some(first), Some(second)) => first.place.saturating_add(1) == second.place,
        (Some(_) | None, _) => false,
    }
}
