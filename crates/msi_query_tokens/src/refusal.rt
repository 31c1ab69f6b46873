//! Why a text is refused, and where.

ghost use Rattle.std.specs.Prelude.{◌≡◌};
ghost use Rattle.msi_base.specs.declared.errors.ErrorKind.TheVariants as kinds;
ghost use Rattle.msi_query_tokens.specs.Refusals.{error_kind_of};

use msi_base::errors::{Error, ErrorKind, Reason};
use msi_base::reasons;
use std::alloc::{AllocError, AllocFailed};
use std::fmt;

/// What would have fitted where a text is refused.
#[derive(Clone, Copy, Debug, PartialEq, Eq, Hash)]
pub enum Expected {
    /// `SELECT`, `INSERT`, `UPDATE` or `DELETE`.
    Query,
    Select,
    Insert,
    Update,
    Delete,
    From,
    Into,
    Join,
    On,
    /// Behind a side in brackets, which is no source of rows by itself.
    JoinKind,
    /// The equals sign behind the column of an assignment.
    Equals,
    /// The name of a table or a column.
    Name,
    /// A name of a column, or a star.
    Columns,
    /// The name of a table, or a query in brackets.
    Side,
    /// A column, a literal, an operator in front of an operand, or an opening bracket.
    Operand,
    /// A literal.
    Value,
    OpenBracket,
    /// A closing bracket, or what goes on with what stands in the brackets.
    CloseBracket,
    /// The end of the text, or what goes on with the query.
    End,
    /// Behind `ORDER`.
    By,
    /// Behind `IS` or `IS NOT`.
    Null,
    /// A number of 32 bits.
    Number,
    /// The end of a quote.
    ClosingQuote,
    /// A text in double quotes whose escapes are `\"`, `\'`, `\\`, `\n`, `\r`, `\t`, `\0` and `\u{..}`.
    Escape,
    /// Fewer levels: brackets, operators and joins nest at most 200 deep.
    FewerLevels,
}

impl Expected {
    /// Returns what was expected, for people to read.
    pub fn description(self) -> &'static str {
        match self {
            Expected::Query => "expected SELECT, INSERT, UPDATE or DELETE",
            Expected::Select => "expected SELECT",
            Expected::Insert => "expected INSERT",
            Expected::Update => "expected UPDATE",
            Expected::Delete => "expected DELETE",
            Expected::From => "expected FROM",
            Expected::Into => "expected INTO",
            Expected::Join => "expected JOIN",
            Expected::On => "expected ON",
            Expected::JoinKind => "expected INNER JOIN or LEFT JOIN",
            Expected::Equals => "expected an equals sign",
            Expected::Name => "expected a name",
            Expected::Columns => "expected the name of a column or a star",
            Expected::Side => "expected the name of a table or a query in brackets",
            Expected::Operand => "expected an operand",
            Expected::Value => "expected a literal",
            Expected::OpenBracket => "expected an opening bracket",
            Expected::CloseBracket => "expected a closing bracket",
            Expected::End => "expected the end of the text",
            Expected::By => "expected BY",
            Expected::Null => "expected NULL",
            Expected::Number => "expected a number of 32 bits",
            Expected::ClosingQuote => "expected the end of a quote",
            Expected::Escape => "expected an escape that is known",
            Expected::FewerLevels => "expected at most 200 levels",
        }
    }
}

/// Where a text is refused, and what was expected there.
#[derive(Clone, Copy, Debug, PartialEq, Eq, Hash)]
pub struct Refused {
    /// The byte at which the token begins at which reading stops, or the length of the text.
    pub place: usize,
    pub expected: Expected,
}

/// Why a text gives no query.
#[derive(Clone, Copy, Debug, PartialEq, Eq, Hash)]
pub enum ParseError {
    /// A growth was refused.
    OutOfMemory,
    /// The text spells no query.
    Refused(Refused),
}

/// Writes the place and what was expected, as `at byte 17: expected an operand`.
impl fmt::Display for ParseError {
    fn fmt<W: fmt::Write>(&self, f: &mut fmt::Formatter<W>) -> fmt::Result {
        match self {
            ParseError::OutOfMemory => f.write_str("memory was refused"),
            ParseError::Refused(refused) => {
                let description = refused.expected.description();
                write!(f, "at byte {}: {description}", refused.place)
            }
        }
    }
}

impl std::error::Error for ParseError {}

impl From<AllocError> for ParseError {
    ghost use Rattle.msi_query_tokens.specs.declared.refusal.ParseError.TheVariants.{OutOfMemory};

    ghost from_gives = { λ _ e. e ≡ OutOfMemory };

    fn from(_error: AllocError) -> ParseError {
        ParseError::OutOfMemory
    }
}

impl<T: Drop> From<AllocFailed<T>> for ParseError {
    ghost use Rattle.msi_query_tokens.specs.declared.refusal.ParseError.TheVariants.{OutOfMemory};

    ghost from_gives = { λ _ e. e ≡ OutOfMemory };

    fn from(_error: AllocFailed<T>) -> ParseError {
        ParseError::OutOfMemory
    }
}

/// The error of a constructor of the library, which fails for want of memory alone.
impl From<Error> for ParseError {
    ghost use Rattle.msi_query_tokens.specs.declared.refusal.ParseError.TheVariants.{OutOfMemory};

    ghost from_gives = { λ _ e. e ≡ OutOfMemory };

    fn from(_error: Error) -> ParseError {
        ParseError::OutOfMemory
    }
}

/// `OutOfMemory`, or `InvalidInput` with what was expected as the reason; the place isn't in it.
impl From<ParseError> for Error {
    ghost from_gives = { λ error e. e ≡ error_kind_of error };

    fn from(error: ParseError) -> Error {
        match error {
            ParseError::OutOfMemory => Error::new(ErrorKind::OutOfMemory, reasons::MEMORY),
            ParseError::Refused(refused) => Error::new(
                ErrorKind::InvalidInput,
                Reason(refused.expected.description()),
            ),
        }
    }
}
