//! Why a command failed, and where, for people to read.

use crate::pages::Pages;
use crate::{JsonObject, Shown};
use msi_base::{Error, ErrorKind};
use msi_query_parse::ParseError;
use msi_recode::RecodeError;
use std::alloc::{AllocError, AllocFailed, Global};
use std::fmt::Display;
use std::{fmt, io};

/// What went wrong.
#[derive(Drop)]
pub enum Cause {
    /// A call of the library.
    Package(Error),
    /// A call of the system, on a file or an output.
    File(io::Error),
    /// A text is no query.
    Query(ParseError),
    /// A text isn't the CSV or JSON that is wanted: why, as the library says that reads it.
    Shown(String),
    /// A text of a package that its page doesn't read.
    Text(RecodeError),
    /// A package that isn't in UTF-8 isn't written so unasked.
    Recoding(Pages),
    /// A rule of the program: a sentence, without its full stop.
    Rule(&'static str),
}

impl fmt::Display for Cause {
    fn fmt<W: fmt::Write>(&self, f: &mut fmt::Formatter<W>) -> fmt::Result {
        match self {
            Cause::Package(error) => error.fmt(f),
            Cause::File(error) => error.fmt(f),
            Cause::Query(error) => error.fmt(f),
            Cause::Shown(error) => f.write_str(error.as_str()),
            Cause::Text(error) => write_text_error(error, f),
            Cause::Recoding(pages) => write!(
                f,
                "texts in {pages} would be written in UTF-8, which --recode allows"
            ),
            Cause::Rule(rule) => f.write_str(rule),
        }
    }
}

/// Writes which text a page doesn't read. Texts are counted from 1 on, as tables refer to them.
fn write_text_error<W: fmt::Write>(error: &RecodeError, f: &mut fmt::Formatter<W>) -> fmt::Result {
    match error {
        RecodeError::Package(error) => write!(f, "{error}"),
        RecodeError::Place(place, error) => {
            let number = place.saturating_add(1);
            write!(f, "text {number} of the database: {error}")
        }
        RecodeError::Property(id, error) => write!(f, "property {id} of the summary: {error}"),
    }
}

/// Why a command failed. It prints as its place, such as `table Property`, and what went wrong there.
pub struct Failure {
    place: Option<String>,
    cause: Cause,
    is_mended_by_counting: bool,
}

/// Written out, so that a function that owns one calls one drop, and its proof doesn't go through those of the parts.
impl Drop for Failure {
    fn drop(self) {
        let Failure {
            place: _,
            cause: _,
            is_mended_by_counting: _,
        } = self;
    }
}

impl Failure {
    /// Returns a failure of no special place.
    pub fn new(cause: Cause) -> Failure {
        Failure {
            place: None,
            cause,
            is_mended_by_counting: false,
        }
    }

    /// Returns the failure of a rule of the program.
    pub fn rule(rule: &'static str) -> Failure {
        Failure::new(Cause::Rule(rule))
    }

    /// Returns the failure that an error of another library is, which prints as it does. Where there is no memory for
    /// that, it is the failure of memory.
    pub fn shown<D: Display>(alloc: Global, error: &D) -> Failure {
        match error.to_string(alloc) {
            Ok(text) => Failure::new(Cause::Shown(text)),
            Err(error) => Failure::from(error),
        }
    }

    /// Returns this failure, in the place of this kind and name, as `table` and `Property`. Where it has a place
    /// already, or there is no memory for one, it stays as it is.
    pub fn at(self, alloc: Global, kind: &str, name: &str) -> Failure {
        if self.place.is_some() {
            return self;
        }
        let Failure {
            place: _,
            cause,
            is_mended_by_counting,
        } = self;
        Failure {
            place: place_of(alloc, kind, name).ok(),
            cause,
            is_mended_by_counting,
        }
    }

    /// Returns this failure, as one that won't come any more once the texts of the package are counted anew.
    pub fn mended_by_counting(mut self) -> Failure {
        self.is_mended_by_counting = true;
        self
    }

    /// Returns whether the failure won't come any more once the texts of the package are counted anew.
    pub fn is_mended_by_counting(&self) -> bool {
        self.is_mended_by_counting
    }

    /// Returns whether a call of the library found invalid data, or a text that its page doesn't read.
    pub fn is_invalid_data(&self) -> bool {
        match &self.cause {
            Cause::Package(error) => matches!(error.kind(), ErrorKind::InvalidData),
            Cause::Text(error) => matches!(error.kind(), ErrorKind::InvalidData),
            _ => false,
        }
    }
}

fn place_of(alloc: Global, kind: &str, name: &str) -> Result<String, AllocError> {
    let name = Shown::escaped(name);
    format!(in alloc; "{kind} {name}")
}

impl fmt::Display for Failure {
    fn fmt<W: fmt::Write>(&self, f: &mut fmt::Formatter<W>) -> fmt::Result {
        if let Some(place) = &self.place {
            write!(f, "{place}: ")?;
        }
        self.cause.fmt(f)
    }
}

impl From<Error> for Failure {
    fn from(error: Error) -> Failure {
        Failure::new(Cause::Package(error))
    }
}

impl From<io::Error> for Failure {
    fn from(error: io::Error) -> Failure {
        Failure::new(Cause::File(error))
    }
}

impl From<ParseError> for Failure {
    fn from(error: ParseError) -> Failure {
        Failure::new(Cause::Query(error))
    }
}

impl From<AllocError> for Failure {
    fn from(error: AllocError) -> Failure {
        Failure::new(Cause::Package(Error::from(error)))
    }
}

impl<T: Drop> From<AllocFailed<T>> for Failure {
    fn from(_error: AllocFailed<T>) -> Failure {
        Failure::from(AllocError)
    }
}

/// Returns what a call returned, with the path of its file where it failed and has no place yet.
///
/// # Errors
/// Fails as the call did.
pub fn at_file(alloc: Global, path: &str, done: Result<(), Failure>) -> Result<(), Failure> {
    match done {
        Ok(()) => Ok(()),
        Err(failure) => Err(failure.at(alloc, "file", path)),
    }
}

/// Returns the line of a file that failed, as JSON.
pub fn failure_json(alloc: Global, file: &str, failure: &Failure) -> JsonObject {
    let mut object = JsonObject::new(alloc);
    object.put_text("file", Some(file));
    object.put_shown("error", failure);
    object
}
