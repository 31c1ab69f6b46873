//! `exec FILE --from PATH`: statements in a file, each of which ends with a semicolon.

use msipkg_packages::output::{Failure, System};
use std::alloc::{AllocError, Global};
use std::{io, mem};

/// Returns the statements of a file, or of standard input where the path is `-`. Semicolons part them, and `--` begins
/// a comment that goes on to the end of its line; in quotes both stand for themselves.
///
/// # Errors
/// Fails if the file can't be read or isn't in UTF-8, if a quote isn't closed, and if memory is refused.
pub fn read_script(rt: &System, path: &str) -> Result<Vec<String>, Failure> {
    match script_in(rt, path) {
        Ok(statements) => Ok(statements),
        Err(failure) => Err(failure.at(rt.alloc(), "file", path)),
    }
}

fn script_in(rt: &System, path: &str) -> Result<Vec<String>, Failure> {
    let text = text_of(rt, path)?;
    statements_of(rt.alloc(), text.as_str())
}

fn text_of(rt: &System, path: &str) -> Result<String, Failure> {
    if path == "-" {
        return Ok(io::read_to_string(rt.alloc(), rt.rt.stdin())?);
    }
    match String::from_utf8(rt.read(path)?) {
        Ok(text) => Ok(text),
        Err(_) => Err(Failure::rule("it isn't in UTF-8")),
    }
}

fn statements_of(alloc: Global, text: &str) -> Result<Vec<String>, Failure> {
    let mut cutter = Cutter {
        alloc,
        statements: Vec::new(alloc),
        statement: String::new(alloc),
        state: State::Plain,
    };
    cutter.take_all(text)?;
    cutter.end()?;
    if cutter.is_quoted() {
        return Err(Failure::rule("the last quote isn't closed"));
    }
    Ok(cutter.into_statements())
}

/// What the next character belongs to.
#[derive(Clone, Copy)]
enum State {
    /// A statement.
    Plain,
    /// What a minus stands in front of, which may be a comment.
    Minus,
    /// A comment.
    Comment,
    /// What stands in these quotes.
    Quoted(char),
    /// What a backslash stands in front of, in double quotes.
    Escaped,
}

/// A text that is being cut into statements.
struct Cutter {
    alloc: Global,
    statements: Vec<String>,
    statement: String,
    state: State,
}

/// Written out, so that a function that owns one calls one drop, and its proof doesn't go through those of the parts.
impl Drop for Cutter {
    fn drop(self) {
        let Cutter {
            alloc: _,
            statements: _,
            statement: _,
            state: _,
        } = self;
    }
}

impl Cutter {
    fn into_statements(self) -> Vec<String> {
        let Cutter {
            alloc: _,
            statements,
            statement: _,
            state: _,
        } = self;
        statements
    }

    fn is_quoted(&self) -> bool {
        matches!(self.state, State::Quoted(_) | State::Escaped)
    }

    fn take_all(&mut self, text: &str) -> Result<(), AllocError> {
        for c in text.chars() {
            self.take(c)?;
        }
        Ok(())
    }

    fn take(&mut self, c: char) -> Result<(), AllocError> {
        match self.state {
            State::Plain => self.take_plain(c),
            State::Minus if c == '-' => {
                self.state = State::Comment;
                Ok(())
            }
            State::Minus => {
                self.statement.push('-')?;
                self.take_plain(c)
            }
            State::Comment => self.take_comment(c),
            State::Quoted(quote) => self.take_quoted(quote, c),
            State::Escaped => {
                self.state = State::Quoted('"');
                self.statement.push(c)
            }
        }
    }

    fn take_plain(&mut self, c: char) -> Result<(), AllocError> {
        self.state = match c {
            '-' => State::Minus,
            '\'' | '"' | '`' => State::Quoted(c),
            _ => State::Plain,
        };
        match c {
            ';' => self.end(),
            '-' => Ok(()),
            _ => self.statement.push(c),
        }
    }

    /// Takes a character of a comment, which becomes a blank at its end.
    fn take_comment(&mut self, c: char) -> Result<(), AllocError> {
        if c != '\n' {
            return Ok(());
        }
        self.state = State::Plain;
        self.statement.push(' ')
    }

    fn take_quoted(&mut self, quote: char, c: char) -> Result<(), AllocError> {
        if c == quote {
            self.state = State::Plain;
        } else if c == '\\' && quote == '"' {
            self.state = State::Escaped;
        }
        self.statement.push(c)
    }

    fn end(&mut self) -> Result<(), AllocError> {
        if matches!(self.state, State::Minus) {
            self.statement.push('-')?;
        }
        let next = String::new(self.alloc);
        let statement = mem::replace(&mut self.statement, next);
        let text = statement.as_str().trim();
        if !text.is_empty() {
            self.statements.push(String::from_str(self.alloc, text)?)?;
        }
        Ok(())
    }
}
