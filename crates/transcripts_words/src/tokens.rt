//! Cuts a line into words, texts and marks.

use crate::failure::Failure;
use std::alloc::{AllocError, Global};
use std::mem;

/// A piece of a line.
#[derive(Drop)]
pub enum Token {
    /// Characters between blanks: a name or a number.
    Word(String),
    /// A text that stands in quotes, without its escapes.
    Text(String),
    /// A parenthesis or a comma, which stands for itself.
    Mark(char),
}

/// What the characters that were read last belong to.
#[derive(Clone, Copy)]
enum Place {
    Blank,
    Word,
    Text,
    /// Behind a backslash.
    Escape,
    /// In the number of a character, behind `\u`, of which so much was read.
    Code(u32),
}

/// The tokens that were read, and the one that is being read.
#[derive(Drop)]
struct Lexer {
    tokens: Vec<Token>,
    place: Place,
    pending: String,
}

impl Lexer {
    fn read(&mut self, alloc: Global, c: char) -> Result<(), AllocError> {
        match self.place {
            Place::Blank | Place::Word => self.read_plain(alloc, c),
            Place::Text => self.read_quoted(alloc, c),
            Place::Escape => self.read_escaped(c),
            Place::Code(code) => self.read_code(code, c),
        }
    }

    fn push(&mut self, c: char, place: Place) -> Result<(), AllocError> {
        self.place = place;
        self.pending.push(c)
    }

    fn end(&mut self, alloc: Global, next: Place) -> Result<(), AllocError> {
        let text = mem::replace(&mut self.pending, String::new(alloc));
        match mem::replace(&mut self.place, next) {
            Place::Word => self.tokens.push(Token::Word(text))?,
            Place::Text => self.tokens.push(Token::Text(text))?,
            _ => {}
        }
        Ok(())
    }

    fn read_plain(&mut self, alloc: Global, c: char) -> Result<(), AllocError> {
        match c {
            ' ' => self.end(alloc, Place::Blank),
            '"' => self.end(alloc, Place::Text),
            '(' | ')' | ',' => {
                self.end(alloc, Place::Blank)?;
                self.tokens.push(Token::Mark(c))?;
                Ok(())
            }
            _ => self.push(c, Place::Word),
        }
    }

    fn read_quoted(&mut self, alloc: Global, c: char) -> Result<(), AllocError> {
        match c {
            '\\' => self.place = Place::Escape,
            '"' => return self.end(alloc, Place::Blank),
            _ => return self.push(c, Place::Text),
        }
        Ok(())
    }

    fn read_escaped(&mut self, c: char) -> Result<(), AllocError> {
        match c {
            'u' => self.place = Place::Code(0),
            'n' => return self.push('\n', Place::Text),
            'r' => return self.push('\r', Place::Text),
            't' => return self.push('\t', Place::Text),
            '0' => return self.push('\0', Place::Text),
            _ => return self.push(c, Place::Text),
        }
        Ok(())
    }

    /// Reads a character of `{4E00}`, which is behind `\u`. A number of no character means U+FFFD.
    fn read_code(&mut self, code: u32, c: char) -> Result<(), AllocError> {
        match c.to_digit(16) {
            Some(digit) => self.place = Place::Code(code.saturating_mul(16).saturating_add(digit)),
            None if c == '}' => {
                let c = char::from_u32(code).unwrap_or('\u{FFFD}');
                return self.push(c, Place::Text);
            }
            None => {}
        }
        Ok(())
    }
}

/// Returns the tokens of a line. Fails if a text has no end, and if memory runs out.
pub fn tokens(alloc: Global, line: &str) -> Result<Vec<Token>, Failure> {
    let mut lexer = Lexer {
        tokens: Vec::new(alloc),
        place: Place::Blank,
        pending: String::new(alloc),
    };
    for c in line.chars() {
        lexer.read(alloc, c)?;
    }
    lexer.read(alloc, ' ')?;
    match lexer.place {
        Place::Blank => Ok(lexer.tokens),
        _ => Err(Failure::Unreadable("a text has no end")),
    }
}
