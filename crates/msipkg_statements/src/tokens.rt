//! The pieces of a definition's text: words, names in backquotes, and signs.

use msipkg_packages::output::Failure;
use msipkg_queries::{refused_at, session_sentence};
use std::alloc::Global;

/// A piece of a text.
#[derive(Clone, Copy)]
pub(crate) enum Token<'a> {
    /// Letters, digits, dots and underscores: a key word, a number or a bare name.
    Word(&'a str),
    /// A name that stood in backquotes.
    Name(&'a str),
    /// Any other character.
    Sign(char),
}

impl<'a> Token<'a> {
    /// Returns whether it is this keyword, in any case.
    pub(crate) fn is_word(self, word: &str) -> bool {
        match self {
            Token::Word(text) => text.eq_ignore_ascii_case(word),
            _ => false,
        }
    }
}

/// The pieces that are left of a text.
#[derive(Clone, Copy)]
pub(crate) struct Tokens<'a> {
    alloc: Global,
    text: &'a str,
    left: &'a str,
}

impl<'a> Tokens<'a> {
    pub(crate) fn new(alloc: Global, text: &'a str) -> Tokens<'a> {
        Tokens {
            alloc,
            text,
            left: text,
        }
    }

    /// Returns the failure of the next piece: what is said of words of sessions, or else this rule.
    pub(crate) fn refuse(&self, rule: &str) -> Failure {
        let left = self.left.trim_start();
        let place = self
            .text
            .trim_end()
            .len()
            .min(self.text.len().saturating_sub(left.len()));
        let mut ahead = *self;
        let sentence = match ahead.take() {
            Some(Token::Word(word)) => session_sentence(word).unwrap_or(rule),
            Some(Token::Name(_) | Token::Sign(_)) | None => rule,
        };
        refused_at(self.alloc, self.text, place, sentence)
    }

    pub(crate) fn take(&mut self) -> Option<Token<'a>> {
        let text = self.left.trim_start();
        let first = text.chars().next()?;
        let end = end_of_word(text);
        if end > 0 {
            let (word, left) = text.split_at_checked(end)?;
            self.left = left;
            return Some(Token::Word(word));
        }
        let (_, behind) = text.split_at_checked(first.len_utf8())?;
        self.left = behind;
        if first != '`' {
            return Some(Token::Sign(first));
        }
        match behind.split_once('`') {
            Some((name, left)) => {
                self.left = left;
                Some(Token::Name(name))
            }
            None => Some(Token::Sign(first)),
        }
    }

    pub(crate) fn takes_word(&mut self, word: &str) -> bool {
        let mut ahead = *self;
        match ahead.take() {
            Some(token) if token.is_word(word) => {
                *self = ahead;
                true
            }
            _ => false,
        }
    }

    pub(crate) fn takes(&mut self, sign: char) -> bool {
        let mut ahead = *self;
        match ahead.take() {
            Some(Token::Sign(found)) if found == sign => {
                *self = ahead;
                true
            }
            _ => false,
        }
    }

    /// Takes this keyword. Fails with this rule if something else is next.
    pub(crate) fn expect_word(&mut self, word: &str, rule: &str) -> Result<(), Failure> {
        if self.takes_word(word) {
            Ok(())
        } else {
            Err(self.refuse(rule))
        }
    }

    pub(crate) fn expect(&mut self, sign: char, rule: &str) -> Result<(), Failure> {
        if self.takes(sign) {
            Ok(())
        } else {
            Err(self.refuse(rule))
        }
    }

    /// Takes a name, with its backquotes or without.
    pub(crate) fn name(&mut self) -> Result<&'a str, Failure> {
        let start = *self;
        match self.take() {
            Some(Token::Name(name) | Token::Word(name)) => Ok(name),
            Some(Token::Sign(_)) | None => Err(start.refuse("expected a name")),
        }
    }

    /// Takes a word. Fails with this rule if something else is next.
    pub(crate) fn word(&mut self, rule: &str) -> Result<&'a str, Failure> {
        let start = *self;
        match self.take() {
            Some(Token::Word(word)) => Ok(word),
            Some(Token::Name(_) | Token::Sign(_)) | None => Err(start.refuse(rule)),
        }
    }

    /// Takes the end of the text, in front of which a semicolon may stand.
    pub(crate) fn expect_end(&mut self) -> Result<(), Failure> {
        let _is_ended = self.takes(';');
        let start = *self;
        match self.take() {
            Some(_) => Err(start.refuse("expected the end of the text")),
            None => Ok(()),
        }
    }
}

/// Returns where the word at the start of a text ends, which is 0 if there is none.
fn end_of_word(text: &str) -> usize {
    for (i, c) in text.char_indices() {
        if !c.is_ascii_alphanumeric() && !matches!(c, '_' | '.') {
            return i;
        }
    }
    text.len()
}
