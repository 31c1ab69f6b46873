//! Reads a call, token by token.

use crate::failure::Failure;
use crate::tokens::Token;
use std::alloc::Global;

/// The tokens of a line that are still to be read.
///
/// Where a word is missing, or doesn't spell what is asked for, something harmless is returned, such as an empty text
/// or 0, and the line can't be read from then on. So a call reads its words without a check of each, and who makes it
/// asks once, by `check` or `end`.
#[derive(Clone, Copy)]
pub struct Words<'a> {
    /// Where calls take memory.
    pub alloc: Global,
    tokens: &'a [Token],
    /// The first reason why the line can't be read, if there is one.
    refusal: Option<&'static str>,
}

impl<'a> Words<'a> {
    /// Returns the words of a line, of which none is read yet.
    pub fn new(alloc: Global, tokens: &'a [Token]) -> Words<'a> {
        Words {
            alloc,
            tokens,
            refusal: None,
        }
    }

    /// Returns how many tokens are left.
    pub fn len(&self) -> usize {
        self.tokens.len()
    }

    /// Returns the next token, if there is one, and goes past it.
    pub fn next(&mut self) -> Option<&'a Token> {
        let (first, rest) = self.tokens.split_first()?;
        self.tokens = rest;
        Some(first)
    }

    /// Returns the next token, if there is one.
    pub fn peek(&self) -> Option<&'a Token> {
        self.tokens.first()
    }

    /// Returns the next token and goes past it, if it is a word or a text.
    pub fn next_unmarked(&mut self) -> Option<&'a Token> {
        match self.peek()? {
            Token::Mark(_) => None,
            _ => self.next(),
        }
    }

    /// Returns the next word, if that is what comes next.
    pub fn peek_word(&self) -> Option<&'a str> {
        match self.peek()? {
            Token::Word(word) => Some(word.as_str()),
            _ => None,
        }
    }

    /// Says why the line can't be read, unless that was said before.
    pub fn refuse(&mut self, reason: &'static str) {
        if self.refusal.is_none() {
            self.refusal = Some(reason);
        }
    }

    /// Returns what words spell. If they spell nothing, the line can't be read for this reason, and what stands in
    /// place of it is returned.
    pub fn spelled<T: Drop>(&mut self, found: Option<T>, in_place: T, reason: &'static str) -> T {
        if let Some(found) = found {
            return found;
        }
        self.refuse(reason);
        in_place
    }

    /// Reads a word, or an empty one if none comes next.
    pub fn word(&mut self) -> &'a str {
        match self.next() {
            Some(Token::Word(word)) => word.as_str(),
            _ => {
                self.refuse("a word is missing");
                ""
            }
        }
    }

    /// Reads a name, which is a word or a text, or an empty one if neither comes next.
    pub fn name(&mut self) -> &'a str {
        match self.next() {
            Some(Token::Word(name) | Token::Text(name)) => name.as_str(),
            _ => {
                self.refuse("a name is missing");
                ""
            }
        }
    }

    /// Reads a number of 32 bits, or 0 if none comes next.
    pub fn number(&mut self) -> i32 {
        let number = self.word().parse::<i32>().ok();
        self.spelled(number, 0, "a number is missing")
    }

    /// Reads a count or a position, or 0 if none comes next.
    pub fn count(&mut self) -> usize {
        let count = self.word().parse::<usize>().ok();
        self.spelled(count, 0, "a count is missing")
    }

    /// Goes past a word if it comes next, and returns whether it does.
    pub fn takes(&mut self, word: &str) -> bool {
        let is_next = self.peek_word() == Some(word);
        if is_next {
            let _ = self.next();
        }
        is_next
    }

    /// Reads the count behind a word if that comes next, and returns another one if it doesn't.
    pub fn count_behind(&mut self, word: &str, otherwise: usize) -> usize {
        if self.takes(word) {
            return self.count();
        }
        otherwise
    }

    /// Goes past a mark if it comes next, and returns whether it does.
    pub fn takes_mark(&mut self, mark: char) -> bool {
        let is_next = matches!(self.peek(), Some(Token::Mark(next)) if *next == mark);
        if is_next {
            let _ = self.next();
        }
        is_next
    }

    /// Goes past an opening parenthesis, and returns whether a list begins with it that isn't empty. Goes past an empty
    /// one.
    pub fn begins_list(&mut self) -> bool {
        if !self.takes_mark('(') {
            self.refuse("an opening parenthesis is missing");
            return false;
        }
        !self.takes_mark(')')
    }

    /// Goes past what stands behind an item of a list, and returns whether the list goes on.
    pub fn goes_on(&mut self) -> bool {
        match self.next() {
            Some(Token::Mark(',')) => true,
            Some(Token::Mark(')')) => false,
            _ => {
                self.refuse("a list has no end");
                false
            }
        }
    }

    /// Fails if the words that were read so far can't be.
    pub fn check(&self) -> Result<(), Failure> {
        match self.refusal {
            Some(reason) => Err(Failure::Unreadable(reason)),
            None => Ok(()),
        }
    }

    /// Fails if the words that were read can't be, and if a token is left.
    pub fn end(&mut self) -> Result<(), Failure> {
        if !self.tokens.is_empty() {
            self.refuse("the line goes on behind the call");
        }
        self.check()
    }
}
