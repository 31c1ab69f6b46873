//! A cursor over the tokens of a text, which cuts each as it is reached.

ghost use Rattle.std.specs.Prelude.{◌≡◌, ◌≤◌, IfErr};
ghost use Rattle.msi_query_tokens.specs.Input as spec;
ghost use Rattle.msi_query_tokens.specs.Input.{ReadsExactly};

use crate::lex::{Token, same_kind, skip_blanks, token};
use crate::refusal::{Expected, ParseError, Refused};
use crate::token::Kind;
use std::marker::Model;

/// How deep brackets, operators and joins may nest, in levels.
pub const MAX_HEIGHT: usize = 200;

/// The tokens of a text that are still to be read, and the height of what was read last.
#[derive(Drop)]
pub struct Tokens<'a> {
    len: usize,
    /// The text from the next token on, and that token.
    ahead: &'a [u8],
    token: Token,
    height: usize,
}

impl<'a> Model for Tokens<'a> {
    ghost use Rattle.msi_query_tokens.specs.Input.{Input, input_code};

    ghost Value = { Input };

    ghost coded = { input_code };

    ghost use Rattle.msi_query_tokens.specs.Cursor.{input_of, IsReady};

    ghost view = { input_of };

    ghost invariant = { IsReady };
}

impl<'a> Tokens<'a> {
    /// Returns the tokens of a whole text.
    pub fn new(text: &'a [u8]) -> Tokens<'a>
        ensures { result ≡ spec.start_of text.now }
    {
        let ahead = skip_blanks(text);
        Tokens {
            len: text.len(),
            ahead,
            token: token(ahead),
            height: 0,
        }
    }

    /// Returns what comes next; at the end of the text that is `Kind::End`.
    #[tactic(auto, unfolding(crate::specs::Input::kind))]
    pub fn peek(&self) -> Kind
        ensures { result ≡ spec.kind self.now }
    {
        self.token.0
    }

    /// Returns how many bytes there are from the next token on.
    #[tactic(auto, unfolding(crate::specs::Input::left))]
    pub fn left(&self) -> usize
        ensures { result ≡ spec.left self.now }
    {
        self.ahead.len()
    }

    /// Returns the refusal of the next token: the byte at which it begins, and what was expected there. A quote without
    /// its end is refused for that, whatever was expected.
    #[tactic(auto, unfolding(crate::specs::Input::refusal))]
    pub fn refuse(&self, expected: Expected) -> ParseError
        ensures { result ≡ spec.refusal expected self.now }
    {
        let expected = if same_kind(self.peek(), Kind::Unclosed) {
            Expected::ClosingQuote
        } else {
            expected
        };
        ParseError::Refused(Refused {
            place: self.len.saturating_sub(self.left()),
            expected,
        })
    }

    /// Returns the bytes of the next token, as they stand in the text.
    #[tactic(auto, unfolding(crate::specs::Input::spelling))]
    pub fn spelling(&self) -> &'a [u8]
        ensures { result.now ≡ spec.spelling self.now }
    {
        &self.ahead[..self.token.1]
    }

    /// Goes past the next token; at the end of the text it stays there.
    #[tactic(auto, unfolding(crate::specs::Input::next))]
    pub fn take(&mut self)
        ensures { self.new ≡ spec.next self.old }
    {
        let ahead = skip_blanks(&self.ahead[self.token.1..]);
        self.token = token(ahead);
        self.ahead = ahead;
    }

    /// Returns whether a token of this kind comes next.
    #[tactic(auto, unfolding(crate::specs::Input::sees))]
    pub fn sees(&self, kind: Kind) -> bool
        ensures { result ≡ spec.sees kind self.now }
    {
        same_kind(self.peek(), kind)
    }

    /// Goes past a token of this kind if it comes next, and returns whether it does.
    #[tactic(auto, unfolding(crate::specs::Input::after))]
    pub fn eat(&mut self, kind: Kind) -> bool
        ensures found { result ≡ spec.sees kind self.old }
        ensures after { self.new ≡ spec.after kind self.old }
    {
        let found = self.sees(kind);
        if found {
            self.take();
        }
        found
    }

    /// Goes past a token of this kind.
    ///
    /// # Errors
    /// Refuses any other, and stays in front of it. Memory is never refused.
    #[tactic(auto, unfolding(crate::specs::Input::expect))]
    pub fn expect(&mut self, kind: Kind, expected: Expected) -> Result<(), ParseError>
        ensures read { ReadsExactly (spec.expect kind expected self.old) result self.new }
        ensures same { IfErr result (λ _. self.new ≡ self.old) }
    {
        if self.sees(kind) {
            self.take();
            Ok(())
        } else {
            Err(self.refuse(expected))
        }
    }

    /// Begins what stands one level below, and returns the height to go back to.
    pub fn enter(&mut self) -> usize
        ensures { spec.enter self.old ≡ Ok (result, self.new) }
    {
        std::mem::replace(&mut self.height, 0)
    }

    /// Puts one more level above what was read.
    ///
    /// # Errors
    /// Refuses the next token if there are `limit` levels already, and stays in front of it. Memory is never refused.
    #[tactic(auto, unfolding(crate::specs::Input::rise))]
    pub fn rise(&mut self, limit: usize) -> Result<(), ParseError>
        ensures read { ReadsExactly (spec.rise limit self.old) result self.new }
        ensures same { IfErr result (λ _. self.new ≡ self.old) }
    {
        if self.height < limit {
            self.height += 1;
            Ok(())
        } else {
            Err(self.refuse(Expected::FewerLevels))
        }
    }

    /// Ends what stands one level below: the height is one more than its own, or `outer` if that is greater.
    pub fn leave(&mut self, outer: usize)
        ensures { spec.leave outer self.old ≡ Ok (tt, self.new) }
    {
        self.height = outer.max(self.height.saturating_add(1));
    }

    /// Ends a query in brackets on the left of a join, which counts the level above it.
    pub fn lower(&mut self)
        ensures { spec.lower self.old ≡ Ok (tt, self.new) }
    {
        self.height = self.height.saturating_sub(1);
    }

    /// Ends a condition, whose height doesn't count where it stands.
    pub fn restore(&mut self, outer: usize)
        ensures { spec.restore outer self.old ≡ Ok (tt, self.new) }
    {
        self.height = outer;
    }
}
