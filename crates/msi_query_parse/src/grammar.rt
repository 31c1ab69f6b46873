//! The rules that hold expressions take the reader of those as a parameter, so that each is proved by itself.

ghost use Rattle.msi_query_tokens.specs.Input.{Reads};
ghost use Rattle.msi_query_parse.specs.Reading as spec;
ghost use Rattle.msi_query_parse.specs.Nests.{Nests};

use msi_query_expressions::expr::Expr;
use msi_query_tokens::refusal::{Expected, ParseError};
use msi_query_tokens::tokens::{MAX_HEIGHT, Tokens};
use std::alloc::Global;

/// How to read what stands one level below.
#[derive(Clone, Copy)]
pub(crate) struct Grammar<F> {
    pub(crate) alloc: Global,
    /// How high what is read may be.
    pub(crate) depth: usize,
    pub(crate) expression: F,
}

impl<F: Fn(Global, &mut Tokens<'_>, usize, u8) -> Result<Expr, ParseError>> Grammar<F> {
    /// Reads an expression one level below.
    pub(crate) fn expression(&self, tokens: &mut Tokens<'_>, least: u8) -> Result<Expr, ParseError>
        requires { Nests self.now.depth (F.pre self.now.expression) (F.post self.now.expression) }
        ensures { Reads (spec.expression self.now.depth least tokens.old) result tokens.new }
    {
        (self.expression)(self.alloc, tokens, self.depth, least)
    }
}

/// Reads an expression that is less high than `depth`, with operators that bind at least as tightly as `least`.
pub(crate) fn expression(
    alloc: Global,
    tokens: &mut Tokens<'_>,
    depth: usize,
    least: u8,
) -> Result<Expr, ParseError>
    ensures { Reads (spec.expression depth least tokens.old) result tokens.new }
{
    if depth == 0 {
        return Err(tokens.refuse(Expected::FewerLevels));
    }
    Grammar {
        alloc,
        depth: depth - 1,
        expression,
    }
    .level(tokens, least)
}

#[tactic(auto, unfolding(crate::specs::Reading::condition))]
pub(crate) fn condition(alloc: Global, tokens: &mut Tokens<'_>) -> Result<Expr, ParseError>
    ensures { Reads (spec.condition tokens.old) result tokens.new }
{
    let outer = tokens.enter();
    let condition = expression(alloc, tokens, MAX_HEIGHT + 1, 1)?;
    tokens.restore(outer);
    Ok(condition)
}
