//! The public calls: what can be read from text.

ghost use Rattle.std.specs.Prelude.{◌≡◌, IfOk};
ghost use Rattle.msi_query_tokens.specs.Input.{Reads};
ghost use Rattle.msi_query_parse.specs.Agreement.{RefusesUnspelled, SpellsStatement};
ghost use Rattle.msi_query_parse.specs.Grammar.{SpellsDelete, SpellsExpression, SpellsInsert};
ghost use Rattle.msi_query_parse.specs.Grammar.{SpellsSelect, SpellsUpdate};
ghost use Rattle.msi_query_parse.specs.Reading as spec;
ghost use Rattle.msi_query_parse.specs.Reading.{Gives, whole};

use crate::grammar::condition;
use crate::queries::{delete, insert, update};
use crate::sources::select;
use crate::statement::Statement;
use msi_query::{Delete, Insert, Select, Update};
use msi_query_expressions::expr::Expr;
use msi_query_tokens::refusal::{Expected, ParseError};
use msi_query_tokens::token::Kind;
use msi_query_tokens::tokens::Tokens;
use std::alloc::Global;

#[tactic(auto, unfolding(crate::specs::Reading::end))]
fn end(tokens: &Tokens<'_>) -> Result<(), ParseError>
    ensures { Reads (spec.end tokens.now) result tokens.now }
{
    match tokens.peek() {
        Kind::End => Ok(()),
        _ => Err(tokens.refuse(Expected::End)),
    }
}

/// What is read from text.
pub trait Parse: Sized {
    /// Reads a text.
    ///
    /// # Errors
    /// Fails with `OutOfMemory`, and refuses a text that spells no such query or expression, with the byte at which the
    /// token begins at which reading stops, and what was expected there.
    fn parse(alloc: Global, text: &str) -> Result<Self, ParseError>;
}

impl Parse for Expr {
    /// Reads an expression, as `Foo - (Bar - Baz) > 0 AND NOT Qux`.
    fn parse(alloc: Global, text: &str) -> Result<Expr, ParseError>
        ensures spelled { IfOk result (λ found. SpellsExpression text.now found) }
        ensures none { RefusesUnspelled SpellsExpression text.now result }
        ensures exact { Gives (whole spec.condition text.now) result }
    {
        whole_expression(alloc, text)
    }
}

fn whole_expression(alloc: Global, text: &str) -> Result<Expr, ParseError>
    ensures { Gives (whole spec.condition text.now) result }
{
    let mut tokens = Tokens::new(text.as_bytes());
    let expression = condition(alloc, &mut tokens)?;
    end(&tokens)?;
    Ok(expression)
}

impl Parse for Select {
    /// Reads a query for rows, as `SELECT Foo, Bar FROM Quux WHERE Foo > 42 ORDER BY Bar`.
    fn parse(alloc: Global, text: &str) -> Result<Select, ParseError>
        ensures spelled { IfOk result (λ found. SpellsSelect text.now found) }
        ensures none { RefusesUnspelled SpellsSelect text.now result }
        ensures exact { Gives (whole (spec.query 201) text.now) result }
    {
        whole_select(alloc, text)
    }
}

fn whole_select(alloc: Global, text: &str) -> Result<Select, ParseError>
    ensures { Gives (whole (spec.query 201) text.now) result }
{
    let mut tokens = Tokens::new(text.as_bytes());
    let query = select(alloc, &mut tokens)?;
    end(&tokens)?;
    Ok(query)
}

impl Parse for Insert {
    /// Reads a query that inserts rows, as `INSERT INTO Quux (Foo, Bar) VALUES (1, 'a'), (NULL, 'b')`.
    fn parse(alloc: Global, text: &str) -> Result<Insert, ParseError>
        ensures spelled { IfOk result (λ found. SpellsInsert text.now found) }
        ensures none { RefusesUnspelled SpellsInsert text.now result }
        ensures exact { Gives (whole spec.insert text.now) result }
    {
        whole_insert(alloc, text)
    }
}

fn whole_insert(alloc: Global, text: &str) -> Result<Insert, ParseError>
    ensures { Gives (whole spec.insert text.now) result }
{
    let mut tokens = Tokens::new(text.as_bytes());
    let query = insert(alloc, &mut tokens)?;
    end(&tokens)?;
    Ok(query)
}

impl Parse for Update {
    /// Reads a query that changes rows, as `UPDATE Quux SET Foo = 1 WHERE Foo = 2`.
    fn parse(alloc: Global, text: &str) -> Result<Update, ParseError>
        ensures spelled { IfOk result (λ found. SpellsUpdate text.now found) }
        ensures none { RefusesUnspelled SpellsUpdate text.now result }
        ensures exact { Gives (whole spec.update text.now) result }
    {
        whole_update(alloc, text)
    }
}

fn whole_update(alloc: Global, text: &str) -> Result<Update, ParseError>
    ensures { Gives (whole spec.update text.now) result }
{
    let mut tokens = Tokens::new(text.as_bytes());
    let query = update(alloc, &mut tokens)?;
    end(&tokens)?;
    Ok(query)
}

impl Parse for Delete {
    /// Reads a query that removes rows, as `DELETE FROM Quux WHERE Foo = 2`.
    fn parse(alloc: Global, text: &str) -> Result<Delete, ParseError>
        ensures spelled { IfOk result (λ found. SpellsDelete text.now found) }
        ensures none { RefusesUnspelled SpellsDelete text.now result }
        ensures exact { Gives (whole spec.delete text.now) result }
    {
        whole_delete(alloc, text)
    }
}

fn whole_delete(alloc: Global, text: &str) -> Result<Delete, ParseError>
    ensures { Gives (whole spec.delete text.now) result }
{
    let mut tokens = Tokens::new(text.as_bytes());
    let query = delete(alloc, &mut tokens)?;
    end(&tokens)?;
    Ok(query)
}

#[tactic(auto, unfolding(crate::specs::Reading::statement))]
fn statement(alloc: Global, tokens: &mut Tokens<'_>) -> Result<Statement, ParseError>
    ensures { Reads (spec.statement tokens.old) result tokens.new }
{
    match tokens.peek() {
        Kind::Select => Ok(Statement::Select(select(alloc, tokens)?)),
        Kind::Insert => Ok(Statement::Insert(insert(alloc, tokens)?)),
        Kind::Update => Ok(Statement::Update(update(alloc, tokens)?)),
        Kind::Delete => Ok(Statement::Delete(delete(alloc, tokens)?)),
        _ => Err(tokens.refuse(Expected::Query)),
    }
}

impl Parse for Statement {
    fn parse(alloc: Global, text: &str) -> Result<Statement, ParseError>
        ensures spelled { IfOk result (λ found. SpellsStatement text.now found) }
        ensures none { RefusesUnspelled SpellsStatement text.now result }
        ensures exact { Gives (whole spec.statement text.now) result }
    {
        whole_query(alloc, text)
    }
}

fn whole_query(alloc: Global, text: &str) -> Result<Statement, ParseError>
    ensures { Gives (whole spec.statement text.now) result }
{
    let mut tokens = Tokens::new(text.as_bytes());
    let query = statement(alloc, &mut tokens)?;
    end(&tokens)?;
    Ok(query)
}
