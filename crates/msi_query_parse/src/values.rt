//! Values of rows and assignments.

ghost use Rattle.std.specs.Prelude.{◌≡◌, ◌++◌, ◌∷◌, [], IfOk};
ghost use Rattle.msi_query_tokens.specs.Input.{Reads};
ghost use Rattle.msi_query_parse.specs.Reading as spec;

use msi_base::text::Items;
use msi_query_tokens::refusal::{Expected, ParseError};
use msi_query_tokens::texts::{negative, positive, text};
use msi_query_tokens::token::Kind;
use msi_query_tokens::tokens::Tokens;
use msi_table_values::value::Value;
use std::alloc::{AllocError, Global};

#[tactic(auto, unfolding(crate::specs::Reading::negative_value))]
fn negative_value(tokens: &mut Tokens<'_>) -> Result<Value, ParseError>
    ensures { Reads (spec.negative_value tokens.old) result tokens.new }
{
    tokens.take();
    if tokens.sees(Kind::Number) {
        Ok(Value::Int(negative(tokens)?))
    } else {
        Err(tokens.refuse(Expected::Number))
    }
}

#[tactic(auto, unfolding(crate::specs::Reading::value))]
pub(crate) fn value(alloc: Global, tokens: &mut Tokens<'_>) -> Result<Value, ParseError>
    ensures { Reads (spec.value tokens.old) result tokens.new }
{
    match tokens.peek() {
        Kind::Null => {
            tokens.take();
            Ok(Value::Null)
        }
        Kind::BinaryStream => {
            tokens.take();
            Ok(Value::Binary)
        }
        Kind::Number => Ok(Value::Int(positive(tokens)?)),
        Kind::Sub => negative_value(tokens),
        Kind::SingleQuoted | Kind::DoubleQuoted => Ok(Value::Str(text(alloc, tokens)?)),
        _ => Err(tokens.refuse(Expected::Value)),
    }
}

fn with_value(values: Items<Value>, value: Value) -> Result<Items<Value>, AllocError>
    ensures { IfOk result (λ all. all ≡ values ++ value ∷ []) }
{
    let mut values = values.into_vec();
    values.push(value)?;
    Ok(Items::from_vec(values))
}

fn values(alloc: Global, tokens: &mut Tokens<'_>) -> Result<Items<Value>, ParseError>
    ensures { Reads (spec.values tokens.old) result tokens.new }
{
    let mut found = Items::from_vec(Vec::new(alloc));
    for _turn in 0..tokens.left() {
        found = with_value(found, value(alloc, tokens)?)?;
        if !tokens.eat(Kind::Comma) {
            return Ok(found);
        }
    }
    Err(tokens.refuse(Expected::Value))
}

#[tactic(auto, unfolding(crate::specs::Reading::row))]
pub(crate) fn row(alloc: Global, tokens: &mut Tokens<'_>) -> Result<Items<Value>, ParseError>
    ensures { Reads (spec.row tokens.old) result tokens.new }
{
    tokens.expect(Kind::Open, Expected::OpenBracket)?;
    if tokens.eat(Kind::Close) {
        return Ok(Items::from_vec(Vec::new(alloc)));
    }
    let found = values(alloc, tokens)?;
    tokens.expect(Kind::Close, Expected::CloseBracket)?;
    Ok(found)
}
