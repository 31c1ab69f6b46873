//! The tables that `FROM` lists.

ghost use Rattle.std.specs.Prelude.{◌≡◌, ◌++◌, ◌∷◌, [], IfOk, map, option_copied, unwrap_or};
ghost use Rattle.msi_query.specs.Queries.{product, no_clauses};
ghost use Rattle.msi_query_tokens.specs.Input.{Reads};
ghost use Rattle.msi_query_parse.specs.Reading as spec;
ghost use Rattle.msi_query_parse.specs.Tables.{side_of, alone as name_alone};

use crate::names::name;
use msi_base::errors::Error;
use msi_base::text::{Items, Text};
use msi_query::Select;
use msi_query_tokens::refusal::{Expected, ParseError};
use msi_query_tokens::token::Kind;
use msi_query_tokens::tokens::Tokens;
use std::alloc::{AllocError, Global};
use std::marker::Model;

/// A table, and the name of its own that stands behind it, if any.
#[derive(Drop)]
pub(crate) struct FromTable {
    table: Text,
    own: Option<Text>,
}

impl Model for FromTable {
    ghost use Rattle.msi_query_parse.specs.Tables.{FromTable as From};

    ghost Value = { From };

    ghost view = { λ t. record { table = t.table; own = t.own } };
}

impl FromTable {
    /// Returns the name that the table's columns go by.
    fn name(&self) -> &Text
        ensures { result.now ≡ unwrap_or self.now.own self.now.table }
    {
        match &self.own {
            Some(own) => own,
            None => &self.table,
        }
    }
}

#[tactic(auto, unfolding(crate::specs::Reading::own_name))]
fn own_name(alloc: Global, tokens: &mut Tokens<'_>) -> Result<Option<Text>, ParseError>
    ensures { Reads (spec.own_name tokens.old) result tokens.new }
{
    if !tokens.peek().is_name() {
        return Ok(None);
    }
    Ok(Some(name(alloc, tokens, Expected::Name)?))
}

#[tactic(auto, unfolding(crate::specs::Reading::from_table))]
fn from_table(alloc: Global, tokens: &mut Tokens<'_>) -> Result<FromTable, ParseError>
    ensures { Reads (spec.from_table tokens.old) result tokens.new }
{
    let table = name(alloc, tokens, Expected::Side)?;
    let own = own_name(alloc, tokens)?;
    Ok(FromTable { table, own })
}

fn with_table(tables: Items<FromTable>, table: FromTable) -> Result<Items<FromTable>, AllocError>
    ensures { IfOk result (λ all. all ≡ tables ++ table ∷ []) }
{
    let mut tables = tables.into_vec();
    tables.push(table)?;
    Ok(Items::from_vec(tables))
}

pub(crate) fn tables(alloc: Global, tokens: &mut Tokens<'_>) -> Result<Items<FromTable>, ParseError>
    ensures { Reads (spec.tables tokens.old) result tokens.new }
{
    let mut found = Items::from_vec(Vec::new(alloc));
    for _turn in 0..tokens.left() {
        found = with_table(found, from_table(alloc, tokens)?)?;
        if !tokens.eat(Kind::Comma) {
            return Ok(found);
        }
    }
    Err(tokens.refuse(Expected::Side))
}

/// Returns the name of a table that stands alone, with no name of its own.
pub(crate) fn alone(tables: &[FromTable]) -> Option<&Text>
    ensures { option_copied result ≡ name_alone tables.now }
{
    if tables.len() != 1 {
        return None;
    }
    let first = &tables[0];
    match &first.own {
        Some(_) => None,
        None => Some(&first.table),
    }
}

fn borrowed_sides<'a>(
    alloc: Global,
    tables: &'a [FromTable],
) -> Result<Vec<(&'a str, &'a str)>, AllocError>
    ensures { IfOk result (λ all. map (λ side. record { table = side.0.now; name = side.1.now }) all.items
        ≡ map side_of tables.now) }
{
    let mut all = Vec::new(alloc);
    for table in tables {
        all.push((table.table.as_str(), table.name().as_str()))?;
    }
    Ok(all)
}

pub(crate) fn product_of(alloc: Global, tables: &[FromTable]) -> Result<Select, Error>
    ensures { IfOk result (λ query. query ≡ product (map side_of tables.now) no_clauses) }
{
    Select::from_tables(alloc, borrowed_sides(alloc, tables)?.as_slice())
}
