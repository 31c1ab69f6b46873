//! Columns of relations that a condition on their product wants to be equal.

ghost use Rattle.std.specs.Prelude.{◌≡◌, ◌++◌, IfOk, OnOk, find, not, option_copied, slice_index_or, false, true};
ghost use Rattle.msi_base.specs.Results.{OnlyMemory};
ghost use Rattle.msi_query_rows.specs.Combinations.{located, widths_of};
ghost use Rattle.msi_query_rows.specs.Links.{connects as connecting, link_of, links_between};
ghost use Rattle.msi_query_rows.specs.Links.{links_of as links_wanted};

use crate::relation::Relation;
use msi_base::errors::Error;
use msi_query_expressions::expr::Expr;
use msi_query_expressions::parts::equations;
use msi_table_values::column::Column;
use std::alloc::Global;

/// A column of each of two relations, by the numbers of both.
#[derive(Clone, Copy, Drop)]
pub(crate) struct Link {
    pub(crate) from: usize,
    pub(crate) from_column: usize,
    pub(crate) to: usize,
    pub(crate) to_column: usize,
}

fn linked(one: (usize, usize), other: (usize, usize)) -> Link
    ensures { result ≡ link_of one other }
{
    Link {
        from: one.0,
        from_column: one.1,
        to: other.0,
        to_column: other.1,
    }
}

/// Returns the number of the relation that has a column of the product, and the column's place there.
fn column_at(relations: &[Relation], place: usize) -> Option<(usize, usize)>
    ensures { result ≡ located (widths_of relations.now) place }
{
    let mut rest = place;
    for i in 0..relations.len() {
        let width = relations[i].columns().len();
        if rest < width {
            return Some((i, rest));
        }
        rest -= width;
    }
    None
}

fn add_links(
    relations: &[Relation],
    equation: (usize, usize),
    links: &mut Vec<Link>,
) -> Result<(), Error>
    ensures ok { OnOk result
        (links.new.items ≡ links.old.items ++ links_between (widths_of relations.now) equation) }
    ensures kind { OnlyMemory result }
{
    let Some(one) = column_at(relations, equation.0) else {
        return Ok(());
    };
    let Some(other) = column_at(relations, equation.1) else {
        return Ok(());
    };
    links.push(linked(one, other))?;
    links.push(linked(other, one))?;
    Ok(())
}

/// Each equation of the condition gives a link both ways.
pub(crate) fn links_of(
    alloc: Global,
    relations: &[Relation],
    columns: &[Column],
    condition: Option<&Expr>,
) -> Result<Vec<Link>, Error>
    ensures ok { IfOk result (λ links. links.items
        ≡ links_wanted (widths_of relations.now) columns.now (option_copied condition.entry)) }
    ensures kind { OnlyMemory result }
{
    let mut links = Vec::new(alloc);
    if let Some(condition) = condition {
        let wanted = equations(alloc, condition, columns)?;
        for equation in &wanted {
            add_links(relations, *equation, &mut links)?;
        }
    }
    Ok(links)
}

fn is_joined(joined: &[bool], relation: usize) -> bool
    ensures { result ≡ slice_index_or joined.now relation false }
{
    joined.get(relation).copied().unwrap_or(false)
}

fn is_left(joined: &[bool], relation: usize) -> bool
    ensures { result ≡ not (slice_index_or joined.now relation true) }
{
    !joined.get(relation).copied().unwrap_or(true)
}

fn connects(joined: &[bool], link: Link) -> bool
    ensures { result ≡ connecting joined.now link }
{
    is_joined(joined, link.from) && is_left(joined, link.to)
}

/// Returns the first link from a relation that is joined to one that isn't.
pub(crate) fn next_link(links: &[Link], joined: &[bool]) -> Option<Link>
    ensures { result ≡ find (connecting joined.now) links.now }
{
    links.iter().copied().find(|link| connects(joined, *link))
}
