//! Combinations of rows, by their numbers: one of each relation, found one relation after the other.

ghost use Rattle.std.specs.Prelude.{◌≡◌, ◌==◌, ◌++◌, [], ◌∷◌, IfOk, None, OnOk, Some, filter};
ghost use Rattle.std.specs.Prelude.{length, map, not, replicate, slice_set};
ghost use Rattle.std.specs.List.{flat_map, list_all, position};
ghost use Rattle.msi_base.specs.Lists.{stable_sort};
ghost use Rattle.msi_base.specs.Results.{OnlyMemory};
ghost use Rattle.msi_table_cells.specs.CellValues.{value_of_cell};
ghost use Rattle.msi_query_rows.specs.Combinations.{combination_cmp, combinations, if_whole, is_kept, rows_of_each};
ghost use Rattle.msi_query_rows.specs.Combinations.{value_combined, with_each};
ghost use Rattle.msi_query_rows.specs.Links.{AreImplied, numbers_for, relation_of};

use crate::links::{Link, next_link};
use crate::numbers::{all_numbers, cell_in, numbers_by_value, numbers_with};
use crate::product::{Product, is_met, number_of, rows_of};
use msi_base::errors::Error;
use msi_base::text::Items;
use msi_table_cells::cell::ValueRef;
use std::alloc::Global;
use std::cmp::Ordering;

fn with_number(
    alloc: Global,
    combination: &[usize],
    relation: usize,
    number: usize,
) -> Result<Items<usize>, Error>
    ensures ok { IfOk result (λ more. more ≡ slice_set combination.now relation number) }
    ensures kind { OnlyMemory result }
{
    let mut numbers = combination.to_vec(alloc)?;
    if relation < numbers.len() {
        numbers[relation] = number;
    }
    Ok(Items::from_vec(numbers))
}

/// A combination whose numbers are all chosen has to meet the condition.
fn is_wanted(
    alloc: Global,
    product: &Product,
    is_whole: bool,
    combination: &[usize],
) -> Result<bool, Error>
    ensures ok { let rows = rows_of_each product.now.relations.now in
        let test = is_kept product.now.pool.now.places product.now.filter.now rows in
        IfOk result (λ wanted. wanted ≡ if_whole is_whole test combination.now) }
    ensures kind { OnlyMemory result }
{
    if !is_whole {
        return Ok(true);
    }
    is_met(alloc, product, combination)
}

/// Adds a combination with each of these numbers for a relation. With the last relation, those that don't meet the
/// condition are left out at once.
fn add_each(
    alloc: Global,
    product: &Product,
    relation: usize,
    is_whole: bool,
    combination: &[usize],
    numbers: &[usize],
    found: &mut Vec<Items<usize>>,
) -> Result<(), Error>
    ensures ok { let rows = rows_of_each product.now.relations.now in
        let test = is_kept product.now.pool.now.places product.now.filter.now rows in
        OnOk result (found.new.items ≡ found.old.items
        ++ with_each (if_whole is_whole test) relation numbers.now combination.now) }
    ensures kind { OnlyMemory result }
{
    for number in numbers {
        let more = with_number(alloc, combination, relation, *number)?;
        if is_wanted(alloc, product, is_whole, more.as_slice())? {
            found.push(more)?;
        }
    }
    Ok(())
}

fn with_all(
    alloc: Global,
    product: &Product,
    relation: usize,
    is_whole: bool,
    found: &[Items<usize>],
) -> Result<Vec<Items<usize>>, Error>
    ensures ok { let rows = rows_of_each product.now.relations.now in
        let test = is_kept product.now.pool.now.places product.now.filter.now rows in
        IfOk result (λ more. more.items ≡ flat_map (λ numbers. with_each (if_whole is_whole test) relation
        (numbers_for product.now.pool.now.places rows relation None numbers) numbers) found.now) }
    ensures kind { OnlyMemory result }
{
    let numbers = all_numbers(alloc, rows_of(product.relations, relation))?;
    let mut more = Vec::new(alloc);
    for combination in found {
        let combination = combination.as_slice();
        add_each(
            alloc,
            product,
            relation,
            is_whole,
            combination,
            numbers.as_slice(),
            &mut more,
        )?;
    }
    Ok(more)
}

/// Returns the cell that a link leads from in the row of a combination.
fn linked_cell(product: &Product, link: Link, combination: &[usize]) -> ValueRef
    ensures { let places = product.now.pool.now.places in let rows = rows_of_each product.now.relations.now in
        value_of_cell places result ≡ value_combined places rows combination.now link.from link.from_column }
{
    let rows = rows_of(product.relations, link.from);
    cell_in(rows, number_of(combination, link.from), link.from_column)
}

/// The relation's rows are sorted by the link's column and looked up.
fn with_linked(
    alloc: Global,
    product: &Product,
    link: Link,
    is_whole: bool,
    found: &[Items<usize>],
) -> Result<Vec<Items<usize>>, Error>
    ensures ok { let rows = rows_of_each product.now.relations.now in
        let test = is_kept product.now.pool.now.places product.now.filter.now rows in
        IfOk result (λ more. more.items ≡ flat_map (λ numbers. with_each (if_whole is_whole test) link.to
        (numbers_for product.now.pool.now.places rows link.to (Some link) numbers) numbers) found.now) }
    ensures kind { OnlyMemory result }
{
    let rows = rows_of(product.relations, link.to);
    let sorted = numbers_by_value(alloc, product.pool, rows, link.to_column)?;
    let mut more = Vec::new(alloc);
    for combination in found {
        let combination = combination.as_slice();
        let cell = linked_cell(product, link, combination);
        let numbers = numbers_with(product.pool, rows, link.to_column, sorted.as_slice(), cell);
        add_each(
            alloc,
            product,
            link.to,
            is_whole,
            combination,
            numbers,
            &mut more,
        )?;
    }
    Ok(more)
}

/// With the relation of the link, if one is given.
fn extended(
    alloc: Global,
    product: &Product,
    relation: usize,
    link: Option<Link>,
    is_whole: bool,
    found: &[Items<usize>],
) -> Result<Vec<Items<usize>>, Error>
    ensures ok { let rows = rows_of_each product.now.relations.now in
        let test = is_kept product.now.pool.now.places product.now.filter.now rows in
        IfOk result (λ more. more.items
        ≡ flat_map (λ numbers. with_each (if_whole is_whole test) (relation_of link relation)
        (numbers_for product.now.pool.now.places rows (relation_of link relation) link numbers) numbers) found.now) }
    ensures kind { OnlyMemory result }
{
    match link {
        Some(link) => with_linked(alloc, product, link, is_whole, found),
        None => with_all(alloc, product, relation, is_whole, found),
    }
}

fn relation_next(link: Option<Link>, left: usize) -> usize
    ensures { result ≡ relation_of link left }
{
    match link {
        Some(link) => link.to,
        None => left,
    }
}

fn first_left(joined: &[bool]) -> Option<usize>
    ensures { result ≡ position not joined.now }
{
    joined.iter().position(|joined| !*joined)
}

fn are_joined(joined: &[bool]) -> bool
    ensures { result ≡ list_all (λ j. j) joined.now }
{
    joined.iter().all(|joined| *joined)
}

/// Of no relation. It is only kept where the product of none is.
fn first_combinations(alloc: Global, product: &Product) -> Result<Vec<Items<usize>>, Error>
    ensures ok { let rows = rows_of_each product.now.relations.now in
        let test = is_kept product.now.pool.now.places product.now.filter.now rows in
        let count = length product.now.relations.now in
        IfOk result (λ found. found.items ≡ filter (if_whole (count == 0) test) (replicate count 0 ∷ [])) }
    ensures kind { OnlyMemory result }
{
    let numbers = vec![in alloc; 0; product.relations.len()]?;
    let mut found = Vec::new(alloc);
    if is_wanted(
        alloc,
        product,
        product.relations.is_empty(),
        numbers.as_slice(),
    )? {
        found.push(Items::from_vec(numbers))?;
    }
    Ok(found)
}

/// Returns combinations that meet the condition, in any order. Next comes a relation that a link leads to, if there is
/// one, and else the first that is left.
fn found_combinations(
    alloc: Global,
    product: &Product,
    links: &[Link],
) -> Result<Vec<Items<usize>>, Error>
    requires { let rows = rows_of_each product.now.relations.now in
        AreImplied product.now.pool.now.places product.now.filter.now rows links.now }
    ensures ok { let rows = rows_of_each product.now.relations.now in
        let test = is_kept product.now.pool.now.places product.now.filter.now rows in
        IfOk result (λ found. stable_sort combination_cmp found.items ≡ filter test (combinations (map length rows))) }
    ensures kind { OnlyMemory result }
{
    let mut joined = vec![in alloc; false; product.relations.len()]?;
    let mut found = first_combinations(alloc, product)?;
    while let Some(left) = first_left(joined.as_slice()) {
        let link = next_link(links, joined.as_slice());
        let relation = relation_next(link, left);
        joined[relation] = true;
        let is_whole = are_joined(joined.as_slice());
        found = extended(alloc, product, left, link, is_whole, found.as_slice())?;
    }
    Ok(found)
}

fn compare_combinations(one: &[usize], other: &[usize]) -> Ordering
    ensures { result ≡ combination_cmp one.now other.now }
{
    one.iter().rev().cmp(other.iter().rev())
}

/// Returns the combinations that meet the condition, the first number varying fastest.
pub(crate) fn kept_combinations(
    alloc: Global,
    product: &Product,
    links: &[Link],
) -> Result<Vec<Items<usize>>, Error>
    requires { let rows = rows_of_each product.now.relations.now in
        AreImplied product.now.pool.now.places product.now.filter.now rows links.now }
    ensures ok { let rows = rows_of_each product.now.relations.now in
        let test = is_kept product.now.pool.now.places product.now.filter.now rows in
        IfOk result (λ found. found.items ≡ filter test (combinations (map length rows))) }
    ensures kind { OnlyMemory result }
{
    let mut found = found_combinations(alloc, product, links)?;
    found.sort_by(|one, other| compare_combinations(one.as_slice(), other.as_slice()))?;
    Ok(found)
}
