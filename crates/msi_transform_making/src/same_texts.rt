//! The texts of one pool that stand in another, too.

ghost use Rattle.std.specs.Prelude.{◌≡◌, ◌+◌, ◌<◌, ◌≤◌, IfOk, get_or, true};
ghost use Rattle.msi_base.specs.Results.{OnlyMemory};
ghost use Rattle.msi_pool.specs.FirstFitLaws.{text_at};
ghost use Rattle.msi_transform_making.specs.LeftOut.{AreSameTexts};

use msi_base::errors::Error;
use msi_pool::parts::{place_number, string_ref};
use msi_pool::stringpool::{StringPool, StringRef};
use std::alloc::Global;
use std::collections::BTreeMap;
use std::marker::Model;

/// How many places are looked at for a text before all others are: more than texts come or go one after another where
/// few rows differ.
const NEAR: u32 = 16;

/// The numbers that the texts of one pool have in another, where the same text was found there.
#[derive(Drop)]
pub(crate) struct SameTexts {
    numbers: Vec<u32>,
}

impl Model for SameTexts {
    ghost use Rattle.std.specs.Prelude.{ℕ, List};

    ghost Value = { List ℕ };

    ghost view = { λ t. t.numbers.items };
}

impl SameTexts {
    /// Finds the texts of the old pool in the new one. A text may be missed where it stands there twice.
    ///
    /// # Errors
    /// Fails with `OutOfMemory`.
    pub(crate) fn of_pools<'a>(
        alloc: Global,
        old: &'a StringPool,
        new: &'a StringPool,
    ) -> Result<SameTexts, Error>
        ensures ok { IfOk result (λ texts. AreSameTexts old.now.places new.now.places texts) }
        ensures kind { OnlyMemory result }
    {
        let near = numbers_near(alloc, old, new)?;
        let missing = texts_missing(alloc, new, near.as_slice())?;
        let numbers = numbers_anywhere(alloc, old, new, near.as_slice(), &missing)?;
        Ok(SameTexts { numbers })
    }

    /// Returns the number of a text in the other pool, or 0 where none was found.
    pub(crate) fn number_of(&self, reference: StringRef) -> u32
        ensures { result ≡ get_or self.now reference 0 }
    {
        number_at(self.numbers.as_slice(), place_number(reference))
    }
}

fn number_at(numbers: &[u32], number: u32) -> u32
    ensures { result ≡ get_or numbers.now number 0 }
{
    match numbers.get(number as usize) {
        Some(other) => *other,
        None => 0,
    }
}

/// Returns whether a text of one pool is that of another. Numbers begin with 1.
fn is_same(old: &StringPool, new: &StringPool, number: u32, other: u32) -> bool
    requires least { 1 ≤ number }
    requires most { number ≤ 16777215 }
    ensures { result ≡ true → text_at old.now.places number ≡ text_at new.now.places other }
{
    if other == 0 || other > new.num_strings() {
        return false;
    }
    old.get(string_ref(number)) == new.get(string_ref(other))
}

/// Returns the number of the same text among the next from one on, or 0.
fn number_from(old: &StringPool, new: &StringPool, number: u32, from: u32) -> u32
    requires least { 1 ≤ number }
    requires most { number ≤ 16777215 }
    ensures { 0 < result → text_at old.now.places number ≡ text_at new.now.places result }
{
    for other in from..from.saturating_add(NEAR) {
        if is_same(old, new, number, other) {
            return other;
        }
    }
    0
}

fn number_near(old: &StringPool, new: &StringPool, number: u32, from: u32) -> u32
    requires least { 1 ≤ number }
    requires most { number ≤ 16777215 }
    ensures { 0 < result → text_at old.now.places number ≡ text_at new.now.places result }
{
    if is_same(old, new, number, number) {
        return number;
    }
    number_from(old, new, number, from)
}

/// Finds each text at its own number, or soon after where the one before was found.
fn numbers_near(alloc: Global, old: &StringPool, new: &StringPool) -> Result<Vec<u32>, Error>
    ensures ok { IfOk result (λ numbers. AreSameTexts old.now.places new.now.places numbers.items) }
    ensures kind { OnlyMemory result }
{
    let mut numbers = Vec::from_array(alloc, [0])?;
    let mut from = 1;
    for at in 0..old.num_strings() {
        let other = number_near(old, new, at + 1, from);
        if other > 0 {
            from = other.saturating_add(1);
        }
        numbers.push(other)?;
    }
    Ok(numbers)
}

/// Returns for each number of a pool, from 0 on, whether it is among these.
fn found(alloc: Global, pool: &StringPool, numbers: &[u32]) -> Result<Vec<bool>, Error>
    ensures { OnlyMemory result }
{
    let mut found = Vec::from_elem(alloc, false, pool.num_strings() as usize + 1)?;
    for number in numbers {
        let at = *number as usize;
        if at < found.len() {
            found[at] = true;
        }
    }
    Ok(found)
}

/// Returns the numbers of the texts of a pool that aren't among these.
fn texts_missing<'a>(
    alloc: Global,
    pool: &'a StringPool,
    numbers: &[u32],
) -> Result<BTreeMap<&'a str, u32>, Error>
    ensures { OnlyMemory result }
{
    let found = found(alloc, pool, numbers)?;
    let mut missing = BTreeMap::new(alloc);
    for at in 0..pool.num_strings() {
        if found.get(at as usize + 1) == Some(&true) {
            continue;
        }
        missing.insert(pool.get(string_ref(at + 1)), at + 1)?;
    }
    Ok(missing)
}

fn number_missing<'a>(
    old: &'a StringPool,
    new: &StringPool,
    missing: &BTreeMap<&'a str, u32>,
    number: u32,
) -> u32
    requires least { 1 ≤ number }
    requires most { number ≤ 16777215 }
    ensures { 0 < result → text_at old.now.places number ≡ text_at new.now.places result }
{
    let Some(other) = missing.get(&old.get(string_ref(number))) else {
        return 0;
    };
    if is_same(old, new, number, *other) {
        *other
    } else {
        0
    }
}

/// Returns the number that was found near, and else one of the missing.
fn number_anywhere<'a>(
    old: &'a StringPool,
    new: &StringPool,
    near: &[u32],
    missing: &BTreeMap<&'a str, u32>,
    number: u32,
) -> u32
    requires least { 1 ≤ number }
    requires most { number ≤ 16777215 }
    requires near { AreSameTexts old.now.places new.now.places near.now }
    ensures { 0 < result → text_at old.now.places number ≡ text_at new.now.places result }
{
    let other = number_at(near, number);
    if other > 0 {
        return other;
    }
    number_missing(old, new, missing, number)
}

fn numbers_anywhere<'a>(
    alloc: Global,
    old: &'a StringPool,
    new: &StringPool,
    near: &[u32],
    missing: &BTreeMap<&'a str, u32>,
) -> Result<Vec<u32>, Error>
    requires { AreSameTexts old.now.places new.now.places near.now }
    ensures ok { IfOk result (λ numbers. AreSameTexts old.now.places new.now.places numbers.items) }
    ensures kind { OnlyMemory result }
{
    let mut numbers = Vec::from_array(alloc, [0])?;
    for at in 0..old.num_strings() {
        numbers.push(number_anywhere(old, new, near, missing, at + 1))?;
    }
    Ok(numbers)
}
