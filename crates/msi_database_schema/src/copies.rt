//! Texts of a pool's places, copied once for all the columns that they describe.

ghost use Rattle.std.specs.Prelude.{◌≡◌, ◌==◌, ℕ, Contains, IfOk, IfSome, map};
ghost use Rattle.std.specs.List.{slice_split};
ghost use Rattle.std.specs.List.Sorted.{IsStrictlyIncreasing};
ghost use Rattle.msi_base.specs.Results.{OnlyMemory};
ghost use Rattle.msi_pool.specs.FirstFitLaws.{text_at};
ghost use Rattle.msi_database_schema.specs.Copies.{list_copy, parted, text_copy};

use msi_base::errors::Error;
use msi_base::shared_text::SharedText;
use msi_base::text::Items;
use msi_pool::stringpool::{StringPool, StringRef};
use msi_table_cells::cell::ValueRef;
use msi_table_values::parts::{SharedTexts, copied_list};
use std::alloc::{AllocError, Global};
use std::marker::Model;

/// A pool, with copies of the texts that describe columns: one of each place, whichever columns name it. A contract
/// sees the pool's places.
#[derive(Drop)]
pub(crate) struct Copies<'a> {
    alloc: Global,
    pool: &'a StringPool,
    texts: Vec<(StringRef, SharedText)>,
    lists: Vec<(StringRef, SharedTexts)>,
}

impl<'a> Model for Copies<'a> {
    ghost use Rattle.std.specs.Prelude.{All, List};
    ghost use Rattle.msi_pool.specs.Pool as pools;
    ghost use Rattle.msi_database_schema.specs.Copies.{IsListCopy, IsTextCopy};

    ghost Value = { List pools.Place };

    ghost view = { λ c. c.pool.now.places };

    ghost invariant = { λ c. All (IsTextCopy c.pool.now.places) c.texts.items
        × All (IsListCopy c.pool.now.places) c.lists.items };
}

impl<'a> Copies<'a> {
    pub(crate) fn none(alloc: Global, pool: &'a StringPool) -> Copies<'a>
        ensures { result ≡ pool.now.places }
    {
        Copies {
            alloc,
            pool,
            texts: Vec::new(alloc),
            lists: Vec::new(alloc),
        }
    }

    /// Copies the texts that rows of `_Columns` and `_Validation` describe columns with: their names, the tables that
    /// they refer to, and the texts that they take.
    pub(crate) fn of(
        alloc: Global,
        pool: &'a StringPool,
        columns: &[Items<ValueRef>],
        validation: &[Items<ValueRef>],
    ) -> Result<Copies<'a>, Error>
        ensures ok { IfOk result (λ copies. copies ≡ pool.now.places) }
        ensures kind { OnlyMemory result }
    {
        let mut texts = Vec::new(alloc);
        put_references(columns, 2, &mut texts)?;
        put_references(validation, 5, &mut texts)?;
        let mut lists = Vec::new(alloc);
        put_references(validation, 8, &mut lists)?;
        Ok(Copies {
            alloc,
            pool,
            texts: copied_texts(alloc, pool, each_once(texts)?.as_slice())?,
            lists: copied_lists(alloc, pool, each_once(lists)?.as_slice())?,
        })
    }

    pub(crate) fn pool(&self) -> &'a StringPool
        ensures { result.now.places ≡ self.now }
    {
        self.pool
    }

    pub(crate) fn text(&self, reference: StringRef) -> Result<SharedText, Error>
        ensures ok { IfOk result (λ text. text ≡ text_at self.now reference) }
        ensures kind { OnlyMemory result }
    {
        match copy_of(self.texts.as_slice(), reference) {
            Some(text) => text.clone(),
            None => SharedText::from_str(self.alloc, self.pool.get(reference)),
        }
    }

    /// Returns the texts between each two semicolons, which are shared if they have a copy.
    pub(crate) fn list(&self, reference: StringRef) -> Result<SharedTexts, Error>
        ensures ok { IfOk result (λ texts. texts ≡ parted (text_at self.now reference)) }
        ensures kind { OnlyMemory result }
    {
        match copy_of(self.lists.as_slice(), reference) {
            Some(texts) => texts.clone(),
            None => parts_of(self.alloc, self.pool.get(reference)),
        }
    }
}

fn put_references(
    rows: &[Items<ValueRef>],
    column: usize,
    references: &mut Vec<StringRef>,
) -> Result<(), Error>
    ensures { OnlyMemory result }
{
    for row in rows {
        if let Some(ValueRef::Str(reference)) = row.as_slice().get(column) {
            references.push(*reference)?;
        }
    }
    Ok(())
}

fn each_once(references: Vec<StringRef>) -> Result<Vec<StringRef>, Error>
    ensures rises { IfOk result (λ once. IsStrictlyIncreasing once.items) }
    ensures keeps { IfOk result (λ once. (x : ℕ) → Contains references.items x → Contains once.items x) }
    ensures adds_none { IfOk result (λ once. (x : ℕ) → Contains once.items x → Contains references.items x) }
    ensures kind { OnlyMemory result }
{
    let mut references = references;
    references.sort()?;
    references.dedup();
    Ok(references)
}

fn copied_texts(
    alloc: Global,
    pool: &StringPool,
    references: &[StringRef],
) -> Result<Vec<(StringRef, SharedText)>, Error>
    ensures ok { IfOk result (λ copies. copies.items ≡ map (text_copy pool.now.places) references.now) }
    ensures kind { OnlyMemory result }
{
    let mut copies = Vec::with_capacity(alloc, references.len())?;
    for reference in references {
        let text = SharedText::from_str(alloc, pool.get(*reference))?;
        copies.push((*reference, text))?;
    }
    Ok(copies)
}

fn copied_lists(
    alloc: Global,
    pool: &StringPool,
    references: &[StringRef],
) -> Result<Vec<(StringRef, SharedTexts)>, Error>
    ensures ok { IfOk result (λ copies. copies.items ≡ map (list_copy pool.now.places) references.now) }
    ensures kind { OnlyMemory result }
{
    let mut copies = Vec::with_capacity(alloc, references.len())?;
    for reference in references {
        let texts = parts_of(alloc, pool.get(*reference))?;
        copies.push((*reference, texts))?;
    }
    Ok(copies)
}

/// Splits a text at its semicolons.
fn pieces<'a>(alloc: Global, text: &'a str) -> Result<Vec<&'a str>, AllocError>
    ensures { IfOk result (λ pieces. map (λ piece. piece.now) pieces.items ≡ slice_split (λ c. c == 59) text.now) }
{
    text.split(';').collect(alloc)
}

fn parts_of(alloc: Global, text: &str) -> Result<SharedTexts, Error>
    ensures ok { IfOk result (λ texts. texts ≡ parted text.now) }
    ensures kind { OnlyMemory result }
{
    let pieces = pieces(alloc, text)?;
    SharedTexts::from_items(copied_list(alloc, pieces.as_slice())?)
}

/// The copies are in the order of their numbers.
fn copy_of<T>(copies: &[(StringRef, T)], reference: StringRef) -> Option<&T>
    ensures { IfSome result (λ copy. Contains copies.now (reference, copy.now)) }
{
    let at = copies.partition_point(|copy| copy.0 < reference);
    match copies.get(at) {
        Some(copy) if copy.0 == reference => Some(&copy.1),
        _ => None,
    }
}
