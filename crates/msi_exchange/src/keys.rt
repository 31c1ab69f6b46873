//! The third line of a text archive: the page, the table and its keys.

ghost use Rattle.std.specs.Prelude.{◌≡◌, ◌≤◌, ◌+◌, ◌∷◌, Some, map};
ghost use Rattle.msi_base.specs.declared.errors.ErrorKind.TheVariants.{InvalidData};
ghost use Rattle.msi_exchange.specs.Fields.{text_in};
ghost use Rattle.msi_exchange.specs.Lists.{each};
ghost use Rattle.msi_exchange.specs.Places.{Gives, Placed, at, first_wrong};
ghost use Rattle.msi_exchange.specs.Reading.{keys_in, keys_with as keys_with_in};
ghost use Rattle.msi_exchange.specs.WrongPlaces.{keys_wrong, name_wrong, table_number};

use crate::errors::{ArchiveError, Place};
use crate::fields::text_at;
use crate::reasons;
use crate::type_fields::u16_of;
use msi_base::errors::ErrorKind;
use msi_base::text::{Items, Text};
use std::alloc::Global;
use std::marker::Model;

/// What the third line says.
#[derive(Drop)]
pub(crate) struct KeysLine {
    pub(crate) page: Option<u16>,
    pub(crate) table: Text,
    pub(crate) keys: Items<Text>,
}

impl Model for KeysLine {
    ghost use Rattle.msi_exchange.specs.Archives.{KeysDef};

    ghost Value = { KeysDef };

    ghost view = { λ k. record { page = k.page; table = k.table; keys = k.keys } };
}

/// Returns the number of the field with the table's name, which is behind a page if there is one.
pub(crate) fn table_field(page: Option<u16>) -> usize
    ensures field { result ≡ table_number page }
    ensures low { result ≤ 2 }
{
    if page.is_some() { 2 } else { 1 }
}

/// Returns the names of the key columns that fields mean, which are behind `before` others.
fn names_of(alloc: Global, before: usize, fields: &[&str]) -> Result<Vec<Text>, ArchiveError>
    requires { before ≤ 2 }
    ensures value { Gives (λ names. names.items) result (each text_in (map (λ field. field.now) fields.now)) }
    ensures place { Placed result (first_wrong name_wrong (before + 1) (map (λ field. field.now) fields.now)) }
{
    let mut names = Vec::new(alloc);
    for i in 0..fields.len() {
        let place = Place {
            line: 3,
            field: before + i + 1,
        };
        let name = text_at(alloc, place, fields[i])?;
        names.push(name)?;
    }
    Ok(names)
}

#[tactic(auto, unfolding(crate::specs::Reading::keys_with))]
fn keys_with(
    alloc: Global,
    page: Option<u16>,
    table: &str,
    keys: &[&str],
) -> Result<KeysLine, ArchiveError>
    ensures value { Gives (λ line. line) result (keys_with_in page table.now (map (λ field. field.now) keys.now)) }
    ensures place { Placed result
        (first_wrong name_wrong (table_number page) (table.now ∷ map (λ field. field.now) keys.now)) }
{
    let field = table_field(page);
    let place = Place { line: 3, field };
    let table = text_at(alloc, place, table)?;
    let keys = names_of(alloc, field, keys)?;
    Ok(KeysLine {
        page,
        table,
        keys: Items::from_vec(keys),
    })
}

fn without_table(field: usize) -> ArchiveError
    ensures { result ≡ record { kind = InvalidData; place = Some (at 3 field) } }
{
    let place = Place { line: 3, field };
    ArchiveError::new(place, ErrorKind::InvalidData, reasons::TABLE_MISSING)
}

pub(crate) fn keys_of(alloc: Global, fields: &[&str]) -> Result<KeysLine, ArchiveError>
    ensures value { Gives (λ line. line) result (keys_in (map (λ field. field.now) fields.now)) }
    ensures place { Placed result (keys_wrong (map (λ field. field.now) fields.now)) }
{
    let Some((first, others)) = fields.split_first() else {
        return Err(without_table(1));
    };
    let Some(page) = u16_of(first) else {
        return keys_with(alloc, None, first, others);
    };
    match others.split_first() {
        Some((table, keys)) => keys_with(alloc, Some(page), table, keys),
        None => Err(without_table(2)),
    }
}
