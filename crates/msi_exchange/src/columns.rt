//! The first two lines of a text archive: the columns and their types.

ghost use Rattle.std.specs.Prelude.{◌≡◌, map};
ghost use Rattle.msi_exchange.specs.Fields.{header_fields as header_fields_in};
ghost use Rattle.msi_exchange.specs.Lists.{each_pair};
ghost use Rattle.msi_exchange.specs.Places.{Gives, Placed, unless_read};
ghost use Rattle.msi_exchange.specs.Reading.{column_in, columns_in};
ghost use Rattle.msi_exchange.specs.TypeFields.{type_in};
ghost use Rattle.msi_exchange.specs.WrongPlaces.{column_wrong, columns_wrong};

use crate::archive::ArchiveColumn;
use crate::errors::{ArchiveError, Place, at, uneven};
use crate::fields::{header_fields, text_at};
use crate::reasons;
use crate::type_fields::{TypeField, type_of};
use msi_base::errors::ErrorKind;
use std::alloc::Global;

fn type_at(place: Place, field: &str) -> Result<TypeField, ArchiveError>
    ensures value { Gives (λ type. type) result (type_in field.now) }
    ensures place { Placed result (unless_read (type_in field.now) place) }
{
    at(place, type_of(field))
}

#[tactic(auto, unfolding(crate::specs::Reading::column_in))]
fn column_of(
    alloc: Global,
    number: usize,
    name: &str,
    field: &str,
) -> Result<ArchiveColumn, ArchiveError>
    ensures value { Gives (λ column. column) result (column_in name.now field.now) }
    ensures place { Placed result (column_wrong number name.now field.now) }
{
    let first = Place {
        line: 1,
        field: number,
    };
    let name = text_at(alloc, first, name)?;
    let second = Place {
        line: 2,
        field: number,
    };
    let found = type_at(second, field)?;
    Ok(ArchiveColumn::new(name, found.coltype, found.is_localizable, found.is_nullable))
}

fn columns_with(
    alloc: Global,
    names: &[&str],
    types: &[&str],
) -> Result<Vec<ArchiveColumn>, ArchiveError>
    ensures value { Gives (λ columns. columns.items) result
        (each_pair column_in (map (λ name. name.now) names.now) (map (λ type. type.now) types.now)) }
    ensures place { Placed result
        (columns_wrong (map (λ name. name.now) names.now) (map (λ type. type.now) types.now)) }
{
    if names.len() != types.len() {
        let place = uneven(2, names.len(), types.len());
        return Err(ArchiveError::new(place, ErrorKind::InvalidData, reasons::TYPES_OTHER));
    }
    let mut columns = Vec::new(alloc);
    for i in 0..names.len() {
        let column = column_of(alloc, i + 1, names[i], types[i])?;
        columns.push(column)?;
    }
    Ok(columns)
}

#[tactic(auto, unfolding(crate::specs::Reading::columns_in))]
pub(crate) fn columns_of(
    alloc: Global,
    names: &str,
    types: &str,
) -> Result<Vec<ArchiveColumn>, ArchiveError>
    ensures value { Gives (λ columns. columns.items) result (columns_in names.now types.now) }
    ensures place { Placed result (columns_wrong (header_fields_in names.now) (header_fields_in types.now)) }
{
    let names = header_fields(alloc, names)?;
    let types = header_fields(alloc, types)?;
    columns_with(alloc, names.as_slice(), types.as_slice())
}
