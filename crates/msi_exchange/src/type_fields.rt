//! Fields with the types of columns.

ghost use Rattle.std.specs.Prelude.{◌≡◌};
ghost use Rattle.msi_table_values.specs.Numerals.{u16_in};
ghost use Rattle.msi_base.specs.Results.{Gives};
ghost use Rattle.msi_exchange.specs.TypeFields.{number_type as number_type_of, stream_type as stream_type_of};
ghost use Rattle.msi_exchange.specs.TypeFields.{type_in, type_of_letter as type_of_letter_in, type_with};

use crate::reasons;
use msi_base::errors::{Error, ErrorKind};
use msi_table_values::column::ColumnType;
use std::marker::Model;

/// What a field says of a column.
#[derive(Drop)]
pub(crate) struct TypeField {
    pub(crate) coltype: ColumnType,
    pub(crate) is_localizable: bool,
    pub(crate) is_nullable: bool,
}

impl Model for TypeField {
    ghost use Rattle.msi_exchange.specs.Archives.{TypeDef};

    ghost Value = { TypeDef };

    ghost view = { λ t. record {
      coltype = t.coltype;
      is_localizable = t.is_localizable;
      is_nullable = t.is_nullable;
    } };
}

/// Returns the number below 2^16 that a text is, where a plus may be in front.
pub(crate) fn u16_of(text: &str) -> Option<u16>
    ensures { result ≡ u16_in text.now }
{
    match text.parse::<u16>() {
        Ok(number) => Some(number),
        Err(_) => None,
    }
}

fn number_type(width: u16) -> Option<ColumnType>
    ensures { result ≡ number_type_of width }
{
    match width {
        2 => Some(ColumnType::Int16),
        4 => Some(ColumnType::Int32),
        _ => None,
    }
}

fn stream_type(width: u16) -> Option<ColumnType>
    ensures { result ≡ stream_type_of width }
{
    if width == 0 {
        Some(ColumnType::Binary)
    } else {
        None
    }
}

/// Returns the type that a small letter and a width name, and whether its texts can be localized.
fn type_of_letter(letter: u8, width: u16) -> Option<(ColumnType, bool)>
    ensures { result ≡ type_of_letter_in letter width }
{
    match letter {
        b's' => Some((ColumnType::Str(width as usize), false)),
        b'l' => Some((ColumnType::Str(width as usize), true)),
        b'i' => match number_type(width) {
            Some(coltype) => Some((coltype, false)),
            None => None,
        },
        b'v' => match stream_type(width) {
            Some(coltype) => Some((coltype, false)),
            None => None,
        },
        _ => None,
    }
}

fn type_of_parts(letter: u8, width: u16) -> Option<TypeField>
    ensures { result ≡ type_with letter width }
{
    match type_of_letter(letter.to_ascii_lowercase(), width) {
        Some((coltype, is_localizable)) => Some(TypeField {
            coltype,
            is_localizable,
            is_nullable: letter.is_ascii_uppercase(),
        }),
        None => None,
    }
}

fn type_in_field(field: &str) -> Option<TypeField>
    ensures { result ≡ type_in field.now }
{
    let (letter, _) = field.as_bytes().split_first()?;
    if !letter.is_ascii() {
        return None;
    }
    let width = u16_of(&field[1..])?;
    type_of_parts(*letter, width)
}

pub(crate) fn type_of(field: &str) -> Result<TypeField, Error>
    ensures { Gives (λ type. type) result (type_in field.now) }
{
    match type_in_field(field) {
        Some(found) => Ok(found),
        None => Err(Error::new(ErrorKind::InvalidData, reasons::TYPE_FIELD)),
    }
}
