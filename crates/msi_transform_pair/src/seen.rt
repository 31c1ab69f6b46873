//! Values that are borrowed from where they lie, so that no text is copied.

ghost use Rattle.std.specs.Prelude.{◌≡◌, IfOk, length};
ghost use Rattle.msi_base.specs.Results.{OnlyMemory};
ghost use Rattle.msi_database_changes.specs.Views.{seen_row};
ghost use Rattle.msi_table_values.specs.Views.{seen_value};
ghost use Rattle.msi_database_schema.specs.Schema.{value_at};

use msi_base::errors::Error;
use msi_base::text::Items;
use msi_database_changes::keys::Key;
use msi_table_values::parts::ValueView;
use msi_table_values::value::Value;
use std::alloc::Global;
use std::marker::Model;

/// Values in order, borrowed from where they lie. A contract sees the values.
#[derive(Drop)]
pub struct SeenValues<'a> {
    values: Vec<ValueView<'a>>,
}

impl<'a> Model for SeenValues<'a> {
    ghost use Rattle.std.specs.Prelude.{List};
    ghost use Rattle.msi_table_values.specs.declared.value.Value.{Value as ValueOf};
    ghost use Rattle.msi_database_changes.specs.Views.{seen_row};

    ghost Value = { List ValueOf };

    ghost view = { λ s. seen_row s.values.items };
}

impl<'a> SeenValues<'a> {
    /// Returns these values.
    pub fn from_vec(values: Vec<ValueView<'a>>) -> SeenValues<'a>
        ensures { result ≡ seen_row values.entry.items }
    {
        SeenValues { values }
    }

    /// Returns the values, borrowed.
    pub fn as_slice(&self) -> &[ValueView<'a>]
        ensures { seen_row result.now ≡ self.now }
    {
        self.values.as_slice()
    }

    /// Returns the number of values.
    pub fn len(&self) -> usize
        ensures { result ≡ length self.now }
    {
        self.values.len()
    }

    /// Returns the value of a place: null where there is none.
    pub fn at(&self, place: usize) -> ValueView<'a>
        ensures { seen_value result ≡ value_at place self.now }
    {
        match self.values.get(place) {
            Some(value) => *value,
            None => ValueView::Null,
        }
    }

    /// Returns the same values once more.
    pub fn copy(&self, alloc: Global) -> Result<SeenValues<'a>, Error>
        ensures ok { IfOk result (λ copy. copy ≡ self.now) }
        ensures kind { OnlyMemory result }
    {
        copied(alloc, self.values.as_slice())
    }
}

/// Returns these values.
pub fn copied<'a>(alloc: Global, values: &[ValueView<'a>]) -> Result<SeenValues<'a>, Error>
    ensures ok { IfOk result (λ copy. copy ≡ seen_row values.now) }
    ensures kind { OnlyMemory result }
{
    Ok(SeenValues::from_vec(Vec::from_slice(alloc, values)?))
}

/// Returns the key of these values.
pub fn key_with<'a>(alloc: Global, values: &[ValueView<'a>]) -> Result<Key<'a>, Error>
    ensures ok { IfOk result (λ key. key ≡ seen_row values.now) }
    ensures kind { OnlyMemory result }
{
    Ok(Key::of_values(Vec::from_slice(alloc, values)?))
}

/// Returns the values, each with its own text.
pub fn owned(alloc: Global, values: &[ValueView]) -> Result<Items<Value>, Error>
    ensures ok { IfOk result (λ owned. owned ≡ seen_row values.now) }
    ensures kind { OnlyMemory result }
{
    let mut owned = Vec::with_capacity(alloc, values.len())?;
    for value in values {
        owned.push((*value).into_value(alloc)?)?;
    }
    Ok(Items::from_vec(owned))
}
