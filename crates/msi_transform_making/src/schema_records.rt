//! The records of `_Tables` and of `_Columns`.

ghost use Rattle.std.specs.Prelude.{◌≡◌, ◌++◌, IfOk, OnOk, map, take};
ghost use Rattle.std.specs.FinMap.{entries};
ghost use Rattle.std.specs.List.{flat_map};
ghost use Rattle.msi_base.specs.Results.{OnlyMemory};
ghost use Rattle.msi_database_changes.specs.Views.{seen_row};
ghost use Rattle.msi_database_schema.specs.System.{columns_name};
ghost use Rattle.msi_transform_making.specs.Making.{describing_record as record_describing};
ghost use Rattle.msi_transform_making.specs.Making.{listing_record as record_listing};
ghost use Rattle.msi_transform_making.specs.Making.{records_of_columns as column_records};
ghost use Rattle.msi_transform_making.specs.Making.{records_of_tables as table_records, told_rows as rows_told};
ghost use Rattle.msi_transform_making.specs.Making.{with_number_if as number_kept};
ghost use Rattle.msi_transform_pair.specs.Names.{names_in};
ghost use Rattle.msi_transform_making.specs.Telling.{action_of};

use crate::record::ToldRecord;
use crate::telling::Telling;
use msi_base::errors::Error;
use msi_database_changes::keys::Key;
use msi_table_values::parts::ValueView;
use msi_transform_pair::base::Base;
use msi_transform_pair::described::described_columns;
use msi_transform_pair::seen::{SeenValues, copied, key_with};
use msi_transform_pair::told::ToldRows;
use std::alloc::Global;

/// Returns a record of `_Tables`.
fn listing_record<'a>(
    alloc: Global,
    telling: Telling,
    name: &'a str,
) -> Result<ToldRecord<'a>, Error>
    ensures ok { IfOk result (λ told. told ≡ record_listing (action_of telling 1) name.now) }
    ensures kind { OnlyMemory result }
{
    let values = SeenValues::from_vec(Vec::from_array(alloc, [ValueView::Str(name)])?);
    let key = Key::of_values(Vec::from_array(alloc, [ValueView::Str(name)])?);
    Ok(ToldRecord::new(telling, values, key, None))
}

fn push_listings<'a>(
    alloc: Global,
    records: &mut Vec<ToldRecord<'a>>,
    telling: Telling,
    names: &[&'a str],
) -> Result<(), Error>
    ensures ok { OnOk result (records.new.items
        ≡ records.old.items ++ map (record_listing (action_of telling 1)) (names_in names.now)) }
    ensures kind { OnlyMemory result }
{
    for name in names {
        records.push(listing_record(alloc, telling, name)?)?;
    }
    Ok(())
}

/// Returns the records of `_Tables`.
///
/// # Errors
/// Fails with `OutOfMemory`.
pub(crate) fn records_of_tables<'a>(
    old: &Base<'a>,
    new: &Base<'a>,
) -> Result<Vec<ToldRecord<'a>>, Error>
    ensures ok { IfOk result (λ records.
        records.items ≡ table_records old.now.kept.database new.now.kept.database) }
    ensures kind { OnlyMemory result }
{
    let gone = old.names_beside(new)?;
    let added = new.names_beside(old)?;
    let mut records = Vec::new(new.alloc);
    push_listings(new.alloc, &mut records, Telling::Remove, gone.as_slice())?;
    push_listings(new.alloc, &mut records, Telling::Add, added.as_slice())?;
    Ok(records)
}

/// Returns a row of `_Columns` with its number, or with null in its place.
fn with_number_if<'a>(
    alloc: Global,
    is_kept: bool,
    row: &[ValueView<'a>],
) -> Result<SeenValues<'a>, Error>
    ensures ok { IfOk result (λ told. told ≡ number_kept is_kept (seen_row row.now)) }
    ensures kind { OnlyMemory result }
{
    if is_kept {
        return copied(alloc, row);
    }
    if row.len() < 2 {
        return copied(alloc, row);
    }
    let mut told = Vec::from_slice(alloc, row)?;
    told[1] = ValueView::Null;
    Ok(SeenValues::from_vec(told))
}

fn first_two<'a, 'b>(row: &'b [ValueView<'a>]) -> &'b [ValueView<'a>]
    ensures { result.now ≡ take 2 row.now }
{
    &row[..row.len().min(2)]
}

/// Returns a record of `_Columns`.
fn describing_record<'a>(
    alloc: Global,
    is_kept: bool,
    row: &Key<'a>,
) -> Result<ToldRecord<'a>, Error>
    ensures ok { IfOk result (λ told. told ≡ record_describing is_kept row.now) }
    ensures kind { OnlyMemory result }
{
    let values = with_number_if(alloc, is_kept, row.values())?;
    let key = key_with(alloc, first_two(row.values()))?;
    Ok(ToldRecord::new(Telling::Add, values, key, None))
}

fn push_describing<'a>(
    alloc: Global,
    records: &mut Vec<ToldRecord<'a>>,
    is_kept: bool,
    rows: &[Key<'a>],
) -> Result<(), Error>
    ensures ok { OnOk result (records.new.items
        ≡ records.old.items ++ map (record_describing is_kept) rows.now) }
    ensures kind { OnlyMemory result }
{
    for row in rows {
        records.push(describing_record(alloc, is_kept, row)?)?;
    }
    Ok(())
}

fn push_records_of_columns<'a>(
    old: &Base<'a>,
    new: &Base<'a>,
    described: &ToldRows<'a>,
    records: &mut Vec<ToldRecord<'a>>,
    name: &str,
) -> Result<(), Error>
    requires { entries described.now ≡ rows_told new.now.kept columns_name 0 }
    ensures ok { OnOk result (records.new.items
        ≡ records.old.items ++ column_records old.now.kept new.now.kept name.now) }
    ensures kind { OnlyMemory result }
{
    let rows = described_columns(new, described, name)?;
    let rows = rows.as_slice();
    let before = old.columns_of(name).len().min(rows.len());
    push_describing(new.alloc, records, old.has_table(name), &rows[before..])
}

/// Returns the records of `_Columns`.
///
/// # Errors
/// Fails with `OutOfMemory`.
pub(crate) fn records_of_columns<'a>(
    old: &Base<'a>,
    new: &Base<'a>,
    described: &ToldRows<'a>,
    names: &[&str],
) -> Result<Vec<ToldRecord<'a>>, Error>
    requires { entries described.now ≡ rows_told new.now.kept columns_name 0 }
    ensures ok { IfOk result (λ records.
        records.items ≡ flat_map (column_records old.now.kept new.now.kept) (names_in names.now)) }
    ensures kind { OnlyMemory result }
{
    let mut records = Vec::new(new.alloc);
    for name in names {
        push_records_of_columns(old, new, described, &mut records, name)?;
    }
    Ok(records)
}
