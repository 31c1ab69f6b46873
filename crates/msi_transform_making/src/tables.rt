//! The tables of which a transform tells, with their records.

ghost use Rattle.std.specs.Prelude.{◌≡◌, ◌∷◌, ◌++◌, [], IfOk, OnOk, false, filter, map};
ghost use Rattle.std.specs.FinMap.{entries};
ghost use Rattle.msi_base.specs.Results.{OnlyMemory};
ghost use Rattle.msi_database_schema.specs.System.{columns_columns as columns_of_columns, columns_name};
ghost use Rattle.msi_database_schema.specs.System.{tables_columns as columns_of_tables};
ghost use Rattle.msi_transform.specs.Transforms.{shapes_of as shapes_in};
ghost use Rattle.msi_transform_making.specs.LeftOut.{AreFit, AreTextsOf};
ghost use Rattle.msi_transform_making.specs.Making.{is_odd_table, is_told, is_unfit, told_rows as rows_told};
ghost use Rattle.msi_transform_making.specs.Making.{told_table as table_told, told_tables as tables_told};
ghost use Rattle.msi_transform_pair.specs.Names.{names_in};

use crate::differences::records_of_table;
use crate::record::ToldRecord;
use crate::same_texts::SameTexts;
use crate::schema_records::{records_of_columns, records_of_tables};
use msi_base::errors::Error;
use msi_base::text::Items;
use msi_database_schema::system::{COLUMNS, TABLES, columns_columns, tables_columns};
use msi_transform_pair::base::Base;
use msi_transform_pair::told::ToldRows;
use msi_transform_records::Shape;
use msi_transform_rows::table_change::shapes_of;
use std::alloc::Global;
use std::marker::Model;

/// A table of which a transform tells: its name, what its records need to know of its columns, and the records.
#[derive(Drop)]
pub(crate) struct ToldTable<'a> {
    name: &'a str,
    shapes: Items<Shape>,
    records: Vec<ToldRecord<'a>>,
}

impl<'a> Model for ToldTable<'a> {
    ghost use Rattle.msi_transform_making.specs.Making.{ToldTable as TableOf};

    ghost Value = { TableOf };

    ghost view = { λ t. record { name = t.name.now; shapes = t.shapes; records = t.records.items } };
}

impl<'a> ToldTable<'a> {
    pub(crate) fn new(
        name: &'a str,
        shapes: Items<Shape>,
        records: Vec<ToldRecord<'a>>,
    ) -> ToldTable<'a>
        ensures { result ≡ record { name = name.now; shapes = shapes; records = records.entry.items } }
    {
        ToldTable {
            name,
            shapes,
            records,
        }
    }

    pub(crate) fn name(&self) -> &'a str
        ensures { result.now ≡ self.now.name }
    {
        self.name
    }

    pub(crate) fn shapes(&self) -> &[Shape]
        ensures { result.now ≡ self.now.shapes }
    {
        self.shapes.as_slice()
    }

    pub(crate) fn records(&self) -> &[ToldRecord<'a>]
        ensures { result.now ≡ self.now.records }
    {
        self.records.as_slice()
    }
}

fn shapes_of_tables(alloc: Global) -> Result<Items<Shape>, Error>
    ensures ok { IfOk result (λ shapes. shapes ≡ shapes_in columns_of_tables) }
    ensures kind { OnlyMemory result }
{
    let columns = tables_columns(alloc)?;
    shapes_of(alloc, columns.as_slice())
}

fn shapes_of_columns(alloc: Global) -> Result<Items<Shape>, Error>
    ensures ok { IfOk result (λ shapes. shapes ≡ shapes_in columns_of_columns) }
    ensures kind { OnlyMemory result }
{
    let columns = columns_columns(alloc)?;
    shapes_of(alloc, columns.as_slice())
}

/// Adds a table, unless it has no records.
fn push_if_told<'a>(tables: &mut Vec<ToldTable<'a>>, table: ToldTable<'a>) -> Result<(), Error>
    ensures ok { OnOk result (tables.new.items ≡ tables.old.items ++ filter is_told (table.entry ∷ [])) }
    ensures kind { OnlyMemory result }
{
    if table.records().is_empty() {
        return Ok(());
    }
    tables.push(table)?;
    Ok(())
}

fn told_table<'a>(
    old: &Base<'a>,
    new: &Base<'a>,
    texts: &SameTexts,
    name: &'a str,
) -> Result<ToldTable<'a>, Error>
    requires texts { AreTextsOf old.now.kept new.now.kept texts.now }
    requires old_fit { is_unfit old.now.kept ≡ false }
    requires new_fit { is_odd_table new.now.kept name.now ≡ false }
    ensures ok { IfOk result (λ table. table ≡ table_told old.now.kept new.now.kept name.now) }
    ensures kind { OnlyMemory result }
{
    let records = records_of_table(old, new, texts, name)?;
    let shapes = shapes_of(new.alloc, new.columns_of(name))?;
    Ok(ToldTable::new(name, shapes, records))
}

fn push_told_tables<'a>(
    old: &Base<'a>,
    new: &Base<'a>,
    texts: &SameTexts,
    tables: &mut Vec<ToldTable<'a>>,
    names: &[&'a str],
) -> Result<(), Error>
    requires texts { AreTextsOf old.now.kept new.now.kept texts.now }
    requires old_fit { is_unfit old.now.kept ≡ false }
    requires new_fit { AreFit new.now.kept (names_in names.now) }
    ensures ok { OnOk result (tables.new.items ≡ tables.old.items
        ++ filter is_told (map (table_told old.now.kept new.now.kept) (names_in names.now))) }
    ensures kind { OnlyMemory result }
{
    for name in names {
        push_if_told(tables, told_table(old, new, texts, name)?)?;
    }
    Ok(())
}

/// Returns the tables of which a transform from one database to the other tells: `_Tables` and `_Columns` first, then
/// those of the new one.
///
/// # Errors
/// Fails with `OutOfMemory`.
pub(crate) fn told_tables<'a>(
    old: &Base<'a>,
    new: &Base<'a>,
    texts: &SameTexts,
    described: &ToldRows<'a>,
) -> Result<Vec<ToldTable<'a>>, Error>
    requires texts { AreTextsOf old.now.kept new.now.kept texts.now }
    requires old_fit { is_unfit old.now.kept ≡ false }
    requires new_fit { is_unfit new.now.kept ≡ false }
    requires described { entries described.now ≡ rows_told new.now.kept columns_name 0 }
    ensures ok { IfOk result (λ tables. tables.items ≡ tables_told old.now.kept new.now.kept) }
    ensures kind { OnlyMemory result }
{
    let names = new.told_names()?;
    let listed = records_of_tables(old, new)?;
    let described = records_of_columns(old, new, described, names.as_slice())?;
    let mut tables = Vec::new(new.alloc);
    let shapes = shapes_of_tables(new.alloc)?;
    push_if_told(&mut tables, ToldTable::new(TABLES, shapes, listed))?;
    let shapes = shapes_of_columns(new.alloc)?;
    push_if_told(&mut tables, ToldTable::new(COLUMNS, shapes, described))?;
    push_told_tables(old, new, texts, &mut tables, names.as_slice())?;
    Ok(tables)
}
