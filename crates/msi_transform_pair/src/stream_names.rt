//! Whether the streams of rows have names of their own.

ghost use Rattle.std.specs.Prelude.{◌≡◌, ◌∷◌, ◌++◌, [], IfOk, OnOk, filter, map};
ghost use Rattle.std.specs.FinMap.{entries};
ghost use Rattle.std.specs.List.{flat_map};
ghost use Rattle.msi_base.specs.Results.{OnlyMemory};
ghost use Rattle.msi_table_values.specs.declared.value.Value.TheVariants.{Str};
ghost use Rattle.msi_transform_pair.specs.Pair.{gone_streams, is_row_gone, pair_of};
ghost use Rattle.msi_transform_pair.specs.Pair.{shared_among, shares_stream as is_stream_shared};
ghost use Rattle.msi_transform_pair.specs.Pair.{stream_texts, streams_in};
ghost use Rattle.msi_transform_pair.specs.Names.{names_in};
ghost use Rattle.msi_transform_rows.specs.RowStreams.{stream_text as name_of_stream};

use crate::base::Base;
use crate::reading::told_rows;
use crate::told::{ToldRow, ToldRows};
use msi_base::errors::Error;
use msi_base::text::Text;
use msi_database_changes::keys::{Key, distinct_keys};
use msi_table_values::parts::ValueView;
use msi_transform_rows::row_streams::{has_streams, stream_text};
use std::alloc::Global;

fn stream_name(alloc: Global, table: &str, key: &Key) -> Result<Text, Error>
    ensures ok { IfOk result (λ text. text ≡ name_of_stream table.now key.now) }
    ensures kind { OnlyMemory result }
{
    Ok(Text::from_string(stream_text(alloc, table, key.values())?))
}

/// Adds the text that names a row's stream, if it has one.
fn push_stream_text(
    alloc: Global,
    texts: &mut Vec<Text>,
    table: &str,
    key: &Key,
    row: &ToldRow,
) -> Result<(), Error>
    ensures ok { OnOk result (texts.new.items
        ≡ texts.old.items ++ stream_texts table.now (key.now, row.now)) }
    ensures kind { OnlyMemory result }
{
    if row.stream().is_some() {
        texts.push(stream_name(alloc, table, key)?)?;
    }
    Ok(())
}

fn push_streams_of<'a>(
    alloc: Global,
    texts: &mut Vec<Text>,
    table: &str,
    rows: &ToldRows<'a>,
) -> Result<(), Error>
    ensures ok { OnOk result (texts.new.items
        ≡ texts.old.items ++ flat_map (stream_texts table.now) (entries rows.now)) }
    ensures kind { OnlyMemory result }
{
    for (key, row) in rows.iter() {
        push_stream_text(alloc, texts, table, key, row)?;
    }
    Ok(())
}

/// Adds those of all rows that others lack.
fn push_streams_beside<'a>(
    alloc: Global,
    texts: &mut Vec<Text>,
    table: &str,
    rows: &ToldRows<'a>,
    others: &ToldRows<'a>,
) -> Result<(), Error>
    ensures ok { let gone = filter (is_row_gone (entries others.now)) (entries rows.now) in
        OnOk result (texts.new.items ≡ texts.old.items ++ map (λ e. name_of_stream table.now e.0) gone) }
    ensures kind { OnlyMemory result }
{
    for (key, _) in rows.iter() {
        if others.get(key).is_some() {
            continue;
        }
        texts.push(stream_name(alloc, table, key)?)?;
    }
    Ok(())
}

fn push_streams_in(base: &Base, texts: &mut Vec<Text>, table: &str) -> Result<(), Error>
    ensures ok { OnOk result (texts.new.items
        ≡ texts.old.items ++ streams_in base.now.kept table.now) }
    ensures kind { OnlyMemory result }
{
    if !has_streams(base.columns_of(table)) {
        return Ok(());
    }
    let rows = told_rows(base, table, 0)?;
    push_streams_of(base.alloc, texts, table, &rows)
}

fn push_gone_streams<'a>(
    old: &Base<'a>,
    new: &Base<'a>,
    texts: &mut Vec<Text>,
    table: &str,
) -> Result<(), Error>
    ensures ok { OnOk result (texts.new.items
        ≡ texts.old.items ++ gone_streams old.now.kept new.now.kept table.now) }
    ensures kind { OnlyMemory result }
{
    if !has_streams(old.columns_of(table)) && !has_streams(new.columns_of(table)) {
        return Ok(());
    }
    let rows = told_rows(old, table, 0)?;
    let others = told_rows(new, table, 0)?;
    push_streams_beside(old.alloc, texts, table, &rows, &others)
}

fn push_all_streams(base: &Base, texts: &mut Vec<Text>, tables: &[&str]) -> Result<(), Error>
    ensures ok { OnOk result (texts.new.items
        ≡ texts.old.items ++ flat_map (streams_in base.now.kept) (names_in tables.now)) }
    ensures kind { OnlyMemory result }
{
    for table in tables {
        push_streams_in(base, texts, table)?;
    }
    Ok(())
}

fn push_all_gone_streams<'a>(
    old: &Base<'a>,
    new: &Base<'a>,
    texts: &mut Vec<Text>,
    tables: &[&str],
) -> Result<(), Error>
    ensures ok { OnOk result (texts.new.items
        ≡ texts.old.items ++ flat_map (gone_streams old.now.kept new.now.kept) (names_in tables.now)) }
    ensures kind { OnlyMemory result }
{
    for table in tables {
        push_gone_streams(old, new, texts, table)?;
    }
    Ok(())
}

fn keys_of_texts<'a>(alloc: Global, texts: &'a [Text]) -> Result<Vec<Key<'a>>, Error>
    ensures ok { IfOk result (λ keys. keys.items ≡ map (λ text. Str text ∷ []) texts.now) }
    ensures kind { OnlyMemory result }
{
    let mut keys = Vec::with_capacity(alloc, texts.len())?;
    for text in texts {
        let values = Vec::from_array(alloc, [ValueView::Str(text.as_str())])?;
        keys.push(Key::of_values(values))?;
    }
    Ok(keys)
}

fn has_text_twice(alloc: Global, texts: &[Text]) -> Result<bool, Error>
    ensures ok { IfOk result (λ twice. twice ≡ shared_among texts.now) }
    ensures kind { OnlyMemory result }
{
    let keys = keys_of_texts(alloc, texts)?;
    Ok(distinct_keys(alloc, keys)?.is_none())
}

/// Returns whether two streams of rows have one name: of the rows of the new database that have one, and of the rows of
/// the old one that the new one lacks. It costs the rows of tables with columns of streams times a logarithm.
///
/// # Errors
/// Fails with `OutOfMemory`.
pub(crate) fn shares_stream<'a>(old: &Base<'a>, new: &Base<'a>) -> Result<bool, Error>
    ensures ok { IfOk result (λ shared. shared ≡ is_stream_shared (pair_of old.now new.now)) }
    ensures kind { OnlyMemory result }
{
    let mut texts = Vec::new(new.alloc);
    let tables = new.told_names()?;
    push_all_streams(new, &mut texts, tables.as_slice())?;
    let tables = old.told_names()?;
    push_all_gone_streams(old, new, &mut texts, tables.as_slice())?;
    has_text_twice(new.alloc, texts.as_slice())
}
