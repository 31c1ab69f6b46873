//! Tables in a list, by their names.

ghost use Rattle.std.specs.Prelude.{◌≡◌, ◌≤◌, ◌++◌, IfOk, OnOk, is_some, length, option_copied};
ghost use Rattle.std.specs.List.{prefix_len};
ghost use Rattle.std.specs.Ordering.{is_lt};
ghost use Rattle.msi_base.specs.Lists.{list_cmp};
ghost use Rattle.msi_base.specs.Results.{OnlyMemory};
ghost use Rattle.msi_database_storage.specs.Kept.{table_kept_at, with_table_kept, without_table_kept};

use msi_base::errors::Error;
use msi_base::text::Items;
use msi_table::Table;
use std::alloc::Global;

/// Returns the table of this name among these.
pub fn table_named<'a>(tables: &'a [Table], name: &str) -> Option<&'a Table>
    ensures known { is_some result ≡ is_some (table_kept_at name.now tables.now) }
    ensures found { option_copied result ≡ table_kept_at name.now tables.now }
{
    for table in tables {
        if name == table.name() {
            return Some(table);
        }
    }
    None
}

fn is_before(table: &Table, name: &str) -> bool
    ensures { result ≡ is_lt (list_cmp table.now.name name.now) }
{
    table.name() < name
}

fn place_of(tables: &[Table], name: &str) -> usize
    ensures value { result ≡ prefix_len (λ t. is_lt (list_cmp t.name name.now)) tables.now }
    ensures within { result ≤ length tables.now }
{
    for (i, table) in tables.iter().enumerate() {
        if !is_before(table, name) {
            return i;
        }
    }
    tables.len()
}

fn push_copies(alloc: Global, copies: &mut Vec<Table>, tables: &[Table]) -> Result<(), Error>
    ensures ok { OnOk result (copies.new.items ≡ copies.old.items ++ tables.now) }
    ensures kind { OnlyMemory result }
{
    for table in tables {
        copies.push(table.clone(alloc)?)?;
    }
    Ok(())
}

/// Returns copies of the tables, with a new one in the order of their names.
///
/// # Errors
/// Fails with `OutOfMemory`.
pub fn copies_with(alloc: Global, tables: &[Table], new: Table) -> Result<Items<Table>, Error>
    ensures ok { IfOk result (λ copies. copies ≡ with_table_kept new tables.now) }
    ensures kind { OnlyMemory result }
{
    let (before, behind) = tables.split_at(place_of(tables, new.name()));
    let mut copies = Vec::new(alloc);
    push_copies(alloc, &mut copies, before)?;
    copies.push(new)?;
    push_copies(alloc, &mut copies, behind)?;
    Ok(Items::from_vec(copies))
}

/// Returns copies of the tables without the one of a name.
///
/// # Errors
/// Fails with `OutOfMemory`.
pub fn copies_without(alloc: Global, tables: &[Table], name: &str) -> Result<Items<Table>, Error>
    ensures ok { IfOk result (λ copies. copies ≡ without_table_kept name.now tables.now) }
    ensures kind { OnlyMemory result }
{
    let mut copies = Vec::new(alloc);
    for table in tables {
        if name != table.name() {
            copies.push(table.clone(alloc)?)?;
        }
    }
    Ok(Items::from_vec(copies))
}
