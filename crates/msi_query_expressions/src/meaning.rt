//! Which column a name means, where tables' names may be in front of it.

ghost use Rattle.std.specs.Prelude.{◌≡◌, ◌++◌, ◌∷◌, bytes_eq, filter, option_copied};
ghost use Rattle.std.specs.List.{list_any};
ghost use Rattle.msi_query_expressions.specs.Meaning.{is_behind_dot as ends_in_name, is_called as called_so};
ghost use Rattle.msi_query_expressions.specs.Meaning.{meant, only};

use msi_table_values::column::Column;
use msi_table_values::parts::has_column;

fn is_behind_dot(name: &[u8], mut text: &[u8]) -> bool
    ensures { result ≡ ends_in_name name.now text.entry.now }
{
    while let [byte, rest @ ..] = text {
        if *byte == b'.' && rest == name {
            return true;
        }
        text = rest;
    }
    false
}

/// Returns whether a name is that of a table, a dot and that of a column.
fn is_joined(mut name: &[u8], mut table: &[u8], column: &[u8]) -> bool
    ensures { result ≡ bytes_eq name.entry.now (table.entry.now ++ 46 ∷ column.now) }
{
    while let [expected, behind @ ..] = table {
        match name {
            [byte, rest @ ..] if byte == expected => name = rest,
            _ => return false,
        }
        table = behind;
    }
    match name {
        [b'.', rest @ ..] => rest == column,
        _ => false,
    }
}

fn is_called(table: &str, name: &str, column: &Column) -> bool
    ensures { result ≡ called_so table.now name.now column.now }
{
    let (name, own) = (name.as_bytes(), column.name().as_bytes());
    is_joined(name, table.as_bytes(), own) || is_behind_dot(name, own)
}

/// Where names of columns are looked up: in the columns of a relation, whose own name may be in front of them.
#[derive(Clone, Copy)]
pub struct Scope<'a> {
    pub table: &'a str,
    pub columns: &'a [Column],
}

fn is_any_called(table: &str, name: &str, columns: &[Column]) -> bool
    ensures { result ≡ list_any (called_so table.now name.now) columns.now }
{
    columns.iter().any(|column| is_called(table, name, column))
}

/// Returns a column that is called by a name, unless one of those behind it is, too.
#[tactic(auto, using(crate::proofs::MeaningLemmas::only_first))]
fn alone<'a>(table: &str, name: &str, column: &'a Column, others: &[Column]) -> Option<&'a Column>
    ensures { option_copied result
        ≡ only (column.now ∷ filter (called_so table.now name.now) others.now) }
{
    if is_any_called(table, name, others) {
        None
    } else {
        Some(column)
    }
}

/// Returns the column that is called by a name, if it is the only one.
fn only_called<'a>(table: &str, name: &str, mut columns: &'a [Column]) -> Option<&'a Column>
    ensures { option_copied result ≡ only (filter (called_so table.now name.now) columns.entry.now) }
{
    while let [column, rest @ ..] = columns {
        if is_called(table, name, column) {
            return alone(table, name, column, rest);
        }
        columns = rest;
    }
    None
}

/// Returns the name of the column that a name means in a relation: the name itself if a column has it, else that of
/// the only column which has it with the relation's name in front, or behind that of a joined table. If there is none,
/// or more than one, the name comes back. It takes no memory.
pub fn meant_name<'a>(scope: Scope<'a>, name: &'a str) -> &'a str
    ensures { result.now ≡ meant scope.entry.table.now scope.entry.columns.now name.now }
{
    if has_column(scope.columns, name) {
        return name;
    }
    match only_called(scope.table, name, scope.columns) {
        Some(column) => column.name(),
        None => name,
    }
}
