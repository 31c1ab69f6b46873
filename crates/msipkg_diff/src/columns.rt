//! What differs between the columns of two tables.

use crate::difference::{Change, Content, Difference, Member};
use crate::report::Report;
use msipkg_format::quoted;
use msipkg_packages::msi::{Column, Table};
use msipkg_packages::output::ColumnTypeText;
use std::alloc::{AllocError, Global};

/// Compares the columns of two tables by their places if they have the same names in the same order, as a table of
/// another program may have two of one name, and else by their names.
pub(crate) fn compare_columns(
    old: &Table,
    new: &Table,
    have_same_names: bool,
    report: &mut Report<'_>,
) {
    for (place, column) in old.columns().iter().enumerate() {
        let other = if have_same_names {
            new.columns().get(place)
        } else {
            new.get_column(column.name())
        };
        let made = compare_column(old, Some(column), other, report);
        report.keep(made);
    }
    add_columns(old, new, report);
}

fn add_columns(old: &Table, new: &Table, report: &mut Report<'_>) {
    for column in new.columns() {
        if old.get_column(column.name()).is_none() {
            let made = compare_column(new, None, Some(column), report);
            report.keep(made);
        }
    }
}

fn compare_column(
    table: &Table,
    old: Option<&Column>,
    new: Option<&Column>,
    report: &mut Report<'_>,
) -> Result<(), AllocError> {
    let removed = facts_beside(report.alloc, old, new)?;
    let added = facts_beside(report.alloc, new, old)?;
    match old.or(new) {
        Some(column) if !removed.is_empty() || !added.is_empty() => {
            let change = Change::of(old.is_some(), new.is_some());
            add_facts(table.name(), column, change, &removed, &added, report)
        }
        _ => Ok(()),
    }
}

/// Adds a column that a table gets.
///
/// # Errors
/// Fails if memory is refused.
pub fn report_added_column(
    table: &str,
    column: &Column,
    report: &mut Report<'_>,
) -> Result<(), AllocError> {
    let none = Vec::new(report.alloc);
    let added = facts_beside(report.alloc, Some(column), None)?;
    add_facts(table, column, Change::Added, &none, &added, report)
}

fn add_facts(
    table: &str,
    column: &Column,
    change: Change,
    removed: &[Fact],
    added: &[Fact],
    report: &mut Report<'_>,
) -> Result<(), AllocError> {
    let old = members_of(report.alloc, removed)?;
    let new = members_of(report.alloc, added)?;
    report.add(&Difference {
        change,
        kind: "column",
        table,
        name: column.name(),
        old: old.as_slice(),
        new: new.as_slice(),
    });
    Ok(())
}

/// What may be said of a column.
#[derive(Clone, Copy)]
enum Aspect {
    Type,
    Key,
    Localizable,
    Category,
    Min,
    Max,
    Values,
    KeyTable,
    KeyColumn,
}

/// The names of the aspects, which `schema --json` has, too. Whether a column is nullable, its type says.
static ASPECTS: [(Aspect, &str); 9] = [
    (Aspect::Type, "type"),
    (Aspect::Key, "key"),
    (Aspect::Localizable, "localizable"),
    (Aspect::Category, "category"),
    (Aspect::Min, "min"),
    (Aspect::Max, "max"),
    (Aspect::Values, "values"),
    (Aspect::KeyTable, "key_table"),
    (Aspect::KeyColumn, "key_column"),
];

/// What is said of a column, as JSON under its name.
#[derive(Drop)]
struct Fact {
    name: &'static str,
    json: String,
}

/// Returns what is said of a column, if it exists, and not of another in the same way.
fn facts_beside(
    alloc: Global,
    column: Option<&Column>,
    other: Option<&Column>,
) -> Result<Vec<Fact>, AllocError> {
    let mut facts = Vec::new(alloc);
    for (aspect, name) in &ASPECTS {
        let fact = fact_of(alloc, column, *aspect)?;
        let beside = fact_of(alloc, other, *aspect)?;
        if fact == beside {
            continue;
        }
        if let Some(json) = fact {
            facts.push(Fact { name, json })?;
        }
    }
    Ok(facts)
}

fn members_of(alloc: Global, facts: &[Fact]) -> Result<Vec<Member<'_>>, AllocError> {
    let mut members = Vec::new(alloc);
    for fact in facts {
        let content = Content::Json(fact.json.as_str());
        members.push(Member {
            name: fact.name,
            content,
        })?;
    }
    Ok(members)
}

fn fact_of(
    alloc: Global,
    column: Option<&Column>,
    aspect: Aspect,
) -> Result<Option<String>, AllocError> {
    let Some(column) = column else {
        return Ok(None);
    };
    match aspect {
        Aspect::Type => type_json(alloc, column),
        Aspect::Key => truth_json(alloc, column.is_primary_key()),
        Aspect::Localizable => truth_json(alloc, column.is_localizable()),
        Aspect::Category => text_json(alloc, column.category().map(|category| category.name())),
        Aspect::Min => number_json(alloc, column.value_range().map(|range| range.0)),
        Aspect::Max => number_json(alloc, column.value_range().map(|range| range.1)),
        Aspect::Values => values_json(alloc, column),
        Aspect::KeyTable => text_json(alloc, column.foreign_key().map(|key| key.0)),
        Aspect::KeyColumn => number_json(alloc, column.foreign_key().map(|key| key.1)),
    }
}

fn type_json(alloc: Global, column: &Column) -> Result<Option<String>, AllocError> {
    let text = ColumnTypeText(column).to_string(alloc)?;
    Ok(Some(quoted(alloc, text.as_str())?))
}

fn truth_json(alloc: Global, holds: bool) -> Result<Option<String>, AllocError> {
    Ok(Some(holds.to_string(alloc)?))
}

fn text_json(alloc: Global, text: Option<&str>) -> Result<Option<String>, AllocError> {
    match text {
        Some(text) => Ok(Some(quoted(alloc, text)?)),
        None => Ok(None),
    }
}

fn number_json(alloc: Global, number: Option<i32>) -> Result<Option<String>, AllocError> {
    match number {
        Some(number) => Ok(Some(number.to_string(alloc)?)),
        None => Ok(None),
    }
}

fn values_json(alloc: Global, column: &Column) -> Result<Option<String>, AllocError> {
    let Some(texts) = column.enum_values() else {
        return Ok(None);
    };
    let mut json = String::new(alloc);
    let mut before = '[';
    for text in texts {
        json.push(before)?;
        json.push_str(quoted(alloc, text.as_str())?.as_str())?;
        before = ',';
    }
    json.push(']')?;
    Ok(Some(json))
}
