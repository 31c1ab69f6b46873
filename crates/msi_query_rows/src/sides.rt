//! The tables of a product.

ghost use Rattle.std.specs.Prelude.{◌≡◌, IfErr, IfOk, Ok, bytes_eq, map};
ghost use Rattle.std.specs.List.{AllByRecursion, list_any};
ghost use Rattle.msi_base.specs.Lists.{has_pair};
ghost use Rattle.msi_base.specs.Refusals.{IsRefusal, unless, unless_refused};
ghost use Rattle.msi_table.specs.Rows.{AreAsWide};
ghost use Rattle.msi_query.specs.Rows.{columns_read, relation_values, side_cells, sides_cells};
ghost use Rattle.msi_query.specs.Selection.{first_unread, kept_of, product_of, side_refusals};

use crate::columns::product_columns;
use crate::narrowing::{refuse_unknown, selected};
use crate::product::product_rows;
use crate::reasons;
use crate::relation::Relation;
use crate::selection::{Tables, columns_of, whole};
use msi_base::errors::{Error, ErrorKind};
use msi_base::text::Text;
use msi_pool::stringpool::StringPool;
use msi_query::parts::{Clauses, Side};
use msi_query_expressions::meaning::Scope;
use std::alloc::Global;

fn is_name_of(name: &Text, sides: &[Side]) -> bool
    ensures { result ≡ list_any (λ side. bytes_eq name.now side.name) sides.now }
{
    sides.iter().any(|side| name == side.name())
}

fn repeat_name(sides: &[Side]) -> bool
    ensures { result ≡ has_pair (λ side other. bytes_eq side.name other.name) sides.now }
{
    match sides {
        [] => false,
        [first, others @ ..] => is_name_of(first.name(), others) || repeat_name(others),
    }
}

pub(crate) fn refuse_repeated(sides: &[Side]) -> Result<(), Error>
    ensures { result ≡ unless_refused (side_refusals sides.now) tt }
{
    if repeat_name(sides) {
        return Err(Error::new(ErrorKind::InvalidInput, reasons::REPEATED_TABLE));
    }
    Ok(())
}

/// Refuses the first table that isn't there or can't be read.
pub(crate) fn refuse_unread<T: Tables>(tables: &T, sides: &[Side]) -> Result<(), Error>
    ensures { result ≡ unless (first_unread (columns_read (T.table tables.now)) sides.now) tt }
{
    match sides {
        [] => Ok(()),
        [side, others @ ..] => {
            let _columns = columns_of(tables, side.table().as_str())?;
            refuse_unread(tables, others)
        }
    }
}

fn relation_of_side<T: Tables>(alloc: Global, tables: &T, side: &Side) -> Result<Relation, Error>
    ensures ok { IfOk result (λ relation. side_cells (T.table tables.now) side.now ≡ Ok relation) }
    ensures wide { IfOk result (λ relation. AreAsWide relation.columns relation.rows) }
    ensures kind { IfErr result (IsRefusal (side_cells (T.table tables.now) side.now)) }
{
    let relation = whole(alloc, tables, side.table().as_str())?;
    let name = side.name().clone(alloc)?;
    Ok(relation.under(name))
}

/// Returns the whole tables, each under the name that its columns go by.
pub(crate) fn relations_of<T: Tables>(
    alloc: Global,
    tables: &T,
    sides: &[Side],
) -> Result<Vec<Relation>, Error>
    ensures ok { IfOk result (λ relations. sides_cells (T.table tables.now) sides.now ≡ Ok relations.items) }
    ensures wide { IfOk result (λ relations. AllByRecursion (λ r. AreAsWide r.columns r.rows) relations.items) }
    ensures kind { IfErr result (IsRefusal (sides_cells (T.table tables.now) sides.now)) }
{
    let mut relations = Vec::new(alloc);
    for side in sides {
        let relation = relation_of_side(alloc, tables, side)?;
        relations.push(relation)?;
    }
    Ok(relations)
}

/// What the clauses keep of the product of relations. The condition chooses its rows as they are found.
pub(crate) fn kept_of_product(
    alloc: Global,
    pool: &StringPool,
    clauses: &Clauses,
    relations: &[Relation],
) -> Result<Relation, Error>
    requires { AllByRecursion (λ r. AreAsWide r.columns r.rows) relations.now }
    ensures ok { let values = relation_values pool.now.places in
        IfOk result (λ kept. kept_of clauses.now (product_of (map values relations.now)) ≡ Ok (values kept)) }
    ensures kind { let values = relation_values pool.now.places in
        IfErr result (IsRefusal (kept_of clauses.now (product_of (map values relations.now)))) }
{
    let columns = product_columns(alloc, relations)?;
    let scope = Scope {
        table: "",
        columns: columns.as_slice(),
    };
    let clauses = clauses.with_meant_names(alloc, scope)?;
    refuse_unknown(columns.as_slice(), &clauses)?;
    let (condition, others) = clauses.split_condition();
    let rows = product_rows(
        alloc,
        pool,
        columns.as_slice(),
        relations,
        condition.as_ref(),
    )?;
    let name = Text::from_string(String::new(alloc));
    let met = Relation::new(name, columns, rows);
    selected(alloc, pool, &others, met)
}
