//! Updates of a table's rows.

ghost use Rattle.std.specs.Prelude.{◌≡◌, ◌∷◌, [], map, IfOk, IfErr, OnOk, Some, bytes_eq, codes, false, true};
ghost use Rattle.std.specs.List.{list_all};
ghost use Rattle.std.specs.Option.{option_map_or};
ghost use Rattle.msi_base.specs.Lists.{has_pair};
ghost use Rattle.msi_base.specs.Results.{OnlyMemory};
ghost use Rattle.msi_base.specs.declared.errors.ErrorKind.TheVariants.{AlreadyExists, InvalidInput};
ghost use Rattle.msi_base.specs.Refusals.{IsRefusal, or_refused, unless_refused};
ghost use Rattle.msi_table_values.specs.Columns.{column_named};
ghost use Rattle.msi_table_cells.specs.CellValues.{row_values};
ghost use Rattle.msi_database_changes.specs.Insert.{table_with};
ghost use Rattle.msi_table_cells.specs.KeyOrder.{key_of, same_key};
ghost use Rattle.msi_database_changes.specs.RowUpdates.{row_set, update_of};
ghost use Rattle.msi_database_changes.specs.Texts.{in_turn, in_use};
ghost use Rattle.msi_database_changes.specs.Update.{is_update_barred, keys_collide, row_updated, set_is_valid};
ghost use Rattle.msi_database_changes.specs.Update.{set_refusals, sets_key as sets_a_key, values_after};

use crate::conditions::knows_condition;
use crate::keys::{Key, distinct_keys};
use crate::reasons;
use crate::setting::{places_of, set_cells, set_views};
use crate::texts::PoolInUse;
use crate::views::views_of_cells;
use msi_base::errors::{Error, ErrorKind};
use msi_base::text::Items;
use msi_database_schema::system::{VALIDATION, is_schema_table};
use msi_pool::stringpool::StringPool;
use msi_query::parts::{Assignment, UpdateParts};
use msi_query_expressions::parts::RowFilter;
use msi_table_cells::cell::ValueRef;
use msi_table_values::column::Column;
use msi_table_values::parts::column_index;
use std::alloc::Global;
use std::marker::Model;

/// The column of `_Validation` that may be set.
const DESCRIPTION: &str = "Description";

fn is_description(set: &Assignment) -> bool
    ensures { result ≡ bytes_eq set.now.0 (codes "Description") }
{
    set.column() == DESCRIPTION
}

fn sets_description_alone(sets: &[Assignment]) -> bool
    ensures { result ≡ list_all (λ s. bytes_eq s.0 (codes "Description")) sets.now }
{
    sets.iter().all(is_description)
}

/// Whether an update is barred: of the system tables only Description in `_Validation` may be set.
pub fn is_barred(update: &UpdateParts) -> bool
    ensures { result ≡ is_update_barred (update_of update.now) }
{
    let name = update.table.as_str();
    is_schema_table(name) || (name == VALIDATION && !sets_description_alone(update.sets.as_slice()))
}

fn is_valid_set(columns: &[Column], set: &Assignment) -> bool
    ensures { result ≡ set_is_valid columns.now set.now }
{
    match column_index(columns, set.column()) {
        Some(place) => match columns.get(place) {
            Some(column) => column.is_valid_value(set.value()),
            None => false,
        },
        None => false,
    }
}

fn is_key_set(columns: &[Column], set: &Assignment) -> bool
    ensures { result ≡ option_map_or (λ c. c.is_primary_key) (column_named set.now.0 columns.now) false }
{
    match column_index(columns, set.column()) {
        Some(place) => match columns.get(place) {
            Some(column) => column.is_primary_key(),
            None => false,
        },
        None => false,
    }
}

fn are_valid_sets(columns: &[Column], sets: &[Assignment]) -> bool
    ensures { result ≡ list_all (set_is_valid columns.now) sets.now }
{
    sets.iter().all(|set| is_valid_set(columns, set))
}

fn sets_key(columns: &[Column], sets: &[Assignment]) -> bool
    ensures { result ≡ sets_a_key columns.now sets.now }
{
    sets.iter().any(|set| is_key_set(columns, set))
}

/// An update of rows of some columns. What its names stand for is looked up once. A contract sees the columns and the
/// query.
#[derive(Drop)]
struct RowUpdate<'a> {
    columns: &'a [Column],
    update: &'a UpdateParts,
    filter: RowFilter<'a>,
    places: Vec<usize>,
}

impl<'a> Model for RowUpdate<'a> {
    ghost use Rattle.std.specs.Prelude.{◌≡◌, map};
    ghost use Rattle.std.specs.Coded.{codes};
    ghost use Rattle.msi_query_expressions.specs.ExpressionCode.{expression_code};
    ghost use Rattle.msi_database_changes.specs.RowUpdates.{RowUpdateDef, update_of};
    ghost use Rattle.msi_database_changes.specs.Setting.{index_of};

    ghost Value = { RowUpdateDef };

    ghost coded = { Prim.hlevel (codes, expression_code (Prim.hlevel codes)) };

    ghost view = { λ u. record { columns = u.columns.now; query = update_of u.update.now } };

    ghost invariant = { λ u. (u.filter ≡ record { columns = u.columns.now; condition = u.update.now.condition })
        × (u.places.items ≡ map (index_of u.columns.now) u.update.now.sets) };
}

impl<'a> RowUpdate<'a> {
    fn new(
        alloc: Global,
        columns: &'a [Column],
        update: &'a UpdateParts,
    ) -> Result<RowUpdate<'a>, Error>
        ensures ok { IfOk result (λ made. made ≡ record { columns = columns.now; query = update_of update.now }) }
        ensures kind { OnlyMemory result }
    {
        let filter = RowFilter::new(alloc, columns, update.condition.as_ref())?;
        let places = places_of(alloc, columns, update.sets.as_slice())?;
        Ok(RowUpdate {
            columns,
            update,
            filter,
            places,
        })
    }

    fn key_after(
        &self,
        alloc: Global,
        pool: &'a StringPool,
        row: &[ValueRef],
    ) -> Result<Key<'a>, Error>
        ensures ok { IfOk result (λ key.
            key ≡ key_of self.now.columns (row_set self.now (row_values pool.now.places row.now))) }
        ensures kind { OnlyMemory result }
    {
        let mut views = views_of_cells(alloc, pool, row)?;
        if self.filter.meets(alloc, pool, row)? {
            set_views(
                &mut views,
                self.places.as_slice(),
                self.update.sets.as_slice(),
            );
        }
        Key::of_row(alloc, self.columns, views.as_slice())
    }

    /// Whether the update applies to the row is judged by the texts of the old pool. Fails with `InvalidInput` where
    /// the pool is full.
    fn row_after(
        &self,
        alloc: Global,
        old: &StringPool,
        pool: &mut PoolInUse,
        row: Items<ValueRef>,
    ) -> Result<Items<ValueRef>, Error>
        ensures ok { let step = row_updated true old.now.places self.now.columns self.now.query in
            IfOk result (λ cells. step (in_use pool.old) row ≡ Some (cells, in_use pool.new)) }
        ensures kind { let step = row_updated true old.now.places self.now.columns self.now.query in
            IfErr result (IsRefusal (or_refused InvalidInput (step (in_use pool.old) row))) }
        ensures page { pool.new.pool.page ≡ pool.old.pool.page }
        ensures long { pool.new.pool.long ≡ pool.old.pool.long }
    {
        if !self.filter.meets(alloc, old, row.as_slice())? {
            return Ok(row);
        }
        let sets = self.update.sets.as_slice();
        let cells = set_cells(alloc, pool, row.into_vec(), self.places.as_slice(), sets)?;
        Ok(Items::from_vec(cells))
    }

    fn keys_after(
        &self,
        alloc: Global,
        pool: &'a StringPool,
        rows: &[Items<ValueRef>],
    ) -> Result<Vec<Key<'a>>, Error>
        ensures ok { IfOk result (λ keys. keys.items
            ≡ map (λ row. key_of self.now.columns (row_set self.now (row_values pool.now.places row))) rows.now) }
        ensures kind { OnlyMemory result }
    {
        let mut keys = Vec::new(alloc);
        for row in rows {
            keys.push(self.key_after(alloc, pool, row.as_slice())?)?;
        }
        Ok(keys)
    }

    fn keys_collide(
        &self,
        alloc: Global,
        pool: &'a StringPool,
        rows: &[Items<ValueRef>],
    ) -> Result<bool, Error>
        ensures ok { let values = values_after (table_with self.now.columns rows.now) self.now.query in
            IfOk result (λ collide. collide
            ≡ has_pair same_key (map (key_of self.now.columns) (values (map (row_values pool.now.places) rows.now)))) }
        ensures kind { OnlyMemory result }
    {
        let keys = self.keys_after(alloc, pool, rows)?;
        Ok(distinct_keys(alloc, keys)?.is_none())
    }

    fn rows_after(
        &self,
        alloc: Global,
        old: &StringPool,
        pool: &mut PoolInUse,
        rows: Vec<Items<ValueRef>>,
    ) -> Result<Vec<Items<ValueRef>>, Error>
        ensures ok { let step = row_updated true old.now.places self.now.columns self.now.query in
            IfOk result (λ cells. in_turn step (in_use pool.old) rows.items ≡ Some (cells.items, in_use pool.new)) }
        ensures kind { let step = row_updated true old.now.places self.now.columns self.now.query in
            IfErr result (IsRefusal (or_refused InvalidInput (in_turn step (in_use pool.old) rows.items))) }
        ensures page { pool.new.pool.page ≡ pool.old.pool.page }
        ensures long { pool.new.pool.long ≡ pool.old.pool.long }
    {
        let mut cells = Vec::new(alloc);
        for row in rows {
            cells.push(self.row_after(alloc, old, pool, row)?)?;
        }
        Ok(cells)
    }
}

fn shares_key(
    alloc: Global,
    pool: &StringPool,
    columns: &[Column],
    rows: &[Items<ValueRef>],
    update: &UpdateParts,
) -> Result<bool, Error>
    ensures ok { let values = values_after (table_with columns.now rows.now) (update_of update.now) in
        IfOk result (λ shares. shares
        ≡ has_pair same_key (map (key_of columns.now) (values (map (row_values pool.now.places) rows.now)))) }
    ensures kind { OnlyMemory result }
{
    let update = RowUpdate::new(alloc, columns, update)?;
    update.keys_collide(alloc, pool, rows)
}

/// Refuses an update whose new values or whose condition don't go with a table's columns. It takes no memory.
///
/// # Errors
/// Fails with `InvalidInput` if a new value names no column, or its column doesn't take it, and if the condition names
/// no column.
pub fn refuse_sets(columns: &[Column], update: &UpdateParts) -> Result<(), Error>
    ensures { result ≡ unless_refused (set_refusals columns.now (update_of update.now)) tt }
{
    if !are_valid_sets(columns, update.sets.as_slice()) {
        return Err(Error::new(ErrorKind::InvalidInput, reasons::NEW_VALUE));
    }
    if !knows_condition(columns, update.condition.as_ref()) {
        return Err(Error::new(ErrorKind::InvalidInput, reasons::CONDITION_COLUMN));
    }
    Ok(())
}

/// Refuses an update after which two of a table's rows would share a key. The rows' texts stand in the pool.
///
/// # Errors
/// Fails with `AlreadyExists` if a key column is set, and two rows would share a key. It may fail with `OutOfMemory`
/// in place of that.
pub fn refuse_collisions(
    alloc: Global,
    pool: &StringPool,
    columns: &[Column],
    rows: &[Items<ValueRef>],
    update: &UpdateParts,
) -> Result<(), Error>
    ensures ok { let t = table_with columns.now rows.now in
        OnOk result (keys_collide pool.now.places t (update_of update.now) ≡ false) }
    ensures kind { let t = table_with columns.now rows.now in
        let refusals = (keys_collide pool.now.places t (update_of update.now), AlreadyExists) ∷ [] in
        IfErr result (IsRefusal {A = Unit {0}} (unless_refused refusals tt)) }
{
    if !sets_key(columns, update.sets.as_slice()) {
        return Ok(());
    }
    if shares_key(alloc, pool, columns, rows, update)? {
        return Err(Error::new(ErrorKind::AlreadyExists, reasons::KEY_COLLIDES));
    }
    Ok(())
}

/// Returns a table's rows after an update, in their order: per row and per new value the pool gets the old text back,
/// and then the new one is taken from it. Which rows are meant is decided by the texts of the old pool, of which the
/// pool in use began as a clone. Their stored order is given to them where they are written.
///
/// # Errors
/// Fails with `InvalidInput` if the pool is full at 16777215 places, or with `OutOfMemory`, which may come before.
pub fn updated_rows(
    alloc: Global,
    old: &StringPool,
    pool: &mut PoolInUse,
    columns: &[Column],
    update: &UpdateParts,
    rows: Vec<Items<ValueRef>>,
) -> Result<Vec<Items<ValueRef>>, Error>
    ensures ok { let step = row_updated true old.now.places columns.now (update_of update.now) in
        IfOk result (λ cells. in_turn step (in_use pool.old) rows.items ≡ Some (cells.items, in_use pool.new)) }
    ensures kind { let step = row_updated true old.now.places columns.now (update_of update.now) in
        IfErr result (IsRefusal (or_refused InvalidInput (in_turn step (in_use pool.old) rows.items))) }
    ensures page { pool.new.pool.page ≡ pool.old.pool.page }
    ensures long { pool.new.pool.long ≡ pool.old.pool.long }
{
    let update = RowUpdate::new(alloc, columns, update)?;
    update.rows_after(alloc, old, pool, rows)
}
