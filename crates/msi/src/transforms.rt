//! Applying transforms, which describe how one package becomes another.

ghost use Rattle.std.specs.Prelude.{◌≡◌, ◌++◌, Err, IfErr, IfSome, None, OnErr, OnOk};
ghost use Rattle.msi_base.specs.Refusals.{first_refusal};
ghost use Rattle.msi_database.specs.Changes.{sound_refusal};
ghost use Rattle.msi_transform_rows.specs.RecordRefusals.{IsRefused};
ghost use Rattle.std.specs.FinMap.{entries};
ghost use Rattle.msi_container_format.specs.Chains.{AreBelow};
ghost use Rattle.msi_container_write.specs.LayoutLaw.{HaveNames};
ghost use Rattle.msi.specs.State.{parts_of, storage_refusal};
ghost use Rattle.msi.specs.Transforming.{IsLeft, page_of, transforming};
ghost use Rattle.msi.specs.Whole.{Becomes};

use crate::package::{Package, settle};
use msi_container_device::Source;
use msi_container_format::contents::StreamMap;
use msi_database::Database;
use msi_transform::stored_pool::page_id_in;
pub use msi_transform::{ErrorConditions, Fault, Transform};
pub use msi_transform_pair::MakingRefusal;
pub use msi_transform_rows::{RecordPlace, Refusal};

/// Returns the id of the code page as the package stores it, which may be 0 for UTF-8.
pub(crate) fn stored_page(database: &Database, is_pool_changed: bool) -> u32
    ensures { result ≡ page_of database.now is_pool_changed }
{
    if is_pool_changed {
        database.codepage().id() as u32
    } else {
        page_id_in(database.streams())
    }
}

/// A unit of a name has 16 bits.
fn look_at_units(units: &[u16])
    ensures { AreBelow 65536 units.now }
{}

/// Goes over streams: each has a name that a container can hold.
fn look_at_names(streams: &StreamMap)
    ensures { HaveNames (entries streams.now) }
{
    for (name, _) in streams.iter() {
        look_at_units(name.units());
    }
}

impl<F: Source> Package<F> {
    /// Applies a transform: its tables come, go and get columns, and its records change rows and bring their streams.
    /// `passing` says which faults of records pass; such a record is left out. Texts are counted anew, as `recount`
    /// does. The summary, the signature and all streams of no table and of no row stay, and the next flush writes the
    /// package. It costs the rows of all tables times a logarithm.
    ///
    /// # Errors
    /// Fails with the first of these that applies, and tells the record that is at fault if one is:
    /// 1. `InvalidInput` if storages lie below the root;
    /// 2. `InvalidData` if the package isn't sound;
    /// 3. `InvalidInput` if the transform has another code page and neither is neutral, unless that passes;
    /// 4. where the transform has records of `_Tables` or of `_Columns`: `InvalidData` if two rows of the package's
    ///    `_Tables` have one key, and then if two of its `_Columns` have;
    /// 5. `InvalidData` at the first record of `_Tables` that can't be read; then at the first that can't be applied:
    ///    `InvalidData` for a name that no table may have; `InvalidInput` if it changes a row; `NotFound` if the table
    ///    to remove isn't there, and `AlreadyExists` if the one to add is, unless that passes; `InvalidInput` if it
    ///    adds `_Validation` and there are rows of it already, and then if the pool is full;
    /// 6. likewise for `_Columns`: `InvalidInput` if a record changes a row, or removes one of a table that the
    ///    transform doesn't drop; `NotFound` if the column's table isn't there; `InvalidData` if the column has no
    ///    name or no type; where the table has a column of its number, `InvalidInput` if that is another one, and
    ///    `AlreadyExists` if it is the same, unless that passes; else `InvalidData` if its number isn't the next, then
    ///    if its name is taken, `InvalidInput` if it is of the key and the transform doesn't add the table, then if
    ///    the table has 32 columns, and then if the pool is full;
    /// 7. `InvalidData` if a table that is added has no column of a key;
    /// 8. for each other table of the transform in turn: `NotFound` if it isn't there; `InvalidData` if it has no key,
    ///    one of streams, or two rows with one key; `InvalidData` at the first record that can't be read; then at the
    ///    first that can't be applied: `NotFound` if the row to remove or to change isn't there, and `AlreadyExists` if
    ///    the one to add is, unless that passes; `InvalidInput` for a 65537th row; `NotFound` if the transform lacks
    ///    the stream that the row brings; `InvalidInput` if the pool is full;
    /// 9. `InvalidInput` if two rows whose streams have one name would have other bytes, and then if a text can't be
    ///    written in the code page of the result;
    /// 10. `InvalidData` if what is left describes no tables, or can't be counted anew.
    ///
    /// From the third on it may fail with `OutOfMemory` in place of each. Then nothing has changed.
    pub fn apply_transform(
        &mut self,
        transform: &Transform,
        passing: ErrorConditions,
    ) -> Result<(), Refusal>
        ensures ok { OnOk result (Becomes self.old (transforming self.old.state transform.now passing) self.new) }
        ensures kept { OnOk result (IsLeft self.new.state.kept) }
        ensures same { OnErr result (self.new ≡ self.old) }
        ensures kind { IfErr result (IsRefused (transforming self.old.state transform.now passing)) }
        ensures early { let s = self.old.state in
            let refusals = storage_refusal (parts_of s) ++ sound_refusal s.kept.database in
            IfSome (first_refusal refusals) (λ kind. result ≡ Err (record { kind = kind; place = None })) }
    {
        self.check_storages()?;
        settle(&mut self.database, &mut self.open, &mut self.current);
        let page_id = stored_page(&self.database, self.is_pool_changed);
        let database = self.database.apply(page_id, transform, passing)?;
        database.kept();
        look_at_names(database.streams());
        self.database = database;
        self.is_unwritten = true;
        self.is_pool_changed = true;
        Ok(())
    }
}
