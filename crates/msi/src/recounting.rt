//! Counting anew, for packages whose counts are wrong.

ghost use Rattle.std.specs.Prelude.{◌≡◌, ◌++◌, IfErr, IfOk, Ok, OnErr, OnOk};
ghost use Rattle.msi_base.specs.Refusals.{AnswersFirst, IsRefusal};
ghost use Rattle.msi_database.specs.RecountedDatabases.{early_recount_refusals};
ghost use Rattle.msi.specs.State.{parts_of};
ghost use Rattle.msi.specs.Steps.{after_recount, recounting, storage_refusal};
ghost use Rattle.msi.specs.Whole.{with_state};

use crate::package::{Package, settle};
use msi_base::errors::Error;
use msi_container_device::Source;

impl<F: Source> Package<F> {
    /// Sets the count of each text of the string pool to the number of the cells that refer to it, and returns how
    /// many got another count. Packages of other programs often have wrong counts: such a package can be opened, but
    /// each change of its tables fails until it was recounted. A text without cells is dropped. Streams keep their
    /// bytes, and the next flush writes the package, also if no count was wrong. It costs one pass over the cells.
    ///
    /// # Errors
    /// Fails with `InvalidInput` if storages lie below the root; then with `InvalidData` if a table can't be read or
    /// has a name that isn't accepted, if a listed `_Validation` lacks the names, kinds and key columns of the
    /// standard one, if a cell refers past the pool, if the pool has more than 65535 places with references of two
    /// bytes, and if more than 65535 cells refer to one place. Otherwise it fails with `OutOfMemory`, which may also
    /// come in place of what is refused for columns and for cells. Then nothing has changed.
    pub fn recount(&mut self) -> Result<u32, Error>
        ensures ok { IfOk result (λ changed. recounting (parts_of self.old.state) ≡ Ok changed) }
        ensures left { OnOk result (self.new ≡ with_state (after_recount self.old.state) self.old) }
        ensures same { OnErr result (self.new ≡ self.old) }
        ensures kind { IfErr result (IsRefusal (recounting (parts_of self.old.state))) }
        ensures early { let s = self.old.state in
            AnswersFirst (storage_refusal (parts_of s) ++ early_recount_refusals s.kept.database) result }
    {
        self.check_storages()?;
        settle(&mut self.database, &mut self.open, &mut self.current);
        let changed = self.database.recount()?;
        self.note_change(changed > 0);
        Ok(changed)
    }
}
