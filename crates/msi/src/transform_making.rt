//! Making a transform: of a package and of what it has become.

ghost use Rattle.std.specs.Prelude.{◌≡◌, ◌==◌, ◌&&◌, ◌++◌, Err, IfErr, IfOk, IfSome, None, Ok, not};
ghost use Rattle.msi_base.specs.Refusals.{IsRefusal, first_refusal, unless_refused};
ghost use Rattle.msi_database.specs.Changes.{sound_refusal};
ghost use Rattle.msi_transform_making.specs.Making.{table_reasons, told_names};
ghost use Rattle.msi_transform_pair.specs.MakingRefusals.{IsAtFault};
ghost use Rattle.msi.specs.TransformMaking.{conditions_needed as needed, kind_refusal, only_other_page};
ghost use Rattle.msi.specs.TransformMaking.{pair_of_states, transform_made};

use crate::package::{Package, settle};
use crate::transforms::stored_page;
use crate::{PackageType, reasons};
use msi_base::errors::{Error, ErrorKind, Reason};
use msi_container_device::Source;
use msi_transform::{ErrorConditions, Transform};
use msi_transform_pair::MakingRefusal;

fn check_installer(kind: PackageType, reason: Reason) -> Result<(), Error>
    ensures { result ≡ unless_refused (kind_refusal kind) tt }
{
    match kind {
        PackageType::Installer => Ok(()),
        PackageType::Patch | PackageType::Transform => {
            Err(Error::new(ErrorKind::InvalidInput, reason))
        }
    }
}

impl<F: Source> Package<F> {
    /// Returns the transform that makes a new package of this one: of its code page, of its tables with their columns
    /// and rows, and of the streams of rows. The summary, the signature and all other streams aren't in it. It costs
    /// the rows of all tables times a logarithm.
    ///
    /// # Errors
    /// Fails with the first of these that applies:
    /// 1. `InvalidInput` if this package is no installer package, and then if the new one isn't;
    /// 2. `InvalidData` if this package isn't sound, and then if the new one isn't;
    /// 3. `InvalidInput` if this package has a table without a key of its own for each row, or under a name that none
    ///    may have, and then if the new one has one;
    /// 4. `InvalidInput` if the new page is neutral and this one's isn't, then if the new one lacks a text, and then if
    ///    the streams of two rows have one name;
    /// 5. `InvalidInput` at the first table of the new package that doesn't keep its columns, or gets one of the key,
    ///    or gets columns and has more than 32 then, or two of one name, or one without a name: the refusal has its
    ///    place;
    /// 6. `InvalidInput` if a row of more than 255 columns would have to be added, or the texts are too many.
    ///
    /// From the third on it may fail with `OutOfMemory` in place of each.
    pub fn transform_to<G: Source>(
        &mut self,
        new: &mut Package<G>,
    ) -> Result<Transform, MakingRefusal>
        ensures ok { IfOk result (λ made. transform_made self.old.state new.old.state ≡ Ok made) }
        ensures kind { IfErr result (λ refusal. IsRefusal (transform_made self.old.state new.old.state) refusal.kind) }
        ensures table { let rules = table_reasons (pair_of_states self.old.state new.old.state) in
            IfErr result (IsAtFault rules (told_names new.old.state.kept)) }
        ensures early { let refusals = kind_refusal self.old.state.kind ++ kind_refusal new.old.state.kind
            ++ sound_refusal self.old.state.kept.database ++ sound_refusal new.old.state.kept.database in
            IfSome (first_refusal refusals) (λ kind. result ≡ Err (record { kind = kind; table = None })) }
        ensures same { self.new ≡ self.old }
        ensures same_new { new.new ≡ new.old }
    {
        check_installer(self.kind, reasons::OLD_NO_INSTALLER)?;
        check_installer(new.kind, reasons::NEW_NO_INSTALLER)?;
        settle(&mut self.database, &mut self.open, &mut self.current);
        settle(&mut new.database, &mut new.open, &mut new.current);
        let page_id = stored_page(&self.database, self.is_pool_changed);
        let new_page_id = stored_page(&new.database, new.is_pool_changed);
        self.database
            .transform_to(page_id, &new.database, new_page_id)
    }

    /// Returns the faults that have to pass where the transform of `transform_to` is applied to this package: that the
    /// pages differ, where neither is neutral.
    pub fn conditions_needed<G: Source>(&mut self, new: &mut Package<G>) -> ErrorConditions
        ensures needed { result ≡ needed (pair_of_states self.old.state new.old.state) }
        ensures same { self.new ≡ self.old }
        ensures same_new { new.new ≡ new.old }
    {
        settle(&mut self.database, &mut self.open, &mut self.current);
        settle(&mut new.database, &mut new.open, &mut new.current);
        let page_id = stored_page(&self.database, self.is_pool_changed);
        let new_page_id = stored_page(&new.database, new.is_pool_changed);
        conditions_between(page_id, new_page_id)
    }
}

fn conditions_between(page_id: u32, new_page_id: u32) -> ErrorConditions
    ensures { result ≡ only_other_page (not (page_id == 0) && not (page_id == new_page_id)) }
{
    let mut conditions = ErrorConditions::default();
    conditions.other_page = page_id != 0 && page_id != new_page_id;
    conditions
}
