//! Making a transform: of a database and of what it has become.

ghost use Rattle.std.specs.Prelude.{◌≡◌, ◌++◌, Err, IfErr, IfOk, IfSome, None, Ok};
ghost use Rattle.msi_base.specs.Refusals.{IsRefusal, first_refusal, unless_refused};
ghost use Rattle.msi_database_changes.specs.Changes.{sound_refusal};
ghost use Rattle.msi_transform_making.specs.Making.{pair_of, table_reasons, told_names};
ghost use Rattle.msi_transform_pair.specs.MakingRefusals.{IsAtFault};
ghost use Rattle.msi_database.specs.TransformMaking.{side, transform_between};

use crate::database::Database;
use crate::reasons;
use msi_base::errors::{Error, ErrorKind, Reason};
use msi_transform::Transform;
use msi_transform_making::make;
use msi_transform_pair::{Base, MakingRefusal};

impl Database {
    fn check_sound_side(&self, reason: Reason) -> Result<(), Error>
        ensures { result ≡ unless_refused (sound_refusal self.now.database) tt }
    {
        if !self.is_sound {
            return Err(Error::new(ErrorKind::InvalidData, reason));
        }
        Ok(())
    }

    /// Returns the parts of the database of which a transform is made.
    fn base(&self, page_id: u32) -> Base<'_>
        ensures { result ≡ side page_id self.now }
    {
        Base::new(
            self.alloc,
            page_id,
            &self.pool,
            self.tables.as_slice(),
            &self.streams,
        )
    }

    /// Returns the transform that makes a new database of this one: of its page, of its tables with their columns and
    /// rows, and of the streams of rows. `page_id` is the id of this one's code page as it is stored, or 0 where that
    /// is neutral, and `new_page_id` that of the new one's. It costs the rows of all tables times a logarithm.
    ///
    /// # Errors
    /// Fails with `InvalidData` if this database isn't sound, and then if the new one isn't. Then it fails with
    /// `InvalidInput` if there is no transform: one of the databases has a table without a key of its own for each row,
    /// or under a name that none may have; the new one's page is neutral and this one's isn't, or it lacks a text; a
    /// table loses or changes a column, gets one of the key, or gets columns and has more than 32 then, or two of one
    /// name, or one without a name; a row of more than 255 columns would have to be added; or the texts are too many.
    /// Otherwise it fails with `OutOfMemory`, which may come in place of `InvalidInput`. Where a table is at fault for
    /// its columns, the refusal says which.
    pub fn transform_to(
        &self,
        page_id: u32,
        new: &Database,
        new_page_id: u32,
    ) -> Result<Transform, MakingRefusal>
        ensures ok { IfOk result (λ transform.
            transform_between (side page_id self.now) (side new_page_id new.now) ≡ Ok transform) }
        ensures kind { IfErr result (λ refusal.
            IsRefusal (transform_between (side page_id self.now) (side new_page_id new.now)) refusal.kind) }
        ensures table { let rules = table_reasons (pair_of (side page_id self.now) (side new_page_id new.now)) in
            IfErr result (IsAtFault rules (told_names new.now)) }
        ensures early { let refusals = sound_refusal self.now.database ++ sound_refusal new.now.database in
            IfSome (first_refusal refusals) (λ kind. result ≡ Err (record { kind = kind; table = None })) }
    {
        self.check_sound_side(reasons::OLD_UNSOUND)?;
        new.check_sound_side(reasons::NEW_UNSOUND)?;
        let old_base = self.base(page_id);
        let new_base = new.base(new_page_id);
        make(&old_base, &new_base)
    }
}
