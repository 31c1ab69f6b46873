//! The bytes that a flush would write.

ghost use Rattle.std.specs.Prelude.{◌≡◌, ◌++◌, IfErr, IfOk, Ok};
ghost use Rattle.msi_base.specs.Refusals.{AnswersFirst, IsRefusal};
ghost use Rattle.msi.specs.State.{parts_of};
ghost use Rattle.msi.specs.Steps.{image_of as image_of_state, storage_refusal, text_refusals};

use crate::package::Package;
use crate::parts::{contents_under, put_all, renewed_streams, settled_copy};
use msi_base::errors::Error;
use msi_container_device::Source;
use msi_container_write::parts::image_of;

impl<F: Source> Package<F> {
    /// Returns the bytes that a flush would write over `earlier_len` bytes. It copies the streams, and changes
    /// nothing.
    ///
    /// # Errors
    /// Fails with `InvalidInput` if storages lie below the root, if a page can't encode a text, or if the file would
    /// pass 2^31 bytes. Otherwise it fails with `OutOfMemory`, which may also come in place of the last.
    pub fn image(&self, earlier_len: u64) -> Result<Vec<u8>, Error>
        ensures ok { IfOk result (λ bytes. image_of_state self.now.state earlier_len ≡ Ok bytes.items) }
        ensures kind { IfErr result (IsRefusal (image_of_state self.now.state earlier_len)) }
        ensures early { let s = self.now.state in
            AnswersFirst (storage_refusal (parts_of s) ++ text_refusals s) result }
    {
        self.check_storages()?;
        let renewed = renewed_streams(
            self.alloc,
            &self.summary,
            self.is_summary_lent,
            self.database.pool(),
            self.is_pool_changed,
        )?;
        let mut streams = settled_copy(
            self.alloc,
            self.database.streams(),
            &self.open,
            &self.current,
        )?;
        put_all(&mut streams, renewed.into_iter())?;
        let contents = contents_under(self.kind.clsid(), self.has_storages, &streams);
        image_of(self.alloc, &contents, earlier_len)
    }
}
