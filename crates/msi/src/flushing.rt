//! Writing a package to its device.

ghost use Rattle.std.specs.Prelude.{◌≡◌, ◌&&◌, OnErr, OnOk, false, not, true};
ghost use Rattle.std.specs.Vec.Iter.{into_iter_items};
ghost use Rattle.msi_base.specs.Refusals.{AnswersFirst};
ghost use Rattle.msi_container_device.specs.Faults.{is_io};
ghost use Rattle.msi_container_write.specs.Borrowed.{contents_of};
ghost use Rattle.msi_database.specs.Database.{is_sound};
ghost use Rattle.msi_database.specs.Others.{with_streams};
ghost use Rattle.msi.specs.Renewing.{with_renewed};
ghost use Rattle.msi.specs.Flushing.{AreOthers, FlushStep, Overwrites, flush_answer, left_by, over_device};
ghost use Rattle.msi.specs.Flushing.{root_contents, told, unwritten_of};
ghost use Rattle.msi.specs.Steps.{flush_refusals, text_refusals};

use crate::kinds::PackageType;
use crate::package::{Package, settle};
use crate::parts::{contents_under, renewed_streams};
use msi_base::errors::Error;
use msi_container_device::Device;
use msi_container_device::parts::{go_to_start, hand_on};
use msi_container_format::contents::Bytes;
use msi_container_format::name::Name;
use msi_container_write::parts::{BorrowedContents, image_to};
use msi_database::Database;
use msi_summary::SummaryInfo;
use std::alloc::Global;
use std::vec::IntoIter;

/// What the root of a package's container has beside its streams.
#[derive(Clone, Copy)]
pub(crate) struct Root {
    pub(crate) kind: PackageType,
    pub(crate) has_storages: bool,
}

/// Replaces all that the device holds. `InvalidInput` (storages below the root, or an image past 2^31 bytes) and
/// `OutOfMemory` come before the first byte is written; after `Io` the device may hold the beginning of the image.
fn write_image<F: Device>(
    alloc: Global,
    contents: &BorrowedContents,
    device: &mut F,
) -> Result<(), Error>
    ensures device { Overwrites (contents_of contents.now) (told (F.held device.old) (F.failed device.old)) result
        (told (F.held device.new) (F.failed device.new)) }
    ensures handed_on { OnOk result (F.pending device.new ≡ false) }
    ensures faultless { F.can_fail ≡ false → F.writes_can_fail ≡ false → is_io result ≡ false }
{
    let earlier_len = go_to_start(device)?;
    image_to(alloc, contents, earlier_len, device)?;
    hand_on(device)
}

fn write_streams<F: Device>(
    alloc: Global,
    root: Root,
    database: &Database,
    device: &mut F,
) -> Result<(), Error>
    ensures device { Overwrites (root_contents root.kind root.has_storages database.now.streams)
        (told (F.held device.old) (F.failed device.old)) result (told (F.held device.new) (F.failed device.new)) }
    ensures handed_on { OnOk result (F.pending device.new ≡ false) }
    ensures faultless { F.can_fail ≡ false → F.writes_can_fail ≡ false → is_io result ≡ false }
{
    let contents = contents_under(root.kind.clsid(), root.has_storages, database.streams());
    write_image(alloc, &contents, device)
}

/// Writes the database's streams with the `renewed` ones in place of their own. No stream is copied. After an error the
/// database is as it was.
pub(crate) fn write_with<F: Device>(
    alloc: Global,
    root: Root,
    database: &mut Database,
    mut renewed: IntoIter<(Name, Bytes)>,
    device: &mut F,
) -> Result<(), Error>
    requires { AreOthers database.old.database (into_iter_items renewed) }
    ensures ok { OnOk result (database.new ≡ with_streams (with_renewed (into_iter_items renewed)) database.old) }
    ensures same { OnErr result (database.new ≡ database.old) }
    ensures device { Overwrites
        (root_contents root.kind root.has_storages (with_renewed (into_iter_items renewed) database.old.streams))
        (told (F.held device.old) (F.failed device.old)) result (told (F.held device.new) (F.failed device.new)) }
    ensures handed_on { OnOk result (F.pending device.new ≡ false) }
    ensures faultless { F.can_fail ≡ false → F.writes_can_fail ≡ false → is_io result ≡ false }
{
    database.kept();
    let Some((name, bytes)) = renewed.next() else {
        return write_streams(alloc, root, database, device);
    };
    let before = database.replace_stream(name.duplicate(), bytes)?;
    match write_with(alloc, root, database, renewed, device) {
        Ok(()) => Ok(()),
        Err(error) => {
            database.put_back_stream(&name, before);
            Err(error)
        }
    }
}

/// Clears the device's flag first, so that afterwards the flag is set exactly where `Io` is returned. Fails with
/// `InvalidInput` where a page can't hold a text. After an error the database is as it was.
fn write_parts<F: Device>(
    alloc: Global,
    root: Root,
    summary: &SummaryInfo,
    is_summary_lent: bool,
    database: &mut Database,
    is_pool_changed: bool,
    device: &mut F,
) -> Result<(), Error>
    requires { is_pool_changed ≡ true → is_sound database.old.database ≡ true }
    ensures flushed { let s
        = unwritten_of root.kind root.has_storages summary.now is_summary_lent database.old is_pool_changed in
        FlushStep (over_device s (F.held device.old) (F.failed device.old) (F.pending device.old)) (flush_answer result)
        (over_device (left_by result s database.new) (F.held device.new) (F.failed device.new) (F.pending device.new)) }
    ensures handed_on { OnOk result (F.pending device.new ≡ false) }
    ensures faultless { F.can_fail ≡ false → F.writes_can_fail ≡ false → is_io result ≡ false }
    ensures early { let s
        = unwritten_of root.kind root.has_storages summary.now is_summary_lent database.old is_pool_changed in
        AnswersFirst (text_refusals s) result }
    ensures tables { database.new.database ≡ database.old.database }
    ensures same { OnErr result (database.new ≡ database.old) }
{
    device.clear_failed();
    let renewed = renewed_streams(
        alloc,
        summary,
        is_summary_lent,
        database.pool(),
        is_pool_changed,
    )?;
    write_with(alloc, root, database, renewed.into_iter(), device)
}

impl<F: Device> Package<F> {
    /// Writes the whole file anew, over all that the device has, and flushes the device. If nothing is unwritten it
    /// does nothing, and makes no call of the device. If it fails, the package is as it was, and is still unwritten.
    ///
    /// # Errors
    /// Fails with `InvalidInput` if a page can't encode a text: neither `OutOfMemory` nor `Io` comes in place of that.
    /// Otherwise it fails with `InvalidInput` if the file would pass 2^31 bytes, or with `OutOfMemory`, both before
    /// anything is written. Fails with `Io` if a call of the device failed: a prefix of the new bytes may have been
    /// written over the old ones. The device's flag is cleared first, so `device_failed` reports afterwards whether
    /// this flush failed with `Io`.
    pub fn flush(&mut self) -> Result<(), Error>
        ensures step { FlushStep self.old (flush_answer result) self.new }
        ensures early { AnswersFirst (flush_refusals self.old.state) result }
        ensures handed_on { OnOk result (self.new.pending ≡ (not self.old.state.is_unwritten && self.old.pending)) }
        ensures faultless { F.can_fail ≡ false → F.writes_can_fail ≡ false → is_io result ≡ false }
    {
        if !self.is_unwritten {
            return Ok(());
        }
        settle(&mut self.database, &mut self.open, &mut self.current);
        let root = Root {
            kind: self.kind,
            has_storages: self.has_storages,
        };
        write_parts(
            self.alloc,
            root,
            &self.summary,
            self.is_summary_lent,
            &mut self.database,
            self.is_pool_changed,
            &mut self.device,
        )?;
        self.is_unwritten = false;
        self.is_summary_lent = false;
        self.is_pool_changed = false;
        Ok(())
    }
}
