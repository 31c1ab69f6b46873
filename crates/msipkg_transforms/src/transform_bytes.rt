//! The bytes of a transform's file: `msipkg` writes no transform in another way.

ghost use Rattle.std.specs.Prelude.{◌≡◌, ◌⊎◌, IfErr, IfOk, Ok};
ghost use Rattle.msi.specs.Container.Container.{Holds};
ghost use Rattle.msi.specs.Container.Contents.{Contents};
ghost use Rattle.msi.specs.Text.ErrorKind.TheVariants.{InvalidInput, OutOfMemory};
ghost use Rattle.msi_transform.specs.TransformFiles.{IsReadRefusal, ReadsTo};
ghost use Rattle.msi_transform.specs.Transforms.{TransformDef};
ghost use Rattle.msi_transform.specs.WrittenTransforms.{AreWritten, HasNoFile, IsMade, with_summary};

use msi_transform::Transform;
use msipkg_format::{Failure, System};
use msipkg_packages::msi::Error;
use msipkg_packages::write_file;
use std::alloc::Global;
use std::marker::Model;

/// The bytes of a transform's file. They are made of a transform and of a summary alone, by `of`. Contracts see their
/// list.
#[derive(Drop)]
pub(crate) struct TransformBytes {
    bytes: Vec<u8>,
}

impl Model for TransformBytes {
    ghost use Rattle.std.specs.Prelude.{List, ℕ};

    ghost Value = { List ℕ };

    ghost view = { λ file. file.bytes.items };
}

impl TransformBytes {
    /// Returns the bytes of a file that holds a transform with this stream as its summary.
    ///
    /// # Errors
    /// Fails with `InvalidInput` as `Transform::into_bytes` does. Otherwise it fails with `OutOfMemory`.
    pub(crate) fn of(
        alloc: Global,
        made: Transform,
        summary: Vec<u8>,
    ) -> Result<TransformBytes, Error>
        ensures ok { let t = with_summary summary.items made in
            IfOk result (λ bytes. (c : Contents) × AreWritten t c × Holds bytes c) }
        ensures reads { let t = with_summary summary.items made in
            IsMade made → IfOk result (λ bytes. ReadsTo bytes (Ok t)) }
        ensures kind { let t = with_summary summary.items made in
            IfErr result (λ kind. (kind ≡ OutOfMemory) ⊎ (kind ≡ InvalidInput) × HasNoFile t) }
    {
        let bytes = with_summary_set(made, summary)?.into_bytes(alloc)?;
        Ok(TransformBytes { bytes })
    }

    /// Returns these bytes, once a transform was read from them.
    ///
    /// # Errors
    /// Fails as `Transform::read` does.
    pub(crate) fn read_again(self, alloc: Global) -> Result<TransformBytes, Error>
        ensures same { IfOk result (λ bytes. bytes ≡ self) }
        ensures read { IfOk result (λ bytes. (t : TransformDef) × ReadsTo bytes (Ok t)) }
        ensures kind { IfErr result (IsReadRefusal self) }
    {
        let TransformBytes { bytes } = self;
        let copy = Vec::from_slice(alloc, bytes.as_slice())?;
        let _read = Transform::read(alloc, copy)?;
        Ok(TransformBytes { bytes })
    }
}

/// Returns a transform with this stream as its summary.
fn with_summary_set(made: Transform, summary: Vec<u8>) -> Result<Transform, Error>
    ensures ok { IfOk result (λ t. t ≡ with_summary summary.items made) }
    ensures made { IsMade made → IfOk result IsMade }
    ensures kind { IfErr result (λ kind. kind ≡ OutOfMemory) }
{
    let mut made = made;
    made.set_summary(summary)?;
    Ok(made)
}

/// Makes the file of a transform, as `write_file` does.
///
/// # Errors
/// Fails as `write_file` does. Then an old file is as it was, and no other is left.
pub(crate) fn write_transform(
    rt: &System,
    path: &str,
    is_forced: bool,
    bytes: &TransformBytes,
) -> Result<(), Failure> {
    write_file(rt, path, is_forced, bytes.bytes.as_slice())
}
