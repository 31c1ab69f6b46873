//! The bytes that a package's file is to have, and files that get them: no package is written in another way.

ghost use Rattle.std.specs.Prelude.{◌≡◌, ◌⊎◌, ◌++◌, ◌||◌, Err, IfErr, IfOk, IfSome, IsErrOf, IsOk, Ok, OnOk};
ghost use Rattle.std.specs.Prelude.{false, is_some, true};
ghost use Rattle.msi.specs.Query.Refusals.{AnswersFirst, IsRefusal};
ghost use Rattle.msi.specs.Text.ErrorKind.TheVariants.{InvalidInput, OutOfMemory};
ghost use Rattle.msi.specs.Meaning.{OpensTo};
ghost use Rattle.msi.specs.Runs.{TextsAreWritable};
ghost use Rattle.msi.specs.State.{State, parts_of};
ghost use Rattle.msi.specs.Steps.{image_of, storage_refusal, text_refusals};

use crate::output::{Failure, Opened, System};
use crate::{Claim, page_in, reasons, replace_file, write_file};
use msi::{Error, ErrorKind, Memory, Package};
use std::alloc::Global;
use std::marker::Model;

/// The bytes of a package's file. They are made of a package alone, by `of`: so they mean it as it is then, and each of
/// its texts reads back. Contracts see their list.
#[derive(Drop)]
pub struct FileBytes {
    bytes: Vec<u8>,
}

impl Model for FileBytes {
    ghost use Rattle.std.specs.Prelude.{List, ℕ};

    ghost Value = { List ℕ };

    ghost view = { λ file. file.bytes.items };
}

impl FileBytes {
    /// Returns the bytes that mean a package as it is, whether it was changed or not.
    ///
    /// # Errors
    /// Fails with `InvalidInput` if a text wouldn't read back from its page, and as `Package::image` does.
    pub fn of(whole: &Package<Opened>) -> Result<FileBytes, Error>
        ensures ok { IfOk result (λ bytes. image_of whole.now.state 0 ≡ Ok bytes) }
        ensures texts { OnOk result (TextsAreWritable whole.now.state) }
        ensures lost { ¬ TextsAreWritable whole.now.state → IsErrOf result InvalidInput }
        ensures kind { TextsAreWritable whole.now.state → IfErr result (IsRefusal (image_of whole.now.state 0)) }
        ensures early { let s = whole.now.state in
            TextsAreWritable s → AnswersFirst (storage_refusal (parts_of s) ++ text_refusals s) result }
    {
        if !whole.is_writable() {
            return Err(Error::new(ErrorKind::InvalidInput, reasons::LOST_TEXT));
        }
        Ok(FileBytes {
            bytes: whole.image(0)?,
        })
    }

    /// Returns these bytes, once a package was opened from them.
    ///
    /// # Errors
    /// Fails as `Package::open` does.
    pub fn opened_again(self, alloc: Global) -> Result<FileBytes, Error>
        ensures same { IfOk result (λ bytes. bytes ≡ self) }
        ensures opens { OnOk result ((state : State) × OpensTo self (Ok state)) }
        ensures kind { IfErr result (λ kind. (kind ≡ OutOfMemory) ⊎ OpensTo self (Err kind)) }
    {
        let FileBytes { bytes } = self;
        let opened = Package::open(alloc, Memory::from_vec(bytes))?;
        Ok(FileBytes {
            bytes: opened.into_reader().into_vec(),
        })
    }
}

/// Returns the bytes that the file of a package is to get. It is left alone exactly where the package wasn't changed
/// and has the bytes of its file, that is, where it wasn't recoded.
///
/// # Errors
/// Fails as `FileBytes::of` does.
pub fn bytes_to_write(whole: &Package<Opened>, is_recoded: bool) -> Result<Option<FileBytes>, Error>
    ensures left_alone { let s = whole.now.state in
        IfOk result (λ bytes. is_some bytes ≡ (s.is_unwritten || is_recoded)) }
    ensures bytes { let s = whole.now.state in IfOk result (λ bytes. IfSome bytes (λ file. image_of s 0 ≡ Ok file)) }
    ensures texts { let s = whole.now.state in
        IfOk result (λ bytes. IfSome bytes (λ _. TextsAreWritable s)) }
    ensures nothing { let s = whole.now.state in (s.is_unwritten || is_recoded) ≡ false → IsOk result }
    ensures lost { let s = whole.now.state in
        (s.is_unwritten || is_recoded) ≡ true → ¬ TextsAreWritable s → IsErrOf result InvalidInput }
    ensures kind { let s = whole.now.state in
        TextsAreWritable s → IfErr result (IsRefusal (image_of s 0)) }
    ensures early { let s = whole.now.state in (s.is_unwritten || is_recoded) ≡ true → TextsAreWritable s
        → AnswersFirst (storage_refusal (parts_of s) ++ text_refusals s) result }
{
    if !whole.is_unwritten() && !is_recoded {
        return Ok(None);
    }
    Ok(Some(FileBytes::of(whole)?))
}

/// Returns these bytes, once a package was opened from them.
///
/// # Errors
/// Fails if they don't open, and if memory is refused.
pub fn verified(alloc: Global, bytes: FileBytes) -> Result<FileBytes, Failure>
    ensures same { IfOk result (λ verified. verified ≡ bytes) }
    ensures opens { OnOk result ((state : State) × OpensTo bytes (Ok state)) }
{
    match bytes.opened_again(alloc) {
        Ok(bytes) => Ok(bytes),
        Err(error) => Err(unopened(error)),
    }
}

fn unopened(error: Error) -> Failure {
    match error.kind() {
        ErrorKind::Io | ErrorKind::OutOfMemory => Failure::from(error),
        ErrorKind::AlreadyExists
        | ErrorKind::InvalidData
        | ErrorKind::InvalidInput
        | ErrorKind::NotFound => Failure::rule(reasons::UNOPENED),
    }
}

/// Replaces the file of a package that is claimed, as `replace_file` does.
///
/// # Errors
/// Fails as `replace_file` does. Then the old file is as it was.
pub fn replace_package(rt: &System, claim: &Claim, bytes: &FileBytes) -> Result<(), Failure> {
    replace_file(rt, claim, bytes.bytes.as_slice())
}

/// Makes the file of a package, as `write_file` does.
///
/// # Errors
/// Fails as `write_file` does. Then an old file is as it was, and no other is left.
pub fn write_package(
    rt: &System,
    path: &str,
    is_forced: bool,
    bytes: &FileBytes,
) -> Result<(), Failure> {
    write_file(rt, path, is_forced, bytes.bytes.as_slice())
}

/// Returns the number of the page that these bytes name for the package's database.
///
/// # Errors
/// Fails if memory is refused.
pub fn named_page(alloc: Global, bytes: &FileBytes) -> Result<Option<i32>, Error> {
    page_in(alloc, bytes.bytes.as_slice())
}
