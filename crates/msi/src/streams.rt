//! The streams of a package that belong to no table.

ghost use Rattle.std.specs.Prelude.{◌≡◌, ◌⊎◌, ◌∷◌, ◌++◌, [], IfErr, IfOk, None, OnErr, OnOk, Some, not};
ghost use Rattle.std.specs.Borrow.{sem};
ghost use Rattle.std.specs.FinMap as finite;
ghost use Rattle.std.specs.Option.{option_copied};
ghost use Rattle.msi_base.specs.declared.errors.ErrorKind.TheVariants.{InvalidInput, NotFound, OutOfMemory};
ghost use Rattle.msi_base.specs.Refusals.{AnswersFirst, first_refusal, unless_refused};
ghost use Rattle.msi_database_schema.specs.Keys.{is_stream_name, signature_key as signature_of, stream_key};
ghost use Rattle.msi_database_storage.specs.Streams.{has_stream_at, stream_at, without_stream};
ghost use Rattle.msi_streams.specs.Cursor.{at_start};
ghost use Rattle.msi.specs.Lending.{LendsStream};
ghost use Rattle.msi.specs.State.{parts_of};
ghost use Rattle.msi.specs.Steps.{bytes_of_stream, has_stream as has_one, name_refusals, storage_refusal, stream_names};
ghost use Rattle.msi.specs.Steps.{with_streams, without_signature};
ghost use Rattle.msi.specs.Whole.{with_state};

use crate::package::{Package, settle};
use crate::parts::{accepted_key, checked_key};
use crate::{OpenStream, StreamReader, StreamWriter, Streams, reasons};
use msi_base::errors::{Error, ErrorKind};
use msi_container_device::Source;
use msi_container_format::contents::{Bytes, StreamMap};
use msi_container_format::name::Name;
use msi_database_schema::names::{signature_ex_key, signature_key};

impl<F: Source> Package<F> {
    /// Returns whether there is a stream of this name. It takes no memory.
    pub fn has_stream(&self, name: &str) -> bool
        ensures { result ≡ has_one (parts_of self.now.state) name.now }
    {
        match accepted_key(name) {
            Some(key) => self.contains(&key),
            None => false,
        }
    }

    /// Returns the names of the streams, in the container's order: of those that hold no table, summary or signature.
    pub fn streams(&self) -> Streams<'_>
        ensures { result ≡ stream_names (parts_of self.now.state) }
    {
        Streams::new(self.alloc, self.database.streams())
    }

    /// Returns whether the package has a digital signature. It isn't checked.
    pub fn has_digital_signature(&self) -> bool
        ensures { result ≡ has_stream_at signature_of (parts_of self.now.state).streams }
    {
        self.contains(&signature_key())
    }

    /// Returns a reader of the stream of this name, at its first byte. It takes no memory.
    ///
    /// # Errors
    /// Fails with `InvalidInput` if no stream may have this name, and otherwise with `NotFound` if there is none.
    pub fn read_stream(&self, name: &str) -> Result<StreamReader<'_>, Error>
        ensures start { IfOk result (λ reader. reader ≡ at_start (bytes_of_stream (parts_of self.now.state) name.now)) }
        ensures accepted { OnOk result (first_refusal ((not (is_stream_name name.now), InvalidInput)
            ∷ (not (has_one (parts_of self.now.state) name.now), NotFound) ∷ []) ≡ None) }
        ensures kind { IfErr result (λ kind. first_refusal ((not (is_stream_name name.now), InvalidInput)
            ∷ (not (has_one (parts_of self.now.state) name.now), NotFound) ∷ []) ≡ Some kind) }
    {
        let key = checked_key(name)?;
        match self.bytes_at(&key) {
            Some(bytes) => Ok(StreamReader::new(bytes)),
            None => Err(Error::new(ErrorKind::NotFound, reasons::NO_STREAM)),
        }
    }

    /// Creates the stream of this name, or empties it, and returns a writer at its first byte. What the caller leaves
    /// in it is the stream.
    ///
    /// # Errors
    /// Fails with `InvalidInput` if storages lie below the root, and if no stream may have this name. Otherwise it
    /// fails with `OutOfMemory`, which never comes in place of that. Then nothing has changed.
    pub fn write_stream(&mut self, name: &str) -> Result<StreamWriter<'_>, Error>
        ensures* writes_back { sem 𝓛 (LendsStream F.row F.Source name.now self.entry result) }
        ensures start { IfOk result (λ writer. writer.now ≡ at_start []) }
        ensures accepted { OnOk result (first_refusal (name_refusals (parts_of self.old.state) name.now) ≡ None) }
        ensures kind { IfErr result (λ kind.
            (kind ≡ OutOfMemory) ⊎ (first_refusal (name_refusals (parts_of self.old.state) name.now) ≡ Some kind)) }
        ensures early { AnswersFirst (name_refusals (parts_of self.old.state) name.now) result }
    {
        self.check_storages()?;
        let key = checked_key(name)?;
        settle(&mut self.database, &mut self.open, &mut self.current);
        let empty = Bytes::from_vec(Vec::new(self.alloc));
        self.database.replace_stream(key.duplicate(), empty)?;
        self.is_unwritten = true;
        self.open = Some(key);
        self.current = OpenStream::new(self.alloc);
        Ok(&mut self.current)
    }

    /// Removes the stream of this name. It takes no memory.
    ///
    /// # Errors
    /// Fails with `InvalidInput` if storages lie below the root, and if no stream may have this name, and otherwise
    /// with `NotFound` if there is none. Then nothing has changed.
    pub fn remove_stream(&mut self, name: &str) -> Result<(), Error>
        ensures kind { let p = parts_of self.old.state in result ≡ unless_refused
            (name_refusals p name.now ++ (not (has_one p name.now), NotFound) ∷ []) tt }
        ensures ok { let edit = without_stream (stream_key name.now) in
            OnOk result (self.new ≡ with_state (with_streams edit self.old.state) self.old) }
        ensures same { OnErr result (self.new ≡ self.old) }
    {
        self.check_storages()?;
        let key = checked_key(name)?;
        if !self.contains(&key) {
            return Err(Error::new(ErrorKind::NotFound, reasons::NO_STREAM));
        }
        settle(&mut self.database, &mut self.open, &mut self.current);
        self.database.remove_stream(&key);
        self.is_unwritten = true;
        Ok(())
    }

    /// Removes the digital signature, with the stream that extends it, if they are there. It takes no memory.
    ///
    /// # Errors
    /// Fails with `InvalidInput` if storages lie below the root; then nothing has changed.
    pub fn remove_digital_signature(&mut self) -> Result<(), Error>
        ensures kind { result ≡ unless_refused (storage_refusal (parts_of self.old.state)) tt }
        ensures ok { OnOk result (self.new ≡ with_state (with_streams without_signature self.old.state) self.old) }
        ensures same { OnErr result (self.new ≡ self.old) }
    {
        self.check_storages()?;
        settle(&mut self.database, &mut self.open, &mut self.current);
        self.database.remove_stream(&signature_ex_key());
        self.database.remove_stream(&signature_key());
        self.is_unwritten = true;
        Ok(())
    }

    /// The open stream counts too.
    fn contains(&self, key: &Name) -> bool
        ensures { result ≡ has_stream_at key.now self.now.state.kept.streams }
    {
        self.database.streams().contains(key)
    }

    fn bytes_at(&self, key: &Name) -> Option<&[u8]>
        ensures { option_copied result ≡ stream_at key.now self.now.state.kept.streams }
    {
        match &self.open {
            Some(open) => {
                if key == open {
                    Some(self.current.as_slice())
                } else {
                    bytes_of(self.database.streams(), key)
                }
            }
            None => bytes_of(self.database.streams(), key),
        }
    }
}

fn bytes_of<'a>(streams: &'a StreamMap, key: &Name) -> Option<&'a [u8]>
    ensures { option_copied result ≡ finite.get streams.now key.now }
{
    match streams.get(key) {
        Some(bytes) => Some(bytes.as_slice()),
        None => None,
    }
}
