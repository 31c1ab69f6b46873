//! Files that can be read from any place on, or their bytes.

ghost use Rattle.std.specs.Prelude.{IfErr, ◌≡◌, ◌⊎◌};
ghost use Rattle.msi_base.specs.declared.errors.ErrorKind.TheVariants.{Io, OutOfMemory};

use msi_base::Error;
use std::alloc::Global;
use std::io::{self, Cursor, Read, Seek, SeekFrom};

/// A file that can be read from any place on, or its bytes where it can't be, as a pipe.
#[derive(Drop)]
pub enum Readable<F> {
    File(F),
    Bytes(Cursor<Vec<u8>>),
}

impl<F: Read + Seek + Drop> Readable<F> {
    /// Returns a file as what can be read from any place on. One that can't be sought in is read to its end.
    ///
    /// # Errors
    /// Fails with `Io` if a file that can't be sought in can't be read either, or with `OutOfMemory`.
    pub fn of(alloc: Global, file: F) -> Result<Readable<F>, Error>
        ensures kind { IfErr result (λ kind. (kind ≡ Io) ⊎ (kind ≡ OutOfMemory)) }
    {
        let mut file = file;
        if file.seek(SeekFrom::End(0)).is_ok() {
            return Ok(Readable::File(file));
        }
        let mut bytes = Vec::new(alloc);
        file.read_to_end(&mut bytes)?;
        Ok(Readable::Bytes(Cursor::new(bytes)))
    }
}

impl<F: Read> Read for Readable<F> {
    fn read(&mut self, buf: &mut [u8]) -> io::Result<usize> {
        match self {
            Readable::File(file) => file.read(buf),
            Readable::Bytes(bytes) => bytes.read(buf),
        }
    }
}

impl<F: Seek> Seek for Readable<F> {
    fn seek(&mut self, to: SeekFrom) -> io::Result<u64> {
        match self {
            Readable::File(file) => file.seek(to),
            Readable::Bytes(bytes) => bytes.seek(to),
        }
    }
}
