//! Streams that a package lists and doesn't find, since their names are stored in another form than the installer's, or
//! have characters that no stream's name may have.

use crate::package_view::PackageView;
use crate::writing::Watched;
use msi::compound::Name;
use msi::{Error, streamname};
use msi_view::byte_count;
use msipkg_format::Failure;
use msipkg_packages::PackageTables;
use std::alloc::Global;
use std::collections::BTreeMap;
use std::io::Write;

/// The names of streams as they are stored, by their texts.
pub struct StoredNames {
    names: BTreeMap<String, Name>,
}

/// Written out, so that a function that owns one calls one drop, and its proof doesn't go through those of the parts.
impl Drop for StoredNames {
    fn drop(self) {
        let StoredNames { names: _ } = self;
    }
}

impl PackageView {
    /// Returns the names of streams as they are stored, if there is a stream that isn't found under its name.
    ///
    /// # Errors
    /// Fails if memory is refused.
    pub fn stored_names(&self) -> Result<Option<StoredNames>, Error> {
        if !self.has_hidden()? {
            return Ok(None);
        }
        let mut names = BTreeMap::new(self.alloc);
        for (name, _) in self.view.streams().iter() {
            add_name(self.alloc, name, &mut names)?;
        }
        Ok(Some(StoredNames { names }))
    }

    /// Returns whether a stream isn't found under its name.
    fn has_hidden(&self) -> Result<bool, Error> {
        for name in &self.stream_names()? {
            if !self.has_stream(name.as_str()) {
                return Ok(true);
            }
        }
        Ok(false)
    }

    /// Returns how many bytes a stream has, which may be one that isn't found under its name.
    ///
    /// # Errors
    /// Fails as `Package::read_stream` does, if it isn't among the stored ones either.
    pub fn stream_length(
        &mut self,
        stored: Option<&StoredNames>,
        name: &str,
    ) -> Result<u64, Error> {
        if let Some(length) = self.view.stream_size(name) {
            return Ok(length);
        }
        match stored.and_then(|stored| stored.names.get(name)) {
            Some(name) => Ok(self.length_at(name)),
            None => {
                // Says why there is none.
                self.view.read_stream(name, &mut Vec::new(self.alloc))?;
                Ok(0)
            }
        }
    }

    fn length_at(&self, name: &Name) -> u64 {
        match self.view.streams().get(name) {
            Some(extents) => byte_count(extents.as_slice()),
            None => 0,
        }
    }

    /// Writes the bytes of a stream, which may be one that isn't found under its name, in pieces.
    ///
    /// # Errors
    /// Fails as `Package::read_stream` does, if it isn't among the stored ones either; if the file can't be read, and
    /// as the writer does. Then some of the bytes may have been written.
    pub fn copy_stream<W: Write>(
        &mut self,
        stored: Option<&StoredNames>,
        name: &str,
        to: &mut W,
    ) -> Result<(), Failure> {
        let mut watched = Watched::new(to);
        let copied = self.copy_stored(stored, name, &mut watched);
        match (copied, watched.into_failure()) {
            (Ok(()), _) => Ok(()),
            (Err(_), Some(failure)) => Err(Failure::from(failure)),
            (Err(error), None) => Err(Failure::from(error)),
        }
    }

    fn copy_stored<W: Write>(
        &mut self,
        stored: Option<&StoredNames>,
        name: &str,
        to: &mut W,
    ) -> Result<(), Error> {
        if self.has_stream(name) {
            return self.view.read_stream(name, to);
        }
        match stored.and_then(|stored| stored.names.get(name)) {
            Some(name) => {
                self.view.copy_stream(name, to)?;
                Ok(())
            }
            None => self.view.read_stream(name, to),
        }
    }

    /// Returns the bytes of a stream, as `copy_stream` writes them.
    ///
    /// # Errors
    /// Fails as `copy_stream` does.
    pub fn stream_bytes(
        &mut self,
        stored: Option<&StoredNames>,
        name: &str,
    ) -> Result<Vec<u8>, Failure> {
        let mut bytes = Vec::new(self.alloc);
        self.copy_stream(stored, name, &mut bytes)?;
        Ok(bytes)
    }
}

/// Adds a name by its text, unless it is that of a table.
fn add_name(alloc: Global, name: &Name, names: &mut BTreeMap<String, Name>) -> Result<(), Error> {
    let (text, is_table) = streamname::decode(alloc, name.to_text(alloc)?.as_str())?;
    if !is_table {
        names.insert(text, name.duplicate())?;
    }
    Ok(())
}
