//! A container over a source, whose streams are read when they are asked for.

ghost use Rattle.std.specs.Prelude.{◌≡◌, ℕ, List, [], ◌⊎◌, IfErr, IfOk, IsErrOf, IsOk, OnErr};
ghost use Rattle.std.specs.Prelude.{is_none, is_some, option_map, true, unwrap_or};
ghost use Rattle.std.specs.Option.{option_map_or};
ghost use Rattle.std.specs.FinMap as finite;
ghost use Rattle.std.specs.Io.KnownBytes.{Appends};
ghost use Rattle.msi_base.specs.Faults.{AppendsPart};
ghost use Rattle.msi_base.specs.declared.errors.ErrorKind.TheVariants.{InvalidData, Io, OutOfMemory};
ghost use Rattle.msi_container_device.specs.Held.{bytes_told};
ghost use Rattle.msi_container_format.specs.declared.contents.Contents as held;
ghost use Rattle.msi_container_format.specs.Container.{Holds};
ghost use Rattle.msi_container_view.specs.Extents.{size_of};
ghost use Rattle.msi_container_view.specs.Reading.{IsReadRefusal, Tells};
ghost use Rattle.msi_container_view.specs.Views.{ReadsMore, ReadsTables, contents_in, extents_at, streams_at};

use crate::counted::Counted;
use crate::extents::Extent;
use crate::located::Located;
use crate::outline::look_outline;
use crate::pieces::{copy_extents, read_extents};
use crate::tables::Tables;
use msi_base::Error;
use msi_container_device::{Seekable, Source};
use msi_container_format::name::Name;
use msi_container_tables::{sector_size, usable_sectors};
use std::alloc::Global;
use std::io::Write;
use std::marker::Model;

/// A compound file of version 3 or 4 (MS-CFB 2) over a source: its directory is known, and each stream is read when it
/// is asked for. Contracts see what the root is, where the streams lie, what the source holds, and how many of its
/// bytes were read.
///
/// If another program changes the file meanwhile, each answer is that of some bytes, or an error.
pub struct ContainerView<S: Source> {
    reading: Counted<S>,
    clsid: [u8; 16],
    has_storages: bool,
    streams: Located,
}

impl<S: Source + Drop> Drop for ContainerView<S> {
    fn drop(self) {
        let ContainerView {
            reading: _,
            clsid: _,
            has_storages: _,
            streams: _,
        } = self;
    }
}

impl<S: Source> Model for ContainerView<S> {
    ghost use Rattle.std.specs.FinMap.{entries};
    ghost use Rattle.msi_container_view.specs.Views.{IsView, View};

    ghost Value = { View };

    ghost view = { λ v. record {
      clsid = v.clsid;
      has_storages = v.has_storages;
      streams = entries v.streams;
      held = v.reading.held;
      bytes_read = v.reading.bytes_read;
    } };

    ghost invariant = { λ v. IsView (record {
      clsid = v.clsid;
      has_storages = v.has_storages;
      streams = entries v.streams;
      held = v.reading.held;
      bytes_read = v.reading.bytes_read;
    }) };
}

impl<S: Source> ContainerView<S> {
    /// Returns the root's CLSID, as it is stored.
    pub fn clsid(&self) -> &[u8; 16]
        ensures { result.now ≡ self.now.clsid }
    {
        &self.clsid
    }

    /// Returns whether storages lie below the root. They aren't entered.
    pub fn has_storages(&self) -> bool
        ensures { result ≡ self.now.has_storages }
    {
        self.has_storages
    }

    /// Returns where the streams of the root lie.
    pub fn streams(&self) -> &Located
        ensures { finite.entries result.now ≡ self.now.streams }
    {
        &self.streams
    }

    /// Returns how many bytes were read of the source.
    pub fn bytes_read(&self) -> u64
        ensures { result ≡ self.now.bytes_read }
    {
        self.reading.bytes_read()
    }

    /// Tells what every view keeps to: the bytes that the source tells hold what is looked at. It does nothing.
    pub fn kept(&self)
        ensures { (file : List ℕ) → Tells self.now.held file → Holds file (contents_in file self.now) }
    {
        let _has_storages = self.has_storages;
    }

    /// Returns the source. It takes no memory.
    pub fn into_source(self) -> S
        ensures { S.held result ≡ self.held }
    {
        let ContainerView {
            reading,
            clsid: _,
            has_storages: _,
            streams: _,
        } = self;
        reading.into_source()
    }
}

impl<S: Seekable + Drop> ContainerView<S> {
    /// Reads the header, the DIFAT, the FAT, the directory and the mini FAT of a compound file, but no stream.
    ///
    /// # Errors
    /// Fails with `InvalidData` if the bytes hold no container: exactly where
    /// [`read`](msi_container_read::read) of all of them does. Fails with `Io` if a call of the source fails, or with
    /// `OutOfMemory`. The source is dropped.
    pub fn open(alloc: Global, source: S) -> Result<ContainerView<S>, Error>
        ensures told { IfOk result (λ view. bytes_told view.held ≡ bytes_told (S.held source)) }
        ensures found { IfOk result (λ view. (file : List ℕ) → Tells (S.held source) file
            → Holds file (contents_in file view)) }
        ensures read { IfOk result (λ view. (file : List ℕ) → Tells (S.held source) file
            → ReadsTables file view.bytes_read) }
        ensures invalid { IsErrOf result InvalidData → (file : List ℕ) → Tells (S.held source) file
            → (contents : held.Contents) → Holds file contents → ⊥ }
        ensures kinds { IfErr result (λ kind. (kind ≡ InvalidData) ⊎ IsReadRefusal S.can_fail kind) }
    {
        let mut reading = Counted::new(source);
        let len = reading.length()?;
        let mut tables = Tables::open(alloc, reading)?;
        let limit = usable_sectors(len, sector_size(tables.copy()));
        let outline = look_outline(alloc, &mut tables, limit)?;
        let clsid = outline.clsid;
        Ok(ContainerView {
            reading: tables.into_reading(),
            clsid,
            has_storages: outline.has_storages,
            streams: outline.streams,
        })
    }

    /// Returns the bytes of the stream of a name, if there is one.
    ///
    /// # Errors
    /// Fails with `Io` if a call of the source fails, or with `OutOfMemory`; never where there is no such stream. Then
    /// nothing has changed but for the source's position.
    pub fn read(&mut self, alloc: Global, name: &Name) -> Result<Option<Vec<u8>>, Error>
        ensures there { IfOk result (λ found. is_some found ≡ is_some (extents_at name.now self.old.streams)) }
        ensures ok { IfOk result (λ found. (file : List ℕ) → Tells self.old.held file
            → option_map (λ v. v.items) found ≡ finite.get (streams_at file self.old.streams) name.now) }
        ensures missing { is_none (extents_at name.now self.old.streams) ≡ true → IsOk result }
        ensures same { ReadsMore self.old self.new
            (option_map_or size_of (extents_at name.now self.old.streams) 0) }
        ensures kinds { IfErr result (IsReadRefusal S.can_fail) }
    {
        match self.streams.get(name) {
            Some(extents) => {
                let bytes = read_extents(alloc, &mut self.reading, extents.as_slice())?;
                Ok(Some(bytes))
            }
            None => Ok(None),
        }
    }

    /// Writes the bytes of the stream of a name to a writer, in pieces of at most 1 MiB, and returns whether there is
    /// such a stream.
    ///
    /// # Errors
    /// Fails with `Io` if a call of the source or the writer fails, or with `OutOfMemory`; never where there is no such
    /// stream. Then a prefix of the bytes may have been written.
    pub fn copy<W: Write>(&mut self, alloc: Global, name: &Name, to: &mut W) -> Result<bool, Error>
        ensures there { IfOk result (λ there. there ≡ is_some (extents_at name.now self.old.streams)) }
        ensures ok { IfOk result (λ _. (file : List ℕ) → Tells self.old.held file
            → Appends (W.contents to.old) (W.contents to.new)
            (unwrap_or (finite.get (streams_at file self.old.streams) name.now) [])) }
        ensures part { OnErr result ((file : List ℕ) → Tells self.old.held file
            → AppendsPart (W.contents to.old) (W.contents to.new)
            (unwrap_or (finite.get (streams_at file self.old.streams) name.now) [])) }
        ensures missing { is_none (extents_at name.now self.old.streams) ≡ true → IsOk result }
        ensures same { ReadsMore self.old self.new
            (option_map_or size_of (extents_at name.now self.old.streams) 0) }
        ensures kinds { IfErr result (λ kind. (kind ≡ Io) ⊎ (kind ≡ OutOfMemory)) }
    {
        match self.streams.get(name) {
            Some(extents) => {
                copy_extents(alloc, &mut self.reading, extents.as_slice(), to)?;
                Ok(true)
            }
            None => Ok(false),
        }
    }
}
