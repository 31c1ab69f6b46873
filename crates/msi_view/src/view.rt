//! A package that is looked at.

ghost use Rattle.std.specs.Prelude.{◌≡◌, ℕ, List, [], ◌∷◌, ◌++◌, ◌⊎◌, Err, IfErr, IfOk, IsErrOf, Ok, OnErr, OnOk, Some};
ghost use Rattle.std.specs.Prelude.{IsOk, MatchOption, not, true, is_none, is_some, map, option_map, unwrap_or, ◌&&◌};
ghost use Rattle.std.specs.Option.{option_copied};
ghost use Rattle.std.specs.FinMap.{entries};
ghost use Rattle.std.specs.Io.KnownBytes.{Appends};
ghost use Rattle.msi_base.specs.declared.errors.ErrorKind.TheVariants.{InvalidData, InvalidInput, Io, NotFound};
ghost use Rattle.msi_base.specs.declared.errors.ErrorKind.TheVariants.{OutOfMemory};
ghost use Rattle.msi_base.specs.Faults.{AppendsPart};
ghost use Rattle.msi_base.specs.Refusals.{AnswersFirst, IsRefusal, first_refusal, unless_refused};
ghost use Rattle.msi_container_device.specs.Held.{bytes_told};
ghost use Rattle.msi_container_format.specs.declared.contents.Contents as held;
ghost use Rattle.msi_container_format.specs.Container.{Holds};
ghost use Rattle.msi_container_view.specs.Reading.{IsReadRefusal, Tells};
ghost use Rattle.msi_container_view.specs.Views.{ReadsTables, contents_in, extents_at};
ghost use Rattle.msi_database_changes.specs.Database.{values_of};
ghost use Rattle.msi_database_schema.specs.Keys.{is_stream_name, signature_key as signature_of, stream_key};
ghost use Rattle.msi_database_schema.specs.Keys.{summary_key as summary_name, table_key as key_of};
ghost use Rattle.msi_database_storage.specs.Streams.{stream_at};
ghost use Rattle.msi_pool.specs.Pool.{Pool};
ghost use Rattle.msi_query.specs.Selected.{Selects};
ghost use Rattle.msi_query.specs.Selection.{relation_of};
ghost use Rattle.msi_table.specs.Tables.{TableDef};
ghost use Rattle.msi_view.specs.Looking.{IsCatalog, IsPartRefusal, ReadsStreams, bytes_counted, catalog_names};
ghost use Rattle.msi_view.specs.Looking.{database_seen, extents_named, pool_names, root_in, table_steps, tables_read};
ghost use Rattle.msi.specs.Kinds.{clsid_of};
ghost use Rattle.msi.specs.Meaning.{RawPoolIs, SummaryIs, has_pool, has_summary, has_texts, reads_pool, reads_summary};
ghost use Rattle.msi.specs.Meaning.{reads_texts};

use crate::catalog::{Catalog, look, look_for, read_pool};
use msi::compound::Name;
use msi::parts::{accepted_key, checked_key};
use msi::{CodePage, PackageType, Rows, Seekable, Select, Source, SummaryInfo, Table, reasons};
use msi_base::{Error, ErrorKind, Items};
use msi_container_view::{ContainerView, Extent, Located, byte_count};
use msi_database_schema::names::{signature_key, summary_key};
use msi_query_rows::select_rows;
use msi_summary::parts::summary_of;
use std::alloc::Global;
use std::io::Write;
use std::marker::Model;

/// A package over a source that can be read from any place on, for those who only look: the directory of the container
/// is known, and each part is read when it is asked for, by itself. So a package whose summary is spoiled still shows
/// its tables, and one whose tables are spoiled its streams. Contracts see the container.
///
/// If another program changes the file meanwhile, each answer is that of some bytes, or an error.
pub struct View<S: Source> {
    pub(crate) container: ContainerView<S>,
    pub(crate) alloc: Global,
    pub(crate) catalog: Option<Catalog>,
}

/// Written out, so that a function that owns one calls one drop, and its proof doesn't go through those of the parts.
impl<S: Source + Drop> Drop for View<S> {
    fn drop(self) {
        let View {
            container: _,
            alloc: _,
            catalog: _,
        } = self;
    }
}

impl<S: Source> Model for View<S> {
    ghost use Rattle.msi_container_view.specs.Views.{View};
    ghost use Rattle.msi_view.specs.Looking.{IsLook};

    ghost Value = { View };

    ghost view = { λ v. v.container };

    ghost invariant = { λ v. IsLook v.container v.catalog };
}

impl<S: Source> View<S> {
    /// Returns the type of the package.
    ///
    /// # Errors
    /// Fails with `InvalidData` if the root's CLSID is that of no package.
    pub fn package_type(&self) -> Result<PackageType, Error>
        ensures ok { IfOk result (λ kind. self.now.clsid ≡ clsid_of kind) }
        ensures kind { IfErr result (λ kind. (kind ≡ InvalidData)
            × ((k : PackageType) → self.now.clsid ≡ clsid_of k → ⊥)) }
    {
        match PackageType::from_clsid(self.container.clsid()) {
            Some(kind) => Ok(kind),
            None => Err(Error::new(ErrorKind::InvalidData, reasons::NO_KIND)),
        }
    }

    /// Returns whether there are storages below the root. They aren't entered.
    pub fn has_storages(&self) -> bool
        ensures { result ≡ self.now.has_storages }
    {
        self.container.has_storages()
    }

    /// Fails if there are storages below the root, since such a package is only read.
    ///
    /// # Errors
    /// Fails with `InvalidInput` if there are.
    pub fn check_storages(&self) -> Result<(), Error>
        ensures { result ≡ unless_refused ((self.now.has_storages, InvalidInput) ∷ []) tt }
    {
        if self.has_storages() {
            return Err(Error::new(ErrorKind::InvalidInput, reasons::STORAGES));
        }
        Ok(())
    }

    /// Returns whether the package has a digital signature. It isn't checked.
    pub fn has_digital_signature(&self) -> bool
        ensures { result ≡ is_some (extents_at signature_of self.now.streams) }
    {
        self.container.streams().get(&signature_key()).is_some()
    }

    /// Returns where the streams of the root lie, by the container's names: those of tables, summary and signature
    /// among them.
    pub fn streams(&self) -> &Located
        ensures { entries result.now ≡ self.now.streams }
    {
        self.container.streams()
    }

    fn extents_of_stream(&self, name: &str) -> Option<&Items<Extent>>
        ensures { option_copied result ≡ extents_named name.now self.now.streams }
    {
        match accepted_key(name) {
            Some(key) => self.container.streams().get(&key),
            None => None,
        }
    }

    /// Returns whether there is a stream of this name, as [`Package::has_stream`](msi::Package::has_stream) does. It
    /// takes no memory.
    pub fn has_stream(&self, name: &str) -> bool
        ensures { result ≡ (is_stream_name name.now && is_some (extents_at (stream_key name.now) self.now.streams)) }
    {
        self.extents_of_stream(name).is_some()
    }

    /// Returns how many bytes the stream of this name has, or nothing where there is none or no stream may have the
    /// name. It takes no memory.
    pub fn stream_size(&self, name: &str) -> Option<u64>
        ensures { result ≡ option_map bytes_counted (extents_named name.now self.now.streams) }
    {
        match self.extents_of_stream(name) {
            Some(extents) => Some(byte_count(extents.as_slice())),
            None => None,
        }
    }

    /// Returns how many bytes were read of the source.
    pub fn bytes_read(&self) -> u64
        ensures { result ≡ self.now.bytes_read }
    {
        self.container.bytes_read()
    }

    /// Returns the source. It takes no memory.
    pub fn into_reader(self) -> S
        ensures { S.held result ≡ self.held }
    {
        let View {
            container,
            alloc: _,
            catalog: _,
        } = self;
        container.into_source()
    }
}

impl<S: Seekable + Drop> View<S> {
    /// Looks at the package that a source holds: its header, the tables of its sectors and its directory are read, and
    /// no byte of a stream.
    ///
    /// # Errors
    /// Fails with `InvalidData` if the bytes are no compound file, with `Io` if a call of the source fails, or with
    /// `OutOfMemory`. The source is dropped.
    pub fn open(alloc: Global, source: S) -> Result<View<S>, Error>
        ensures told { IfOk result (λ view. bytes_told view.held ≡ bytes_told (S.held source)) }
        ensures found { IfOk result (λ view. (file : List ℕ) → Tells (S.held source) file
            → Holds file (contents_in file view)) }
        ensures read { IfOk result (λ view. (file : List ℕ) → Tells (S.held source) file
            → ReadsTables file view.bytes_read) }
        ensures invalid { IsErrOf result InvalidData → (file : List ℕ) → Tells (S.held source) file
            → (contents : held.Contents) → Holds file contents → ⊥ }
        ensures kinds { IfErr result (λ kind. (kind ≡ InvalidData) ⊎ IsReadRefusal S.can_fail kind) }
    {
        Ok(View {
            container: ContainerView::open(alloc, source)?,
            alloc,
            catalog: None,
        })
    }

    /// Returns the summary. Only its stream is read.
    ///
    /// # Errors
    /// Fails with `NotFound` if the summary's stream is missing, and with `InvalidData` if it encodes no summary; with
    /// `Io` if a call of the source fails, or with `OutOfMemory`.
    pub fn summary_info(&mut self) -> Result<SummaryInfo, Error>
        ensures reads { ReadsStreams self.old self.new (summary_name ∷ []) }
        ensures ok { IfOk result (λ summary. (file : List ℕ) → Tells self.old.held file
            → SummaryIs (root_in file self.old) summary) }
        ensures kind { IfErr result (IsPartRefusal S.can_fail self.old (has_summary ∷ reads_summary ∷ [])) }
        ensures early { AnswersFirst ((is_none (extents_at summary_name self.old.streams), NotFound) ∷ []) result }
        ensures missing { IsErrOf result NotFound → is_none (extents_at summary_name self.old.streams) ≡ true }
    {
        let Some(bytes) = self.container.read(self.alloc, &summary_key())? else {
            return Err(Error::new(ErrorKind::NotFound, reasons::NO_SUMMARY));
        };
        summary_of(self.alloc, bytes.as_slice())
    }

    /// Returns the code page of the texts of the database. The streams of the pool are read, unless they were read
    /// before.
    ///
    /// # Errors
    /// Fails with `NotFound` if a stream of the pool is missing, and with `InvalidData` if one doesn't have its form;
    /// with `Io` if a call of the source fails, or with `OutOfMemory`.
    pub fn database_codepage(&mut self) -> Result<CodePage, Error>
        ensures reads { ReadsStreams self.old self.new pool_names }
        ensures ok { IfOk result (λ page. (file : List ℕ) → Tells self.old.held file
            → (pool : Pool) × RawPoolIs (root_in file self.old) pool × (page ≡ pool.page)) }
        ensures kind { IfErr result (IsPartRefusal S.can_fail self.old
            (has_pool ∷ reads_pool ∷ has_texts ∷ reads_texts ∷ [])) }
    {
        if let Some(catalog) = &self.catalog {
            return Ok(catalog.pool.codepage());
        }
        let pool = read_pool(self.alloc, &mut self.container)?;
        Ok(pool.codepage())
    }

    /// Reads the streams of the pool and of the system tables, unless they were read before.
    ///
    /// # Errors
    /// Fails with `NotFound` if a stream of the pool is missing, and with `InvalidData` if one doesn't have its form,
    /// if a system table can't be read, or if they describe no tables; with `Io` if a call of the source fails, or with
    /// `OutOfMemory`.
    pub fn load_tables(&mut self) -> Result<(), Error>
        ensures ok { OnOk result ((file : List ℕ) → Tells self.old.held file
            → (pool : Pool) × (tables : List TableDef) × IsCatalog (root_in file self.old) pool tables) }
        ensures reads { ReadsStreams self.old self.new catalog_names }
        ensures kind { IfErr result (IsPartRefusal S.can_fail self.old table_steps) }
    {
        look(self.alloc, &mut self.container, &mut self.catalog)
    }

    /// Reads, as `load_tables` does, and also the streams of the tables that a query is for.
    ///
    /// # Errors
    /// Fails as `load_tables` does.
    pub fn load_rows(&mut self, query: &Select) -> Result<(), Error>
        ensures ok { OnOk result ((file : List ℕ) → Tells self.old.held file
            → (pool : Pool) × (tables : List TableDef) × IsCatalog (root_in file self.old) pool tables) }
        ensures reads { ReadsStreams self.old self.new
            (catalog_names ++ map key_of (tables_read query.now)) }
        ensures kind { IfErr result (IsPartRefusal S.can_fail self.old table_steps) }
    {
        look_for(self.alloc, &mut self.container, &mut self.catalog, query)
    }

    /// Returns the tables, by name in the order of their bytes. It reads as `load_tables` does.
    ///
    /// # Errors
    /// Fails as `load_tables` does.
    pub fn tables(&mut self) -> Result<&[Table], Error>
        ensures ok { IfOk result (λ tables. (file : List ℕ) → Tells self.old.held file
            → (pool : Pool) × IsCatalog (root_in file self.old) pool tables.now) }
        ensures kind { IfErr result (IsPartRefusal S.can_fail self.old table_steps) }
    {
        look(self.alloc, &mut self.container, &mut self.catalog)?;
        match &self.catalog {
            Some(catalog) => Ok(catalog.tables.as_slice()),
            None => unreachable!(),
        }
    }

    /// Returns the rows that a query selects, as [`Package::select_rows`](msi::Package::select_rows) does. It reads as
    /// `load_rows` does.
    ///
    /// # Errors
    /// Fails as `load_rows` does, and then as the query of a package.
    pub fn select_rows(&mut self, query: &Select) -> Result<Rows<'_>, Error>
        ensures ok { IfOk result (λ rows. (file : List ℕ) → Tells self.old.held file
            → (pool : Pool) × (tables : List TableDef) × IsCatalog (root_in file self.old) pool tables
            × Selects (relation_of (values_of (database_seen (root_in file self.old) pool tables)) query.now) rows) }
        ensures kind { IfErr result (λ kind. IsPartRefusal S.can_fail self.old table_steps kind
            ⊎ ((file : List ℕ) → Tells self.old.held file
            → (pool : Pool) × (tables : List TableDef) × IsCatalog (root_in file self.old) pool tables
            × IsRefusal (relation_of (values_of (database_seen (root_in file self.old) pool tables)) query.now) kind)) }
    {
        look_for(self.alloc, &mut self.container, &mut self.catalog, query)?;
        match &self.catalog {
            Some(catalog) => select_rows(self.alloc, &catalog.pool, catalog, query),
            None => unreachable!(),
        }
    }

    /// Writes the bytes of the stream of this name to a writer, in pieces of at most 1 MiB. Only that stream is read.
    ///
    /// # Errors
    /// Fails with `InvalidInput` if no stream may have this name, and otherwise with `NotFound` if there is none; if
    /// neither applies, with `Io` if a call of the source or the writer fails, or with `OutOfMemory`. Then a prefix of
    /// the bytes may have been written.
    pub fn read_stream<W: Write>(&mut self, name: &str, to: &mut W) -> Result<(), Error>
        ensures reads { ReadsStreams self.old self.new (stream_key name.now ∷ []) }
        ensures ok { OnOk result ((file : List ℕ) → Tells self.old.held file
            → MatchOption (stream_at (stream_key name.now) (root_in file self.old)) ⊥
            (λ bytes. Appends (W.contents to.old) (W.contents to.new) bytes)) }
        ensures part { OnErr result ((file : List ℕ) → Tells self.old.held file → AppendsPart (W.contents to.old)
            (W.contents to.new) (unwrap_or (stream_at (stream_key name.now) (root_in file self.old)) [])) }
        ensures early { AnswersFirst ((not (is_stream_name name.now), InvalidInput)
            ∷ (is_none (extents_at (stream_key name.now) self.old.streams), NotFound) ∷ []) result }
        ensures kind { IfErr result (λ kind. (kind ≡ Io) ⊎ (kind ≡ OutOfMemory)
            ⊎ (first_refusal ((not (is_stream_name name.now), InvalidInput)
            ∷ (is_none (extents_at (stream_key name.now) self.old.streams), NotFound) ∷ []) ≡ Some kind)) }
    {
        let key = checked_key(name)?;
        if !self.container.copy(self.alloc, &key, to)? {
            return Err(Error::new(ErrorKind::NotFound, reasons::NO_STREAM));
        }
        Ok(())
    }

    /// Writes the bytes of the stream that has this container's name to a writer, in pieces of at most 1 MiB, and
    /// returns whether there is one: any stream of the root, a table's, the summary's or the signature's among them.
    /// Only that stream is read.
    ///
    /// # Errors
    /// Fails with `Io` if a call of the source or the writer fails, or with `OutOfMemory`; never where there is no such
    /// stream. Then a prefix of the bytes may have been written.
    pub fn copy_stream<W: Write>(&mut self, name: &Name, to: &mut W) -> Result<bool, Error>
        ensures reads { ReadsStreams self.old self.new (name.now ∷ []) }
        ensures there { IfOk result (λ there. there ≡ is_some (extents_at name.now self.old.streams)) }
        ensures ok { OnOk result ((file : List ℕ) → Tells self.old.held file → Appends (W.contents to.old)
            (W.contents to.new) (unwrap_or (stream_at name.now (root_in file self.old)) [])) }
        ensures part { OnErr result ((file : List ℕ) → Tells self.old.held file → AppendsPart (W.contents to.old)
            (W.contents to.new) (unwrap_or (stream_at name.now (root_in file self.old)) [])) }
        ensures missing { is_none (extents_at name.now self.old.streams) ≡ true → IsOk result }
        ensures kinds { IfErr result (λ kind. (kind ≡ Io) ⊎ (kind ≡ OutOfMemory)) }
    {
        self.container.copy(self.alloc, name, to)
    }
}
