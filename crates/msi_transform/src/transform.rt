//! Transforms as they are read from their files.

ghost use Rattle.std.specs.Prelude.{◌≡◌, ◌⊎◌, ◌∷◌, [], IfErr, IfOk, IsErrOf, IsTrue, Ok, OnErr, OnOk};
ghost use Rattle.std.specs.Prelude.{false, length, option_copied, true};
ghost use Rattle.std.specs.FinMap.{entries};
ghost use Rattle.msi_base.specs.Results.{OnlyMemory};
ghost use Rattle.msi_base.specs.declared.errors.ErrorKind.TheVariants.{InvalidInput, OutOfMemory};
ghost use Rattle.msi_container_format.specs.Container.{Holds};
ghost use Rattle.msi_container_format.specs.declared.contents.Contents.{Contents};
ghost use Rattle.msi_transform.specs.RecordsByTable.{by_text};
ghost use Rattle.msi_transform.specs.StoredPools.{PoolIs};
ghost use Rattle.msi_transform.specs.TransformFiles.{IsReadRefusal, IsTransform, ReadStopsAmong, ReadsTo};
ghost use Rattle.msi_transform.specs.TransformFiles.{keeps_texts as are_texts_kept, knows_clsid, pool_read_steps};
ghost use Rattle.msi_transform.specs.TransformFiles.{read_steps, transform_clsid, transform_in};
ghost use Rattle.msi_transform.specs.Transforms.{records_for};
ghost use Rattle.msi_transform.specs.WrittenTransforms.{AreWritten, HasNoFile, IsMade, as_neutral, is_unwritable};
ghost use Rattle.msi_transform.specs.WrittenTransforms.{neutral_id as id_if_neutral, with_summary};

use crate::kept_texts::keeps_texts;
use crate::reasons;
use crate::records_by_table::RecordsByTable;
use crate::stored_pool::{page_id_in, pool_in};
use crate::table_streams::take_records;
use crate::written::{check_names, put_pool};
use msi_base::codepage::CodePage;
use msi_base::errors::{Error, ErrorKind};
use msi_container_format::contents::{Bytes, Contents, StreamMap};
use msi_container_read::read_shared;
use msi_container_write::write;
use msi_database_schema::names::summary_key;
use msi_pool::parts::check_texts;
use msi_pool::stringpool::StringPool;
use std::alloc::Global;
use std::collections::btree_map;
use std::marker::Model;
use std::rc::Rc;

/// The CLSID of a transform's root, 000C1082-0000-0000-C000-000000000046, as a file has it.
pub const CLSID: [u8; 16] = [
    0x82, 0x10, 0x0C, 0, 0, 0, 0, 0, 0xC0, 0, 0, 0, 0, 0, 0, 0x46,
];

/// A transform, which says how one package becomes another: the records of each table, the texts to which they refer,
/// and the streams that they bring. Its streams share the bytes of its file.
#[derive(Drop)]
pub struct Transform {
    page_id: u32,
    pool: StringPool,
    tables: RecordsByTable,
    streams: StreamMap,
}

impl Model for Transform {
    ghost use Rattle.std.specs.FinMap.{entries};
    ghost use Rattle.msi_transform.specs.Transforms.{TransformDef};

    ghost Value = { TransformDef };

    ghost view = { λ t. record {
      page_id = t.page_id;
      pool = t.pool;
      tables = entries t.tables;
      streams = entries t.streams;
    } };
}

fn neutral_id(page: CodePage, page_id: u32) -> u32
    ensures { result ≡ id_if_neutral page page_id }
{
    if page == CodePage::Utf8 { 0 } else { page_id }
}

impl Transform {
    /// Reads a transform from the bytes of its file. They are freed once no stream is a part of them.
    ///
    /// # Errors
    /// Fails with the first of these that applies: `InvalidData` if the bytes are no compound file, or the root's CLSID
    /// isn't that of a transform; `NotFound` if the stream of the pool is missing, `InvalidData` if it doesn't have its
    /// form; `NotFound` if that of its texts is missing, `InvalidData` if it has no such texts; `InvalidData` if the
    /// page is UTF-8 and that stream doesn't begin with the texts as they are, since bytes that encode no character
    /// were read as U+FFFD. If none applies, it fails with `OutOfMemory`, which may also come in place of the others.
    pub fn read(alloc: Global, bytes: Vec<u8>) -> Result<Transform, Error>
        ensures ok { IfOk result (λ transform. ReadsTo bytes.items (Ok transform)) }
        ensures kind { IfErr result (IsReadRefusal bytes.items) }
    {
        let bytes = Rc::new(alloc, bytes)?;
        let contents = read_shared(alloc, bytes)?;
        Transform::of_contents(alloc, contents)
    }

    /// Reads a transform from the contents of its file, or of a storage that a package has.
    ///
    /// # Errors
    /// Fails as `read` does, but for what it says of compound files.
    pub fn of_contents(alloc: Global, contents: Contents) -> Result<Transform, Error>
        ensures ok { IfOk result (IsTransform contents) }
        ensures kind { IfErr result (ReadStopsAmong contents read_steps) }
    {
        check_clsid(&contents)?;
        let pool = kept_pool_in(alloc, &contents)?;
        transform_with(alloc, pool, contents.streams)
    }

    /// Returns a transform of these parts. `page_id` is the id of the pool's page, or 0 for UTF-8 where the page is to
    /// be neutral.
    pub fn from_parts(
        page_id: u32,
        pool: StringPool,
        tables: RecordsByTable,
        streams: StreamMap,
    ) -> Transform
        ensures parts { result ≡ record {
          page_id = page_id;
          pool = pool;
          tables = entries tables;
          streams = entries streams;
        } }
    {
        Transform {
            page_id,
            pool,
            tables,
            streams,
        }
    }

    /// Makes the page neutral if it is UTF-8: the transform then leaves the page of a package, and is for those of any.
    pub fn make_neutral(&mut self)
        ensures left { self.new ≡ as_neutral self.old }
        ensures made { IsMade self.old → IsMade self.new }
    {
        self.page_id = neutral_id(self.pool.codepage(), self.page_id);
    }

    /// Puts the stream of the summary among the others, in place of one that is there.
    ///
    /// # Errors
    /// Fails with `OutOfMemory`; then nothing has changed.
    pub fn set_summary(&mut self, bytes: Vec<u8>) -> Result<(), Error>
        ensures ok { OnOk result (self.new ≡ with_summary bytes.items self.old) }
        ensures made { OnOk result (IsMade self.old → IsMade self.new) }
        ensures same { OnErr result (self.new ≡ self.old) }
        ensures kind { OnlyMemory result }
    {
        self.streams.insert(summary_key(), Bytes::from_vec(bytes))?;
        Ok(())
    }

    /// Returns the contents of a file that holds the transform.
    ///
    /// # Errors
    /// Fails with `InvalidInput` if a table's name is none that a table may have, or the page can't encode a text in
    /// use, or its encoding has 2^32 bytes or more. Otherwise it fails with `OutOfMemory`.
    pub fn into_contents(self, alloc: Global) -> Result<Contents, Error>
        ensures ok { IfOk result (AreWritten self) }
        ensures writable { OnOk result (is_unwritable self ≡ false) }
        ensures refused { IsTrue (is_unwritable self) → IsErrOf result InvalidInput }
        ensures kind { IfErr result (λ kind.
            (kind ≡ OutOfMemory) ⊎ (kind ≡ InvalidInput) × IsTrue (is_unwritable self)) }
    {
        let Transform {
            page_id,
            pool,
            tables,
            streams,
        } = self;
        check_names(&tables)?;
        check_texts(&pool)?;
        let mut written = streams;
        tables.put_into(&mut written)?;
        put_pool(alloc, &mut written, page_id, &pool)?;
        Ok(Contents {
            clsid: CLSID,
            streams: written,
            has_storages: false,
        })
    }

    /// Returns the bytes of a file that holds the transform, which `read` reads as it. That presumes that the page has
    /// the id, that its texts can be written in the page and read back, that free places have none, and that none of
    /// the streams has the name of a table's.
    ///
    /// # Errors
    /// Fails with `InvalidInput` as `into_contents` does, or if the file would pass 2^31 bytes. Otherwise it fails with
    /// `OutOfMemory`.
    pub fn into_bytes(self, alloc: Global) -> Result<Vec<u8>, Error>
        ensures ok { IfOk result (λ image. (c : Contents) × AreWritten self c × Holds image.items c) }
        ensures reads { IsMade self → IfOk result (λ image. ReadsTo image.items (Ok self)) }
        ensures writable { OnOk result (is_unwritable self ≡ false) }
        ensures refused { IsTrue (is_unwritable self) → IsErrOf result InvalidInput }
        ensures kind { IfErr result (λ kind. (kind ≡ OutOfMemory) ⊎ (kind ≡ InvalidInput) × HasNoFile self) }
    {
        let contents = self.into_contents(alloc)?;
        write(alloc, &contents, 0)
    }

    /// Returns the id of the page as the transform stores it: it may be 0 for UTF-8, where the page is neutral.
    pub fn page_id(&self) -> u32
        ensures { result ≡ self.now.page_id }
    {
        self.page_id
    }

    /// Returns the texts to which the records refer.
    pub fn pool(&self) -> &StringPool
        ensures { result.now ≡ self.now.pool }
    {
        &self.pool
    }

    /// Returns the names of the tables that have records, with the bytes of these, in the order of names.
    pub fn tables(&self) -> btree_map::Iter<'_, String, Bytes>
        ensures rest { by_text result ≡ self.now.tables }
        ensures len { length result ≡ length self.now.tables }
    {
        self.tables.iter()
    }

    /// Returns the bytes of a table's records, if it has some.
    pub fn records_for(&self, name: &str) -> Option<&[u8]>
        ensures { option_copied result ≡ records_for name.now self.now }
    {
        match self.tables.get(name) {
            Some(bytes) => Some(bytes.as_slice()),
            None => None,
        }
    }

    /// Returns the streams that aren't those of tables, such as those that records bring.
    pub fn streams(&self) -> &StreamMap
        ensures { entries result.now ≡ self.now.streams }
    {
        &self.streams
    }
}

fn check_clsid(contents: &Contents) -> Result<(), Error>
    ensures ok { OnOk result (contents.now.clsid ≡ transform_clsid) }
    ensures kind { IfErr result (ReadStopsAmong contents.now (knows_clsid ∷ [])) }
{
    if contents.clsid != CLSID {
        return Err(Error::new(ErrorKind::InvalidData, reasons::NO_TRANSFORM));
    }
    Ok(())
}

/// Returns the pool, whose texts were read as they are.
fn kept_pool_in(alloc: Global, contents: &Contents) -> Result<StringPool, Error>
    ensures ok { IfOk result (PoolIs (entries contents.now.streams)) }
    ensures texts { IfOk result (λ pool. are_texts_kept pool (entries contents.now.streams) ≡ true) }
    ensures kind { IfErr result (ReadStopsAmong contents.now pool_read_steps) }
{
    let pool = pool_in(alloc, &contents.streams)?;
    if !keeps_texts(&pool, &contents.streams) {
        return Err(Error::new(ErrorKind::InvalidData, reasons::TEXTS_NOT_UTF8));
    }
    Ok(pool)
}

fn transform_with(alloc: Global, pool: StringPool, streams: StreamMap) -> Result<Transform, Error>
    ensures ok { IfOk result (λ t. t ≡ transform_in pool (entries streams)) }
    ensures kind { OnlyMemory result }
{
    let page_id = page_id_in(&streams);
    let mut others = streams;
    let tables = take_records(alloc, &mut others)?;
    Ok(Transform {
        page_id,
        pool,
        tables,
        streams: others,
    })
}
