//! A database: tables over one pool of texts, whose rows stand in the streams of a container.

ghost use Rattle.std.specs.Prelude.{◌≡◌, Err, IfErr, IfOk, Ok, OnErr, OnOk, option_copied};
ghost use Rattle.std.specs.FinMap.{entries};
ghost use Rattle.msi_base.specs.Refusals.{AnswersWith, IsRefusal, unless_refused};
ghost use Rattle.msi_query.specs.Rows.{cells_of, columns_read, whole_table};
ghost use Rattle.msi_query.specs.Selection.{early_refusal, relation_of};
ghost use Rattle.msi_query.specs.Selected.{Selects};
ghost use Rattle.msi_database_changes.specs.Changes.{sound_refusal};
ghost use Rattle.msi_database_changes.specs.Database.{has_table as has_one, is_sound as is_sound_one, table_at};
ghost use Rattle.msi_database_changes.specs.Database.{values_of};
ghost use Rattle.msi_database.specs.Keeping.{IsKeptDatabase};
ghost use Rattle.msi_database.specs.Listed.{table_def_at, tables_listed, with_page};

use crate::reasons;
use msi_base::codepage::CodePage;
use msi_base::errors::{Error, ErrorKind};
use msi_base::text::Items;
use msi_container_format::contents::StreamMap;
use msi_database_storage::listing::table_named;
use msi_database_storage::table_rows;
use msi_pool::stringpool::StringPool;
use msi_query::Select;
use msi_query_rows::{Tables, select_rows};
use msi_table::parts::StoredRows;
use msi_table::{Rows, Table};
use std::alloc::Global;
use std::marker::Model;

/// A database in its container. It has all streams of the container's root, and touches only those of tables.
pub struct Database {
    pub(crate) alloc: Global,
    pub(crate) pool: StringPool,
    pub(crate) tables: Items<Table>,
    pub(crate) streams: StreamMap,
    pub(crate) is_sound: bool,
}

/// Written out, so that a function that owns one calls one drop, and its proof doesn't go through those of the parts.
impl Drop for Database {
    fn drop(self) {
        let Database {
            alloc: _,
            pool: _,
            tables: _,
            streams: _,
            is_sound: _,
        } = self;
    }
}

impl Model for Database {
    ghost use Rattle.std.specs.FinMap.{entries};
    ghost use Rattle.msi_database_storage.specs.Kept.{Kept, kept_of};
    ghost use Rattle.msi_database.specs.Keeping.{AreKept};

    ghost Value = { Kept };

    ghost view = { λ d. kept_of d.pool d.tables (entries d.streams) };

    ghost invariant = { λ d. AreKept d.pool d.tables (entries d.streams) d.is_sound };
}

impl Database {
    /// Returns the pool of texts.
    pub fn pool(&self) -> &StringPool
        ensures { result.now ≡ self.now.database.pool }
    {
        &self.pool
    }

    /// Returns the code page of the texts.
    pub fn codepage(&self) -> CodePage
        ensures { result ≡ self.now.database.pool.page }
    {
        self.pool.codepage()
    }

    /// Returns the streams of the container's root, those of tables included.
    pub fn streams(&self) -> &StreamMap
        ensures { entries result.now ≡ self.now.streams }
    {
        &self.streams
    }

    pub(crate) fn into_streams(self) -> StreamMap
        ensures { entries result ≡ self.streams }
    {
        let Database {
            alloc: _,
            pool: _,
            tables: _,
            streams,
            is_sound: _,
        } = self;
        streams
    }

    /// Returns whether the database is sound, and so may be changed.
    pub fn is_sound(&self) -> bool
        ensures { result ≡ is_sound_one self.now.database }
    {
        self.is_sound
    }

    /// Returns whether there is a table of this name.
    pub fn has_table(&self, name: &str) -> bool
        ensures { result ≡ has_one name.now self.now.database }
    {
        table_named(self.tables.as_slice(), name).is_some()
    }

    /// Returns the table of this name, if there is one.
    pub fn get_table(&self, name: &str) -> Option<&Table>
        ensures { option_copied result ≡ table_def_at name.now self.now.database }
    {
        table_named(self.tables.as_slice(), name)
    }

    /// Returns the tables, by name.
    pub fn tables(&self) -> &[Table]
        ensures { result.now ≡ tables_listed self.now.database }
    {
        self.tables.as_slice()
    }

    /// Tells what every database keeps to, sound or not: its streams spell it. It does nothing.
    pub fn kept(&self)
        ensures { IsKeptDatabase self.now }
    {
        let _is_sound = self.is_sound;
    }

    pub(crate) fn check_sound(&self) -> Result<(), Error>
        ensures { result ≡ unless_refused (sound_refusal self.now.database) tt }
    {
        if !self.is_sound {
            return Err(Error::new(ErrorKind::InvalidData, reasons::UNSOUND));
        }
        Ok(())
    }

    /// Sets the code page of the texts. It takes no memory.
    ///
    /// # Errors
    /// Fails with `InvalidData` if the database isn't sound; then nothing has changed.
    pub fn set_codepage(&mut self, page: CodePage) -> Result<(), Error>
        ensures answer { result ≡ unless_refused (sound_refusal self.old.database) tt }
        ensures ok { OnOk result (self.new ≡ with_page page self.old) }
        ensures same { OnErr result (self.new ≡ self.old) }
    {
        self.check_sound()?;
        self.pool.set_codepage(page);
        Ok(())
    }

    fn rows_of(&self, name: &str) -> Result<StoredRows<'_>, Error>
        ensures ok { IfOk result (λ stored.
            whole_table (λ q. table_at q self.now.database) name.now ≡ Ok (cells_of name.now stored)) }
        ensures kind { IfErr result (λ kind. whole_table (λ q. table_at q self.now.database) name.now ≡ Err kind) }
    {
        let Some(table) = table_named(self.tables.as_slice(), name) else {
            return Err(Error::new(ErrorKind::NotFound, reasons::NO_TABLE));
        };
        match table_rows(&self.streams, table) {
            Some(stored) => Ok(stored),
            None => Err(Error::new(ErrorKind::InvalidData, reasons::UNREADABLE)),
        }
    }

    /// Returns the rows that a query selects. Those of a query for one table are decoded as they are asked for, unless
    /// they are ordered or distinct.
    ///
    /// # Errors
    /// Fails with the first of these that applies, for a join those of the left query, then those of the right:
    /// `NotFound` if a table isn't there, `InvalidData` if it can't be read; then `InvalidInput` if a column isn't
    /// there, in a join's condition, then one that is selected, then in the condition, then in the order. If none
    /// applies, it fails with `OutOfMemory`, which may also come in place of what is refused from the first join's own
    /// columns on.
    pub fn select_rows(&self, alloc: Global, query: &Select) -> Result<Rows<'_>, Error>
        ensures ok { IfOk result (Selects (relation_of (values_of self.now.database) query.now)) }
        ensures kind { IfErr result (IsRefusal (relation_of (values_of self.now.database) query.now)) }
        ensures early { let d = self.now.database in
            AnswersWith (early_refusal (columns_read (λ q. table_at q d)) query.now) result }
    {
        select_rows(alloc, &self.pool, self, query)
    }
}

impl Tables for Database {
    ghost use Rattle.msi_database_changes.specs.Database.{table_at};

    ghost table = { λ d name. table_at name d.database };

    fn stored(&self, name: &str) -> Result<StoredRows<'_>, Error> {
        self.rows_of(name)
    }
}
