//! Counting anew: the count of each place becomes the number of the cells that name it.

ghost use Rattle.std.specs.Prelude.{◌≡◌, IfErr, IfOk, None, Ok, OnErr, OnOk, length, true};
ghost use Rattle.msi_base.specs.Results.{OnlyMemory};
ghost use Rattle.msi_base.specs.declared.errors.ErrorKind.TheVariants.{InvalidData};
ghost use Rattle.std.specs.FinMap.{entries};
ghost use Rattle.msi_pool.specs.Pool.{Pool};
ghost use Rattle.msi_table.specs.Census.{CountsMore, IsCensus, numbers_of_rows};
ghost use Rattle.msi_base.specs.Refusals.{AnswersFirst, IsRefusal, first_refusal, unless_refused};
ghost use Rattle.msi_database_schema.specs.Schema.{table_with};
ghost use Rattle.msi_database_schema.specs.System.{validation_columns as columns_of_validation, validation_name};
ghost use Rattle.msi_database_changes.specs.Database.{is_sound, named_numbers};
ghost use Rattle.msi_database_changes.specs.Recounting as databases;
ghost use Rattle.msi_database_changes.specs.Recounting.{cell_counts, counting_refusals, early_recount_refusals};
ghost use Rattle.msi_database_changes.specs.Recounting.{recount_refusals};
ghost use Rattle.msi_database_storage.specs.Kept.{AreAsLong, database_kept, unlisted_kept};
ghost use Rattle.msi_database_storage.specs.StreamNames.{HaveShortNames};
ghost use Rattle.msi_database.specs.Recounting.{after_recount};

use crate::database::Database;
use crate::reasons;
use msi_base::errors::{Error, ErrorKind, Reason};
use msi_container_format::contents::StreamMap;
use msi_database_changes::counting::count_beside;
use msi_database_schema::named_table;
use msi_database_schema::system::{VALIDATION, validation_columns};
use msi_database_storage::listing::table_named;
use msi_database_storage::{
    are_sound_tables, fits_width, is_standard, stream_bytes, tables_census,
};
use msi_pool::parts::set_counts;
use msi_table::Table;
use msi_table::parts::Census;
use msi_table_values::column::Column;
use std::alloc::Global;

fn invalid(reason: Reason) -> Error
    ensures { result ≡ InvalidData }
{
    Error::new(ErrorKind::InvalidData, reason)
}

impl Database {
    /// Checks what needs no memory: a table that can't be read or has a name that isn't accepted, and a pool with more
    /// places than its references can name.
    fn check_countable(&self) -> Result<(), Error>
        ensures { result ≡ unless_refused (early_recount_refusals self.now.database) tt }
    {
        if !are_sound_tables(&self.streams, self.tables.as_slice()) {
            return Err(invalid(reasons::ODD_TABLE));
        }
        if !fits_width(&self.pool) {
            return Err(invalid(reasons::PAST_REFERENCES));
        }
        Ok(())
    }

    fn cells(&self, standard: &Table) -> Result<Census, Error>
        requires { standard.now ≡ table_with self.now.database.pool.long (validation_name, columns_of_validation) }
        ensures ok { let d = self.now.database in
            IfOk result (λ census. IsCensus (length d.pool.places) (named_numbers d) census) }
        ensures kind { OnlyMemory result }
    {
        cells_census(
            self.alloc,
            self.pool.num_strings(),
            &self.streams,
            self.tables.as_slice(),
            standard,
        )
    }

    /// Refuses a listed `_Validation` without the standard columns, a cell that names past the pool, and a place with
    /// more than 65535 cells.
    fn check_cells(&self, standard: &[Column], census: &Census) -> Result<(), Error>
        requires standard { standard.now ≡ columns_of_validation }
        requires census { let d = self.now.database in
            IsCensus (length d.pool.places) (named_numbers d) census.now }
        ensures answer { result ≡ unless_refused (counting_refusals self.now.database) tt }
        ensures fits { OnOk result (census.now.fits ≡ true) }
    {
        if !is_standard(self.tables.as_slice(), standard) {
            return Err(invalid(reasons::ODD_VALIDATION));
        }
        if !census.is_within() {
            return Err(invalid(reasons::PAST_POOL));
        }
        if !census.fits() {
            return Err(invalid(reasons::PAST_COUNTS));
        }
        Ok(())
    }

    fn accepted_census(&self) -> Result<Census, Error>
        ensures ok { OnOk result (first_refusal (recount_refusals self.now.database) ≡ None) }
        ensures counts { IfOk result (λ census. census.counts ≡ cell_counts self.now.database) }
        ensures kind { IfErr result (IsRefusal (databases.recount self.now.database)) }
        ensures early { AnswersFirst (early_recount_refusals self.now.database) result }
    {
        self.check_countable()?;
        let columns = validation_columns(self.alloc)?;
        let standard = named_table(
            self.alloc,
            VALIDATION,
            columns,
            self.pool.long_string_refs(),
        )?;
        let census = self.cells(&standard)?;
        self.check_cells(standard.columns(), &census)?;
        Ok(census)
    }

    /// Sets the count of each place of the pool to the number of the cells that name it, and returns how many places
    /// got another count. A place without cells becomes free, and its text empty; one that cells name keeps the text
    /// that was read. Streams stay. The database is sound from then on. It costs one pass over the cells.
    ///
    /// # Errors
    /// Fails with `InvalidData` if a table can't be read or has a name that isn't accepted, if a listed `_Validation`
    /// lacks the names, kinds and key columns of the standard one, if a cell names past the pool, if the pool has more
    /// than 65535 places with references of two bytes, and if a place has more than 65535 cells. Otherwise it fails
    /// with `OutOfMemory`, which may also come in place of what is refused for columns and for cells. Then nothing has
    /// changed.
    pub fn recount(&mut self) -> Result<u32, Error>
        ensures ok { IfOk result (λ changed. databases.recount self.old.database ≡ Ok changed) }
        ensures left { OnOk result (self.new ≡ after_recount self.old) }
        ensures sound { OnOk result (is_sound self.new.database ≡ true) }
        ensures same { OnErr result (self.new ≡ self.old) }
        ensures kind { IfErr result (IsRefusal (databases.recount self.old.database)) }
        ensures early { AnswersFirst (early_recount_refusals self.old.database) result }
    {
        let census = self.accepted_census()?;
        let changed = set_counts(&mut self.pool, census.counts());
        self.is_sound = true;
        Ok(changed)
    }
}

/// Counts the cells of the stream of `_Validation`, where that is no table, by its standard columns.
fn count_unlisted(census: &mut Census, streams: &StreamMap, tables: &[Table], standard: &Table)
    requires names { HaveShortNames (entries streams.now) }
    requires standard { standard.now ≡ table_with standard.now.long (validation_name, columns_of_validation) }
    ensures { let rows = unlisted_kept (entries streams.now) standard.now.long tables.now in
        CountsMore (numbers_of_rows rows) census.old census.new }
{
    let is_listed = table_named(tables, VALIDATION).is_some();
    let bytes = stream_bytes(streams, VALIDATION);
    count_beside(census, is_listed, standard, bytes);
}

/// Returns the census of all cells of a database, for a pool of so many places: those of its tables, and those of the
/// stream of `_Validation` where that is no table, by its standard columns, which `standard` has. It makes no row.
fn cells_census(
    alloc: Global,
    many: u32,
    streams: &StreamMap,
    tables: &[Table],
    standard: &Table,
) -> Result<Census, Error>
    requires names { HaveShortNames (entries streams.now) }
    requires standard { standard.now ≡ table_with standard.now.long (validation_name, columns_of_validation) }
    ensures ok { IfOk result (λ census. (pool : Pool) → pool.long ≡ standard.now.long → AreAsLong pool.long tables.now
        → IsCensus many (named_numbers (database_kept pool tables.now (entries streams.now))) census) }
    ensures kind { OnlyMemory result }
{
    let mut census = tables_census(alloc, many, streams, tables)?;
    count_unlisted(&mut census, streams, tables, standard);
    Ok(census)
}
