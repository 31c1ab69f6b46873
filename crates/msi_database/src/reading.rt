//! A database that is read from its pool and the streams of a container's root.

ghost use Rattle.std.specs.Prelude.{◌≡◌, IfErr, IfOk, Some};
ghost use Rattle.std.specs.FinMap.{entries};
ghost use Rattle.msi_base.specs.declared.errors.ErrorKind.TheVariants.{InvalidData};
ghost use Rattle.msi_base.specs.Refusals.{IsRefusal, or_refused};
ghost use Rattle.msi_database_storage.specs.Agreement.{schema_in};
ghost use Rattle.msi_database_storage.specs.Kept.{Kept};
ghost use Rattle.msi_database_storage.specs.Reading.{IsDatabaseOf};
ghost use Rattle.msi_database.specs.Transforming.{database_read};

use crate::database::Database;
use msi_base::errors::Error;
use msi_container_format::contents::StreamMap;
use msi_database_storage::{
    DescribedTables, are_sound, look_at, tables_census, tables_in, unlisted_rows, with_named_texts,
};
use msi_pool::stringpool::StringPool;
use std::alloc::Global;

impl Database {
    /// Returns the database of a pool, as its two streams encode it, and of all streams of a container's root. Which
    /// tables it has is what the rows of the system tables describe; a missing stream has no rows, and a table whose
    /// rows can't be read stays listed. A free place of the pool loses its text where no cell names it. It costs the
    /// rows times a logarithm.
    ///
    /// # Errors
    /// Fails with `InvalidData` if the stream of a system table can't be read, and if its rows describe no tables, or
    /// with `OutOfMemory`.
    pub fn read(alloc: Global, pool: StringPool, streams: StreamMap) -> Result<Database, Error>
        ensures ok { IfOk result (IsDatabaseOf pool (entries streams)) }
        ensures only { IfOk result (λ d. (k : Kept) → IsDatabaseOf pool (entries streams) k → k ≡ d) }
        ensures read { IfOk result (λ d. database_read pool (entries streams) ≡ Some d) }
        ensures kind { let schema = schema_in (entries streams) pool in
            IfErr result (IsRefusal (or_refused InvalidData schema)) }
    {
        look_at(&streams);
        let DescribedTables {
            standard,
            tables,
            validation,
        } = tables_in(alloc, &pool, &streams)?;
        let listed = tables.as_slice();
        let mut census = tables_census(alloc, pool.num_strings(), &streams, listed)?;
        let pool = with_named_texts(alloc, pool, &census, validation.as_slice())?;
        let unlisted = unlisted_rows(alloc, listed, validation);
        census.count_rows(unlisted.as_slice());
        let is_sound = are_sound(&pool, listed, &streams, &census, standard.columns());
        Ok(Database {
            alloc,
            pool,
            tables,
            streams,
            is_sound,
        })
    }
}
