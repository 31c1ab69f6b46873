//! Making a transform of two databases.

ghost use Rattle.std.specs.Prelude.{◌≡◌, IfErr, IfOk, Ok};
ghost use Rattle.msi_base.specs.Refusals.{IsRefusal};
ghost use Rattle.msi_transform_making.specs.Making.{made, pair_of, table_reasons, told_names};
ghost use Rattle.msi_transform_making.specs.Making.{transform_of as transform_told};
ghost use Rattle.msi_transform_pair.specs.MakingRefusals.{IsAtFault};

use crate::same_texts::SameTexts;
use crate::storing::{records_by_table, stored_tables, told_streams};
use crate::tables::{ToldTable, told_tables};
use msi_base::errors::Error;
use msi_database_changes::texts::PoolInUse;
use msi_database_schema::system::COLUMNS;
use msi_pool::stringpool::StringPool;
use msi_transform::Transform;
use msi_transform_pair::base::Base;
use msi_transform_pair::described::Described;
use msi_transform_pair::reading::told_rows;
use msi_transform_pair::{MakingRefusal, check_pair};

/// Returns the transform that tells of these tables.
fn transform_of(new: &Base, tables: &[ToldTable]) -> Result<Transform, Error>
    ensures ok { IfOk result (λ made. transform_told new.now.page_id new.now.kept tables.now ≡ Ok made) }
    ensures kind { IfErr result (IsRefusal (transform_told new.now.page_id new.now.kept tables.now)) }
{
    let page = new.pool().codepage();
    let mut pool = PoolInUse::new(StringPool::new(new.alloc, page));
    let stored = stored_tables(new.alloc, &mut pool, tables)?;
    let pool = pool.into_pool();
    let streams = told_streams(new.alloc, tables)?;
    let records = records_by_table(new.alloc, pool.long_string_refs(), stored.as_slice())?;
    Ok(Transform::from_parts(new.page_id(), pool, records, streams))
}

/// Returns the transform that makes the new database of the old one: of its page, of its tables with their columns and
/// rows, and of the streams of rows.
///
/// # Errors
/// Fails with `InvalidInput` if there is none: one of the databases has a table without a key of its own for each row,
/// or under a name that none may have; the new one's page is neutral and the old one's isn't, or it lacks a text; two
/// rows of either have streams of one name; a table loses or changes a column, gets one of the key, or gets columns and
/// has more than 32 then, or two of one name, or one without a name; a row of more than 255 columns would have to be
/// added; or the texts are too many. Otherwise it fails with `OutOfMemory`, which may come in place of the others.
/// Where a table is at fault for its columns, the refusal says which.
pub fn make<'a>(old: &Base<'a>, new: &Base<'a>) -> Result<Transform, MakingRefusal>
    ensures ok { IfOk result (λ transform. made (pair_of old.now new.now) ≡ Ok transform) }
    ensures kind { IfErr result (λ refusal. IsRefusal (made (pair_of old.now new.now)) refusal.kind) }
    ensures table { let rules = table_reasons (pair_of old.now new.now) in
        IfErr result (IsAtFault rules (told_names new.now.kept)) }
{
    let old_rows = told_rows(old, COLUMNS, 0)?;
    let new_rows = told_rows(new, COLUMNS, 0)?;
    let described = Described {
        old: old_rows,
        new: new_rows,
    };
    check_pair(old, new, &described)?;
    let texts = SameTexts::of_pools(new.alloc, old.pool(), new.pool())?;
    let tables = told_tables(old, new, &texts, &described.new)?;
    Ok(transform_of(new, tables.as_slice())?)
}
