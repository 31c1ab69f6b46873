//! Cells that are counted beside those of the tables of a list.

ghost use Rattle.std.specs.Prelude.{[], if◌then◌else◌, unwrap_or};
ghost use Rattle.msi_table.specs.Census.{CountsMore, numbers_of_rows};
ghost use Rattle.msi_table.specs.Tables.{rows_spelled};

use msi_table::Table;
use msi_table::parts::Census;

/// Counts the cells of the rows that stand beside the tables of a list: those that the bytes of a table's stream
/// encode, unless the table is listed. Where the bytes can't be read, no cell is counted.
pub fn count_beside(census: &mut Census, is_listed: bool, table: &Table, bytes: &[u8])
    ensures { let rows = if is_listed then [] else unwrap_or (rows_spelled table.now bytes.now) [] in
        CountsMore (numbers_of_rows rows) census.old census.new }
{
    if is_listed {
        return;
    }
    census.count_stored(table, bytes);
}
