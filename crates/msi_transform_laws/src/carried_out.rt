//! Records carried out on rows of values.

ghost use Rattle.msi_transform_laws.specs.CarriedOut.{DifferencesGiveNewRows, RecordsGiveNewList};
ghost use Rattle.msi_transform_laws.specs.CarriedOut.{RecordsGiveNewTable};

/// The records of what differs between the rows of a table, carried out on the old rows, give the new ones.
pub fn differences_give_new_rows()
    ensures { DifferencesGiveNewRows }
{}

/// The records of a table, carried out on the rows that the old package has of it, give the new package's rows.
pub fn records_give_new_table()
    ensures { RecordsGiveNewTable }
{}

/// The records of `_Tables`, carried out on the old package's list of tables, give the new one's.
pub fn records_give_new_list()
    ensures { RecordsGiveNewList }
{}
