//! Laws of the definitions themselves: each is the contract of a function that does nothing.

ghost use Rattle.msi_database.specs.Fresh.{FreshIsKept};
ghost use Rattle.msi_database.specs.Keeping.{ChangesAreKept, KeptIsWellFormed, ReadIsKept};
ghost use Rattle.msi_database.specs.Recounting.{RecountsAreKept};
ghost use Rattle.msi_database.specs.OwnStreams.{TablesHaveOwnStreams};

/// An accepted change of a kept database that is sound, whose tables are stored in its streams, leaves a kept
/// database that is sound: its streams spell it.
pub fn changes_are_kept()
    ensures { ChangesAreKept }
{}

/// A kept database is well formed, sound or not: cells name places from 1 on, tables stand in the order of their
/// names, and each row has a cell for each column.
pub fn kept_is_well_formed()
    ensures { KeptIsWellFormed }
{}

/// A pool and tables that are read of streams make a kept database with them, sound or not.
pub fn read_is_kept()
    ensures { ReadIsKept }
{}

/// A new database is kept and sound, and its counts are exact.
pub fn fresh_is_kept()
    ensures { FreshIsKept }
{}

/// The stream of a table with an accepted name is no other's.
pub fn tables_have_own_streams()
    ensures { TablesHaveOwnStreams }
{}

/// An accepted recount of a kept database leaves a kept database: its streams spell it.
pub fn recounts_are_kept()
    ensures { RecountsAreKept }
{}
