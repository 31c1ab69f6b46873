//! What holds of text archives themselves: each is the contract of a function without a body.

ghost use Rattle.msi_exchange.specs.ArchiveLaws.{OneArchive, OthersHaveNoText, RowsStandBehind};

/// A text means at most one archive.
pub fn one_archive()
    ensures { OneArchive }
{}

/// An archive that a text means can be written: one that is refused has no text.
pub fn others_have_no_text()
    ensures { OthersHaveNoText }
{}

/// The text of an archive is that of the archive without its rows, and behind it the line of each row. It can be
/// written exactly where these can.
pub fn rows_stand_behind()
    ensures { RowsStandBehind }
{}
