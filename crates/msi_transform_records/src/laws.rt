//! Laws of the definitions themselves: each is the contract of a function that does nothing.

ghost use Rattle.msi_transform_records.specs.Laws.{MasksTellActions, ReadRecordsAreSpelled, RecordsAreUnambiguous};
ghost use Rattle.msi_transform_records.specs.Laws.{SpelledRecordsAreRead};

/// Records that are spelled are read.
pub fn spelled_records_are_read()
    ensures { SpelledRecordsAreRead }
{}

/// Records that are read of bytes are spelled by them, each byte of them.
pub fn read_records_are_spelled()
    ensures { ReadRecordsAreSpelled }
{}

/// No bytes spell two lists of records.
pub fn records_are_unambiguous()
    ensures { RecordsAreUnambiguous }
{}

/// A mask tells its action, and each action has a mask.
pub fn masks_tell_actions()
    ensures { MasksTellActions }
{}
