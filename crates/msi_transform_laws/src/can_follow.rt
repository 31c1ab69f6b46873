//! Records that can be carried out one after the other.

ghost use Rattle.msi_transform_laws.specs.CanFollow.{DifferencesCanFollow, RecordsCanFollow};

/// The records of what differs between the rows of a table can be carried out one after the other: what they remove or
/// change is there, and what they add isn't.
pub fn differences_can_follow()
    ensures { DifferencesCanFollow }
{}

/// So can the records of a table of a transform that is made, on the rows that the old package has of it.
pub fn records_can_follow()
    ensures { RecordsCanFollow }
{}
