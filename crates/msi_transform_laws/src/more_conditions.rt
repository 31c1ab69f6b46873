//! Conditions that ignore more errors.

ghost use Rattle.msi_transform_laws.specs.MoreConditions.{MoreConditionsLeaveTheSame};

/// A transform that is applied leaves the same where more errors are ignored.
pub fn more_conditions_leave_the_same()
    ensures { MoreConditionsLeaveTheSame }
{}
