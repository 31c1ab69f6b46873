//! Packages that meet the premises of these laws.

ghost use Rattle.msi_transform_laws.specs.PremisesMet.{PremisesCanBeMet};

/// There are two packages of which a transform can be made, and that meet what the law on applying it asks for: one
/// table, of one row, which differs.
pub fn premises_can_be_met()
    ensures { PremisesCanBeMet }
{}
