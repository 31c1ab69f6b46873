//! Transforms that are made, applied to the old package.

ghost use Rattle.msi_transform_laws.specs.TransformsApplied.{MadeTransformsGiveNewPackage};

use msi_pool::laws::{given_back_takes_one, taken_places_hold_their_text};

/// A transform that is made of two packages can be applied to the old one, and what is left has the tables, columns and
/// rows of the new one.
pub fn made_transforms_give_new_package()
    ensures { MadeTransformsGiveNewPackage }
{
    taken_places_hold_their_text();
    given_back_takes_one();
}
