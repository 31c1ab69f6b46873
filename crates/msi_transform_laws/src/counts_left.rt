//! The counts of the pool that is left once a transform that is made is applied.

ghost use Rattle.msi_transform_laws.specs.CountsLeft.{MadeCountsAreExact};

use msi_pool::laws::{given_back_takes_one, taken_places_hold_their_text};

/// Once the records of a transform that is made are applied to an old package whose counts are exact, they are exact
/// again: each place counts the cells of the tables that are left.
pub fn made_counts_are_exact()
    ensures { MadeCountsAreExact }
{
    taken_places_hold_their_text();
    given_back_takes_one();
}
