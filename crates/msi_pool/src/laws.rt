//! Laws of the formats themselves: each is the contract of a function, mostly of one without a body.

ghost use Rattle.msi_pool_places.specs.FirstFitLaws.{TakenPlacesHoldTheirText, TakenPlacesStayInRange};
ghost use Rattle.msi_pool_places.specs.FirstFitLaws.{GivenBackTakesOne, GivenBackStaysInRange};
ghost use Rattle.msi_pool.specs.PoolLaws.{EmptyPlacesAreWritten, IsPoolInSteps, MarksStandForTests, OnePool};
ghost use Rattle.msi_pool.specs.PoolLaws.{PoolsReadBack};
ghost use Rattle.msi_pool_places.specs.References.{ReferencesComeBack};
ghost use Rattle.std.specs.Ordering.{nat_cmp};
ghost use Rattle.std.specs.Prelude.{◌≡◌, ◌↔◌, IsTrue};
ghost use Rattle.std.specs.declared.cmp.Ordering.TheVariants.{Equal};

use crate::stringpool::StringRef;
use std::cmp::Ordering;

/// What is written of a reference has the width of one, and is read as that reference.
pub fn references_come_back()
    ensures { ReferencesComeBack }
{}

/// References are ordered as their numbers, and compare as equal exactly where they are equal.
pub fn references_are_ordered(a: StringRef, b: StringRef) -> Ordering
    ensures order { result ≡ nat_cmp a b }
    ensures equal { (result ≡ Equal) ↔ (a ≡ b) }
{
    a.cmp(&b)
}

/// References are equal exactly where their numbers are.
pub fn references_are_equal(a: StringRef, b: StringRef) -> bool
    ensures { IsTrue result ↔ (a ≡ b) }
{
    a == b
}

/// A text that is stored stands at the number that is returned, to which one cell more refers; no other place
/// changes.
pub fn taken_places_hold_their_text()
    ensures { TakenPlacesHoldTheirText }
{}

/// A text takes a place that there is, or one whose number the width of references can name; counts keep to 16 bits.
pub fn taken_places_stay_in_range()
    ensures { TakenPlacesStayInRange }
{}

/// Giving a place back takes one cell from it, and its text with the last; no other place changes.
pub fn given_back_takes_one()
    ensures { GivenBackTakesOne }
{}

/// Giving a place back keeps counts to 16 bits.
pub fn given_back_stays_in_range()
    ensures { GivenBackStaysInRange }
{}

/// Two streams hold at most one pool.
pub fn one_pool()
    ensures { OnePool }
{}

/// A pool is held by two streams exactly if the one says its page, its references and its entries, and the other
/// encodes its texts.
pub fn pool_in_steps()
    ensures { IsPoolInSteps }
{}

/// What is written of a pool is read as the pool, but for the texts of its free places, where the page carries each
/// text in use there and back.
pub fn pools_read_back()
    ensures { PoolsReadBack }
{}

/// A pool whose free places have the empty text is written as it is.
pub fn empty_places_are_written()
    ensures { EmptyPlacesAreWritten }
{}

/// Marks that say of each place whether its number passes a test can replace the test when texts are forgotten.
pub fn marks_stand_for_tests()
    ensures { MarksStandForTests }
{}
