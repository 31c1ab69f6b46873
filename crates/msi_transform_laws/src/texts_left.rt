//! The texts that are left once a transform that is made is applied.

ghost use Rattle.msi_transform_laws.specs.TextsLeft.{MadeTextsAreReadBack};

use msi_pool::laws::{given_back_takes_one, taken_places_hold_their_text};

/// Once the records of a transform that is made are applied to the old package, each text that its pool still has can
/// be written in the page that is left, and is read back.
pub fn made_texts_are_read_back()
    ensures { MadeTextsAreReadBack }
{
    taken_places_hold_their_text();
    given_back_takes_one();
}
