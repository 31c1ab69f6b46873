//! Laws of the bytes that devices hold: each is the contract of a function without a body.

ghost use Rattle.msi_container_device.specs.HeldLaws.{PartsJoin, PiecesJoin, PiecesStandAtThePlace, PiecesToTheEnd};

/// Writing two pieces one behind the other is the same as writing their concatenation.
pub fn pieces_join()
    ensures { PiecesJoin }
{}

/// What counts as a prefix of a piece: none of it, all of it, a prefix of its front, and its front with a prefix of
/// the rest behind it.
pub fn parts_join()
    ensures { PartsJoin }
{}

/// A piece lies where the position was; the bytes in front of it and behind it stay, and the position is behind it.
pub fn pieces_stand_at_the_place()
    ensures { PiecesStandAtThePlace }
{}

/// A piece that is as long as what lies ahead takes the place of all that, and is the end.
pub fn pieces_to_the_end()
    ensures { PiecesToTheEnd }
{}
