//! The kinds of joins, and which rows of the left side each keeps.

ghost use Rattle.std.specs.Prelude.{◌≡◌, ◌==◌, ◌&&◌};
ghost use Rattle.msi_query_expressions.specs.Joins.{is_left as keeps_left};

/// The kind of a join, which decides about a row of the left side without a match: an inner join drops it, a left
/// join keeps it.
#[derive(Clone, Copy, PartialEq, Eq, Debug, Drop)]
pub enum JoinKind {
    Inner,
    Left,
}

/// Returns whether a join keeps a left row without a pair.
pub fn is_left(kind: JoinKind) -> bool
    ensures { result ≡ keeps_left kind }
{
    match kind {
        JoinKind::Inner => false,
        JoinKind::Left => true,
    }
}

/// Returns whether a join gives a left row with nulls beside it, where the row has so many pairs.
pub fn keeps_alone(kind: JoinKind, pairs: usize) -> bool
    ensures { result ≡ (keeps_left kind && (pairs == 0)) }
{
    is_left(kind) && pairs == 0
}
