//! Operands of conditions, and the comparisons behind them.

use crate::pieces::{Piece, is_at};
use msi_query_tokens::token::Kind;

/// Returns the place behind the operand that begins at `start`: operators in front of it, and then brackets, a name or
/// a literal.
pub(crate) fn operand_end(pieces: &[Piece<'_>], start: usize) -> usize {
    let mut depth = 0usize;
    for i in start..pieces.len() {
        match pieces[i].kind {
            Kind::Open => depth = depth.saturating_add(1),
            Kind::Close => depth = depth.saturating_sub(1),
            _ => {}
        }
        if depth == 0 && !is_in_front(pieces[i].kind) {
            return end_of_name(pieces, i.saturating_add(1));
        }
    }
    pieces.len()
}

fn is_in_front(kind: Kind) -> bool {
    matches!(kind, Kind::Not | Kind::Sub | Kind::BitNot)
}

fn end_of_name(pieces: &[Piece<'_>], place: usize) -> usize {
    if is_at(pieces, place, Kind::Dot) {
        place.saturating_add(2)
    } else {
        place
    }
}

/// Returns whether a piece is between two operands, and binds them closer than `NOT` does in other programs: all except
/// `AND` and `OR`.
pub(crate) fn is_operator(piece: Piece<'_>) -> bool {
    is_comparison(piece.kind) || is_calculation(piece.kind)
}

fn is_comparison(kind: Kind) -> bool {
    matches!(
        kind,
        Kind::Eq | Kind::Ne | Kind::Lt | Kind::Le | Kind::Gt | Kind::Ge
    )
}

fn is_calculation(kind: Kind) -> bool {
    matches!(
        kind,
        Kind::BitOr | Kind::BitXor | Kind::BitAnd | Kind::Shl | Kind::Shr
    ) || matches!(kind, Kind::Add | Kind::Sub | Kind::Star | Kind::Div)
}
