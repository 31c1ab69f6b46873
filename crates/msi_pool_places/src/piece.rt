//! Pieces of one text: the texts that are read of a pool lie one behind the other in one piece of memory.

ghost use Rattle.std.specs.Prelude.{◌≡◌, ◌-◌, ◌≤◌, take, drop};
ghost use Rattle.std.specs.Rc.{rc_str_bytes};
ghost use Rattle.std.specs.Str.{IsCharBoundary};

use std::alloc::AllocError;
use std::marker::Model;
use std::rc::RcStr;

/// A piece of a text, from one byte on and before another. Contracts see its bytes in UTF-8.
#[derive(Drop)]
pub(crate) struct Piece {
    whole: RcStr,
    start: usize,
    end: usize,
}

impl Model for Piece {
    ghost use Rattle.std.specs.Prelude.{List, ℕ, ◌-◌, ◌≤◌, take, drop};
    ghost use Rattle.std.specs.Rc.{rc_str_bytes};
    ghost use Rattle.std.specs.Str.{IsCharBoundary};

    ghost Value = { List ℕ };

    ghost view = { λ p. take (p.end - p.start) (drop p.start (rc_str_bytes p.whole)) };

    ghost invariant = { λ p. IsCharBoundary (rc_str_bytes p.whole) p.start
        × IsCharBoundary (rc_str_bytes p.whole) p.end × (p.start ≤ p.end) };
}

impl Piece {
    /// Returns the piece of a text between two places where characters begin or end.
    pub(crate) fn new(whole: RcStr, start: usize, end: usize) -> Piece
        requires start { IsCharBoundary (rc_str_bytes whole) start }
        requires end { IsCharBoundary (rc_str_bytes whole) end }
        requires order { start ≤ end }
        ensures { result ≡ take (end - start) (drop start (rc_str_bytes whole)) }
    {
        Piece { whole, start, end }
    }

    pub(crate) fn as_str(&self) -> &str
        ensures { result.now ≡ self.now }
    {
        &self.whole.as_str()[self.start..self.end]
    }
}

/// The same piece once more, which takes no memory for its bytes.
impl Clone for Piece {
    ghost is_clone = { λ piece copy. copy ≡ piece };

    fn clone(&self) -> Result<Piece, AllocError> {
        Ok(Piece {
            whole: self.whole.clone()?,
            start: self.start,
            end: self.end,
        })
    }
}
