//! The units of a name that is being made.

ghost use Rattle.std.specs.Prelude.{◌≡◌, ◌+◌, ◌<◌, ◌≤◌, ◌∷◌, ◌++◌, [], IfSome, is_some, length, nat_le};
ghost use Rattle.std.specs.Char.Escape.{encode_utf16};

use crate::format::MAX_UNITS;
use std::marker::Model;

/// As many UTF-16 units as a name may have, or fewer. A contract sees their list.
#[derive(Drop)]
pub(crate) struct Units {
    held: [u16; MAX_UNITS],
    len: usize,
}

impl Model for Units {
    ghost use Rattle.std.specs.Prelude.{List, ℕ, take, ◌≤◌};

    ghost Value = { List ℕ };

    ghost view = { λ u. take u.len u.held };

    ghost invariant = { λ u. u.len ≤ 31 };
}

impl Units {
    pub(crate) fn new() -> Units
        ensures { result ≡ [] }
    {
        Units {
            held: [0; MAX_UNITS],
            len: 0,
        }
    }

    pub(crate) fn as_slice(&self) -> &[u16]
        ensures { result.now ≡ self.now }
    {
        &self.held[..self.len]
    }

    pub(crate) fn push(&mut self, c: char) -> Option<()>
        ensures put { IfSome result (λ _. self.new ≡ self.old ++ encode_utf16 c) }
        ensures fits { is_some result ≡ nat_le (length self.old + length (encode_utf16 c)) 31 }
    {
        if c.len_utf16() > self.room() {
            return None;
        }
        self.put(c);
        Some(())
    }

    fn room(&self) -> usize
        ensures { result + length self.now ≡ 31 }
    {
        MAX_UNITS - self.len
    }

    fn put(&mut self, c: char)
        requires { length self.old + length (encode_utf16 c) ≤ 31 }
        ensures { self.new ≡ self.old ++ encode_utf16 c }
    {
        let code = c as u32;
        if code < 0x1_0000 {
            self.put_unit(code as u16);
        } else {
            let above = code - 0x1_0000;
            self.put_unit((0xD800 + above / 0x400) as u16);
            self.put_unit((0xDC00 + above % 0x400) as u16);
        }
    }

    fn put_unit(&mut self, unit: u16)
        requires { length self.old < 31 }
        ensures { self.new ≡ self.old ++ unit ∷ [] }
    {
        self.held[self.len] = unit;
        self.len += 1;
    }
}
