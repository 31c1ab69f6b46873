//! Parts of some bytes: streams that lie in one piece in a file share the file's bytes, and so do the texts in them.

ghost use Rattle.std.specs.Prelude.{◌≡◌, ◌+◌, ◌≤◌, ◌++◌, [], true, false, length, slice_range, IfOk};

use std::alloc::AllocError;
use std::marker::Model;
use std::rc::Rc;

/// A part of some bytes, from one on and before another, which its owner shares with others. Contracts see the part
/// alone.
#[derive(Drop)]
pub struct Part {
    whole: Rc<Vec<u8>>,
    start: usize,
    end: usize,
}

impl Model for Part {
    ghost use Rattle.std.specs.Prelude.{List, ℕ, ◌≤◌, length, slice_range};

    ghost Value = { List ℕ };

    ghost view = { λ p. slice_range p.whole.value.items p.start p.end };

    ghost invariant = { λ p. (p.start ≤ p.end) × (p.end ≤ length p.whole.value.items) };
}

impl Part {
    /// Returns so many bytes from a position on.
    pub fn new(whole: Rc<Vec<u8>>, start: usize, count: usize) -> Part
        requires { start + count ≤ length whole.value.items }
        ensures { result ≡ slice_range whole.value.items start (start + count) }
    {
        let end = start + count;
        Part { whole, start, end }
    }

    /// Returns the bytes, borrowed.
    pub fn as_slice(&self) -> &[u8]
        ensures { result.now ≡ self.now }
    {
        &self.whole.as_slice()[self.start..self.end]
    }

    /// Returns the part without bytes that begins where this one does.
    ///
    /// # Errors
    /// Fails if memory was refused.
    pub fn beginning(&self) -> Result<Part, AllocError>
        ensures { IfOk result (λ part. part ≡ []) }
    {
        Ok(Part {
            whole: self.whole.clone()?,
            start: self.start,
            end: self.start,
        })
    }

    /// Takes these bytes in if they stand behind the part, and returns whether they do. It copies none.
    pub fn take_in(&mut self, bytes: &[u8]) -> bool
        ensures taken { result ≡ true → self.new ≡ self.old ++ bytes.now }
        ensures left { result ≡ false → self.new ≡ self.old }
    {
        let behind = &self.whole.as_slice()[self.end..];
        let are_next = behind.starts_with(bytes);
        if are_next {
            self.end += bytes.len();
        }
        are_next
    }
}

/// The same part once more, which takes no memory for its bytes.
impl Clone for Part {
    ghost is_clone = { λ part copy. copy ≡ part };

    fn clone(&self) -> Result<Part, AllocError> {
        Ok(Part {
            whole: self.whole.clone()?,
            start: self.start,
            end: self.end,
        })
    }
}
