//! Texts one behind the other, in memory of their own or in a part of bytes that others share.

ghost use Rattle.std.specs.Prelude.{◌≡◌, ◌++◌, [], IfOk, OnOk, IsUtf8, string_bytes};
ghost use Rattle.msi_base.specs.Results.{OnlyMemory};

use crate::errors::Error;
use crate::part::Part;
use std::alloc::Global;
use std::marker::Model;
use std::str;

/// Who has the bytes of texts.
#[derive(Drop)]
pub(crate) enum Held {
    /// These texts alone.
    Alone(String),
    /// Others, too: the bytes of a part, which are in UTF-8.
    Part(Part),
}

/// Texts one behind the other. Contracts see their bytes in UTF-8.
pub struct TextBuffer {
    held: Held,
}

/// Written out, so that a function that owns one calls one drop, and its proof doesn't go through those of the parts.
impl Drop for TextBuffer {
    fn drop(self) {
        let TextBuffer { held: _ } = self;
    }
}

impl Model for TextBuffer {
    ghost use Rattle.std.specs.Prelude.{List, ℕ, IsUtf8};
    ghost use Rattle.msi_base.specs.Buffers.{bytes_of};

    ghost Value = { List ℕ };

    ghost view = { λ b. bytes_of b.held };

    ghost invariant = { λ b. IsUtf8 (bytes_of b.held) };
}

impl TextBuffer {
    /// Returns a buffer without texts.
    pub fn new(alloc: Global) -> TextBuffer
        ensures { result ≡ [] }
    {
        TextBuffer {
            held: Held::Alone(String::new(alloc)),
        }
    }

    /// Returns a buffer without texts. The first are sought where the part begins, if there is one; else there is room
    /// for so many bytes.
    ///
    /// # Errors
    /// Fails with `OutOfMemory` alone.
    pub fn sharing(alloc: Global, part: Option<&Part>, room: usize) -> Result<TextBuffer, Error>
        ensures ok { IfOk result (λ texts. texts ≡ []) }
        ensures kind { OnlyMemory result }
    {
        let held = match part {
            Some(part) => Held::Part(part.beginning()?),
            None => Held::Alone(String::with_capacity(alloc, room)?),
        };
        Ok(TextBuffer { held })
    }

    /// Returns the texts, borrowed.
    pub fn as_str(&self) -> &str
        ensures { result.now ≡ self.now }
    {
        match &self.held {
            Held::Alone(whole) => whole.as_str(),
            // They are in UTF-8, as the invariant says.
            Held::Part(part) => unsafe { str::from_utf8_unchecked(part.as_slice()) },
        }
    }

    /// Puts a text behind the others. None is copied as long as each stands in the shared bytes behind the last; the
    /// first that doesn't takes room for so many bytes.
    ///
    /// # Errors
    /// Fails with `OutOfMemory` alone.
    pub fn push_str(&mut self, alloc: Global, text: &str, room: usize) -> Result<(), Error>
        ensures ok { OnOk result (self.new ≡ self.old ++ text.now) }
        ensures utf8 { IsUtf8 self.old }
        ensures kind { OnlyMemory result }
    {
        match &mut self.held {
            Held::Alone(whole) => whole.push_str(text)?,
            Held::Part(part) => {
                if !part.take_in(text.as_bytes()) {
                    let front = unsafe { str::from_utf8_unchecked(part.as_slice()) };
                    let whole = joined(alloc, front, text, room)?;
                    self.held = Held::Alone(whole);
                }
            }
        }
        Ok(())
    }

    /// Returns the texts in a string of their own.
    ///
    /// # Errors
    /// Fails with `OutOfMemory` alone.
    pub fn to_string(&self, alloc: Global) -> Result<String, Error>
        ensures ok { IfOk result (λ whole. string_bytes whole ≡ self.now) }
        ensures kind { OnlyMemory result }
    {
        Ok(String::from_str(alloc, self.as_str())?)
    }

    /// Returns the same texts once more.
    ///
    /// # Errors
    /// Fails with `OutOfMemory` alone.
    pub fn clone(&self) -> Result<TextBuffer, Error>
        ensures ok { IfOk result (λ texts. texts ≡ self.now) }
        ensures kind { OnlyMemory result }
    {
        let held = match &self.held {
            Held::Alone(whole) => Held::Alone(whole.clone()?),
            Held::Part(part) => Held::Part(part.clone()?),
        };
        Ok(TextBuffer { held })
    }
}

fn joined(alloc: Global, front: &str, text: &str, room: usize) -> Result<String, Error>
    ensures ok { IfOk result (λ whole. string_bytes whole ≡ front.now ++ text.now) }
    ensures kind { OnlyMemory result }
{
    let mut whole = String::with_capacity(alloc, room)?;
    whole.push_str(front)?;
    whole.push_str(text)?;
    Ok(whole)
}
