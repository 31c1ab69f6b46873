//! Texts whose copies share their bytes.

ghost use Rattle.std.specs.Prelude.{◌≡◌, IfOk, string_bytes};
ghost use Rattle.msi_base.specs.Results.{OnlyMemory};

use crate::errors::Error;
use std::alloc::Global;
use std::marker::Model;
use std::rc::RcStr;

/// A text whose copies take no memory for its bytes. A contract sees its bytes in UTF-8.
#[derive(Drop)]
pub struct SharedText {
    text: RcStr,
}

impl Model for SharedText {
    ghost use Rattle.std.specs.Prelude.{List, ℕ};
    ghost use Rattle.std.specs.Rc.{rc_str_bytes};

    ghost Value = { List ℕ };

    ghost view = { λ t. rc_str_bytes t.text };
}

impl SharedText {
    /// Returns a copy of the text, which its own copies share.
    ///
    /// # Errors
    /// Fails with `OutOfMemory`.
    pub fn from_str(alloc: Global, text: &str) -> Result<SharedText, Error>
        ensures ok { IfOk result (λ shared. shared ≡ text.now) }
        ensures kind { OnlyMemory result }
    {
        Ok(SharedText {
            text: RcStr::from_str(alloc, text)?,
        })
    }

    /// Returns the text of a string, which is moved in.
    ///
    /// # Errors
    /// Fails with `OutOfMemory`.
    pub fn from_string(text: String) -> Result<SharedText, Error>
        ensures ok { IfOk result (λ shared. shared ≡ string_bytes text) }
        ensures kind { OnlyMemory result }
    {
        Ok(SharedText {
            text: RcStr::from_string(text)?,
        })
    }

    /// Returns the text, borrowed.
    pub fn as_str(&self) -> &str
        ensures { result.now ≡ self.now }
    {
        self.text.as_str()
    }

    /// Returns the text once more, which takes no memory for its bytes.
    ///
    /// # Errors
    /// Fails with `OutOfMemory`.
    pub fn clone(&self) -> Result<SharedText, Error>
        ensures ok { IfOk result (λ shared. shared ≡ self.now) }
        ensures kind { OnlyMemory result }
    {
        Ok(SharedText {
            text: self.text.clone()?,
        })
    }
}
