//! Lists of texts whose copies share them.

ghost use Rattle.std.specs.Prelude.{◌≡◌, ◌==◌, [], IfOk, IsOk, length};
ghost use Rattle.msi_base.specs.Results.{OnlyMemory};

use msi_base::errors::Error;
use msi_base::text::{Items, Text};
use std::marker::Model;
use std::rc::RcSlice;

/// A list of texts whose copies take no memory for them. A contract sees the list.
#[derive(Drop)]
pub struct SharedTexts {
    texts: Option<RcSlice<Text>>,
}

impl Model for SharedTexts {
    ghost use Rattle.std.specs.Prelude.{List, ℕ, []};
    ghost use Rattle.std.specs.Option.{option_map_or};
    ghost use Rattle.std.specs.Rc.{rc_slice_items};

    ghost Value = { List (List ℕ) };

    ghost view = { λ t. option_map_or (λ texts. rc_slice_items texts) t.texts [] };
}

impl SharedTexts {
    /// Returns a list of no text, which takes no memory.
    pub fn new() -> SharedTexts
        ensures { result ≡ [] }
    {
        SharedTexts { texts: None }
    }

    /// Returns a list of these texts, which are moved in. No text takes no memory.
    ///
    /// # Errors
    /// Fails with `OutOfMemory`, unless there is no text.
    pub fn from_items(texts: Items<Text>) -> Result<SharedTexts, Error>
        ensures ok { IfOk result (λ shared. shared ≡ texts) }
        ensures none { texts ≡ [] → IsOk result }
        ensures kind { OnlyMemory result }
    {
        if texts.is_empty() {
            return Ok(SharedTexts::new());
        }
        Ok(SharedTexts {
            texts: Some(RcSlice::from_vec(texts.into_vec())?),
        })
    }

    /// Returns the texts, borrowed.
    pub fn as_slice(&self) -> &[Text]
        ensures { result.now ≡ self.now }
    {
        match &self.texts {
            Some(texts) => texts.as_slice(),
            None => &[],
        }
    }

    /// Returns the list once more, which takes no memory for the texts.
    ///
    /// # Errors
    /// Fails with `OutOfMemory`.
    pub fn clone(&self) -> Result<SharedTexts, Error>
        ensures ok { IfOk result (λ shared. shared ≡ self.now) }
        ensures kind { OnlyMemory result }
    {
        let texts = match &self.texts {
            Some(texts) => Some(texts.clone()?),
            None => None,
        };
        Ok(SharedTexts { texts })
    }
}
