//! Texts that the places and the index of texts share.

ghost use Rattle.std.specs.Prelude.{◌≡◌, ◌==◌, [], IfOk, string_bytes, Some, bytes_eq};
ghost use Rattle.std.specs.Cmp as Cmp;
ghost use Rattle.std.specs.Cmp.Lexicographic.{slice_cmp, nat_list_eq_equiv, nat_list_cmp_total, texts_ties, texts_po};
ghost use Rattle.std.specs.Ordering.{nat_cmp};
ghost use Rattle.std.proofs.Common.{refl};
ghost use Rattle.msi_base.specs.Results.{OnlyMemory};

use crate::piece::Piece;
use msi_base::errors::Error;
use std::alloc::{AllocError, Global};
use std::cmp::Ordering;
use std::marker::Model;
use std::rc::RcStr;

/// Who has the bytes of a text.
#[derive(Drop)]
pub(crate) enum Owned {
    /// This value alone. Each copy takes memory for the bytes.
    Alone(String),
    /// All the copies together.
    Together(RcStr),
    /// All the pieces of a longer text together.
    Piece(Piece),
}

/// A text. Once it is shared, a copy takes no memory for its bytes. Contracts see the bytes in UTF-8.
#[derive(Drop)]
pub(crate) struct SharedText {
    owned: Owned,
}

impl Model for SharedText {
    ghost use Rattle.std.specs.Prelude.{List, ℕ};

    ghost Value = { List ℕ };

    ghost use Rattle.msi_pool_places.specs.SharedTexts.{bytes_of};

    ghost view = { λ t. bytes_of t.owned };
}

impl SharedText {
    pub(crate) fn from_string(text: String) -> SharedText
        ensures { result ≡ string_bytes text }
    {
        SharedText {
            owned: Owned::Alone(text),
        }
    }

    pub(crate) fn from_piece(piece: Piece) -> SharedText
        ensures { result ≡ piece }
    {
        SharedText {
            owned: Owned::Piece(piece),
        }
    }

    pub(crate) fn empty(alloc: Global) -> SharedText
        ensures { result ≡ [] }
    {
        SharedText::from_string(String::new(alloc))
    }

    pub(crate) fn as_str(&self) -> &str
        ensures { result.now ≡ self.now }
    {
        match &self.owned {
            Owned::Alone(text) => text.as_str(),
            Owned::Together(text) => text.as_str(),
            Owned::Piece(piece) => piece.as_str(),
        }
    }

    /// Returns the text, to be shared from now on. An empty text stays as it is.
    pub(crate) fn into_shared(self) -> Result<SharedText, Error>
        ensures ok { IfOk result (λ text. text ≡ self) }
        ensures kind { OnlyMemory result }
    {
        let SharedText { owned } = self;
        match owned {
            Owned::Alone(text) => shared(text),
            Owned::Together(text) => Ok(SharedText {
                owned: Owned::Together(text),
            }),
            Owned::Piece(piece) => Ok(SharedText::from_piece(piece)),
        }
    }
}

fn shared(text: String) -> Result<SharedText, Error>
    ensures ok { IfOk result (λ shared. shared ≡ string_bytes text) }
    ensures kind { OnlyMemory result }
{
    if text.is_empty() {
        return Ok(SharedText::from_string(text));
    }
    Ok(SharedText {
        owned: Owned::Together(RcStr::from_string(text)?),
    })
}

/// The same text once more.
impl Clone for SharedText {
    ghost is_clone = { λ text copy. copy ≡ text };

    fn clone(&self) -> Result<SharedText, AllocError> {
        let owned = match &self.owned {
            Owned::Alone(text) => Owned::Alone(text.clone()?),
            Owned::Together(text) => Owned::Together(text.clone()?),
            Owned::Piece(piece) => Owned::Piece(piece.clone()?),
        };
        Ok(SharedText { owned })
    }
}

/// Texts are equal where their bytes are.
impl PartialEq for SharedText {
    ghost eq = { bytes_eq };

    ghost laws = { Cmp.partial_equiv_from_equiv nat_list_eq_equiv };

    fn eq(&self, other: &SharedText) -> bool {
        self.as_str() == other.as_str()
    }
}

impl Eq for SharedText {
    ghost laws = { nat_list_eq_equiv };
}

/// Texts are ordered as their bytes.
impl Ord for SharedText {
    ghost cmp = { slice_cmp nat_cmp };

    ghost total = { nat_list_cmp_total };

    ghost matches_partial_cmp = { λ a b. refl };

    ghost matches_eq = { texts_ties };

    fn cmp(&self, other: &SharedText) -> Ordering {
        self.as_str().cmp(other.as_str())
    }
}

impl PartialOrd for SharedText {
    ghost partial_cmp = { λ a b. Some (slice_cmp nat_cmp a b) };

    ghost laws = { texts_po };

    fn partial_cmp(&self, other: &SharedText) -> Option<Ordering> {
        Some(self.cmp(other))
    }
}
