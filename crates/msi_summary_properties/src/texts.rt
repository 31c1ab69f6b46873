//! The texts of properties: each is a text of its own, or a piece of the text that a whole stream reads as.

ghost use Rattle.std.specs.Prelude.{◌≡◌, bytes_eq};
ghost use Rattle.std.specs.Cmp as Cmp;
ghost use Rattle.std.specs.Cmp.Lexicographic.{nat_list_eq_equiv};

use crate::piece::Piece;
use msi_base::text::Text;
use std::fmt;
use std::marker::Model;

/// Who has the bytes of a text.
#[derive(Drop)]
pub(crate) enum Owned {
    /// This value alone.
    Alone(Text),
    /// All the texts together that were read of a stream.
    Piece(Piece),
}

/// The text of a property. The texts of a set that is read share their bytes, so that a set whose ids share a text, or
/// whose texts overlap, takes no more memory than one whose texts stand apart. Contracts see the bytes in UTF-8.
#[derive(Drop)]
pub struct PropertyText {
    owned: Owned,
}

impl Model for PropertyText {
    ghost use Rattle.std.specs.Prelude.{List, ℕ};

    ghost Value = { List ℕ };

    ghost use Rattle.msi_summary_properties.specs.PropertyTexts.{bytes_of};

    ghost view = { λ t. bytes_of t.owned };
}

impl PropertyText {
    /// Returns a text of its own, which is moved in.
    pub fn from_text(text: Text) -> PropertyText
        ensures { result ≡ text }
    {
        PropertyText {
            owned: Owned::Alone(text),
        }
    }

    pub(crate) fn from_piece(piece: Piece) -> PropertyText
        ensures { result ≡ piece }
    {
        PropertyText {
            owned: Owned::Piece(piece),
        }
    }

    /// Returns the text, borrowed.
    pub fn as_str(&self) -> &str
        ensures { result.now ≡ self.now }
    {
        match &self.owned {
            Owned::Alone(text) => text.as_str(),
            Owned::Piece(piece) => piece.as_str(),
        }
    }
}

/// Texts are equal where their bytes are.
impl PartialEq for PropertyText {
    ghost eq = { bytes_eq };

    ghost laws = { Cmp.partial_equiv_from_equiv nat_list_eq_equiv };

    fn eq(&self, other: &PropertyText) -> bool {
        self.as_str() == other.as_str()
    }
}

impl Eq for PropertyText {
    ghost laws = { nat_list_eq_equiv };
}

/// Writes the text in quotes.
impl fmt::Debug for PropertyText {
    fn fmt<W: fmt::Write>(&self, f: &mut fmt::Formatter<W>) -> fmt::Result {
        write!(f, "{:?}", self.as_str())
    }
}
