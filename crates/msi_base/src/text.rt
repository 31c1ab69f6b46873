//! Texts and lists inside larger types: contracts see their bytes and their items.

ghost use Rattle.std.specs.Prelude.{◌≡◌, ◌==◌, List, ℕ, IfOk, IfErr, length, string_bytes, Some, nat_eq, bytes_eq};
ghost use Rattle.std.specs.Cmp as Cmp;
ghost use Rattle.std.specs.Cmp.Lexicographic.{slice_cmp, nat_list_eq_equiv, nat_list_cmp_total, texts_ties, texts_po};
ghost use Rattle.std.specs.Ordering.{nat_cmp};
ghost use Rattle.std.specs.Fmt.{padded};
ghost use Rattle.std.specs.Hash as fed;
ghost use Rattle.std.specs.Cmp.Rules.{hashing};
ghost use Rattle.std.proofs.Common.{refl, rules};
ghost use Rattle.msi_base.specs.Results.{OnlyMemory};
ghost use Rattle.msi_base.specs.declared.errors.ErrorKind.TheVariants.{OutOfMemory};

use crate::errors::Error;
use crate::shared_text::SharedText;
use std::alloc::Global;
use std::cmp::Ordering;
use std::fmt;
use std::hash::{Hash, Hasher};
use std::marker::Model;

/// A text. A contract sees its bytes in UTF-8.
#[derive(Debug, Drop)]
pub struct Text {
    text: String,
}

impl Model for Text {
    ghost use Rattle.std.specs.Prelude.{List, ℕ, string_bytes};

    ghost Value = { List ℕ };

    ghost view = { λ t. string_bytes t.text };
}

impl Text {
    /// Returns the text of a string, which is moved in.
    pub fn from_string(text: String) -> Text
        ensures { result ≡ string_bytes text }
    {
        Text { text }
    }

    /// Returns the text, borrowed.
    pub fn as_str(&self) -> &str
        ensures { result.now ≡ self.now }
    {
        self.text.as_str()
    }

    /// Returns the string, which is moved out.
    pub fn into_string(self) -> String
        ensures { string_bytes result ≡ self }
    {
        let Text { text } = self;
        text
    }

    /// Returns a copy of the text.
    ///
    /// # Errors
    /// Fails with `OutOfMemory`.
    pub fn clone(&self, alloc: Global) -> Result<Text, Error>
        ensures ok { IfOk result (λ text. text ≡ self.now) }
        ensures kind { OnlyMemory result }
    {
        let text = String::from_str(alloc, self.as_str())?;
        Ok(Text { text })
    }
}

/// Texts are equal where their bytes are.
impl PartialEq for Text {
    ghost eq = { bytes_eq };

    ghost laws = { Cmp.partial_equiv_from_equiv nat_list_eq_equiv };

    fn eq(&self, other: &Text) -> bool {
        self.as_str() == other.as_str()
    }
}

impl Eq for Text {
    ghost laws = { nat_list_eq_equiv };
}

/// Texts are ordered as their bytes: the first that differs decides, and else the lengths do.
impl Ord for Text {
    ghost cmp = { slice_cmp nat_cmp };

    ghost total = { nat_list_cmp_total };

    ghost matches_partial_cmp = { λ a b. refl };

    ghost matches_eq = { texts_ties };

    fn cmp(&self, other: &Text) -> Ordering {
        self.as_str().cmp(other.as_str())
    }
}

impl PartialOrd for Text {
    ghost partial_cmp = { λ a b. Some (slice_cmp nat_cmp a b) };

    ghost laws = { texts_po };

    fn partial_cmp(&self, other: &Text) -> Option<Ordering> {
        Some(self.cmp(other))
    }
}

impl Hash for Text {
    ghost hash_input = { fed.str };

    ghost respects_eq = { Prim.search (hashing, rules) };

    fn hash<H: Hasher>(&self, state: &mut H) {
        self.as_str().hash(state);
    }
}

/// Writes the text.
impl fmt::Display for Text {
    ghost output = { λ text. Some text };

    ghost styled_output = { λ text spec. Some (padded spec text) };

    fn fmt<W: fmt::Write>(&self, f: &mut fmt::Formatter<W>) -> fmt::Result {
        f.pad(self.as_str())
    }
}

/// Types that can be turned into a `Text`, or into a `SharedText`.
pub trait IntoText {
    /// The bytes of the text.
    ghost text: { Self → List ℕ };

    /// Returns the text.
    ///
    /// # Errors
    /// Fails with `OutOfMemory`.
    fn into_text(self, alloc: Global) -> Result<Text, Error>
        ensures ok { IfOk result (λ t. t ≡ text self) }
        ensures kind { OnlyMemory result };

    /// Returns the text, to be shared by its copies.
    ///
    /// # Errors
    /// Fails with `OutOfMemory`.
    fn into_shared(self, alloc: Global) -> Result<SharedText, Error>
        ensures ok { IfOk result (λ t. t ≡ text self) }
        ensures kind { OnlyMemory result };
}

/// Copies the text.
impl IntoText for &str {
    ghost text = { λ s. s.now };

    fn into_text(self, alloc: Global) -> Result<Text, Error> {
        Ok(Text {
            text: String::from_str(alloc, self)?,
        })
    }

    fn into_shared(self, alloc: Global) -> Result<SharedText, Error> {
        SharedText::from_str(alloc, self)
    }
}

/// Moves the text in.
impl IntoText for String {
    ghost text = { λ s. string_bytes s };

    fn into_text(self, _alloc: Global) -> Result<Text, Error> {
        Ok(Text { text: self })
    }

    fn into_shared(self, _alloc: Global) -> Result<SharedText, Error> {
        SharedText::from_string(self)
    }
}

/// Takes no memory for the bytes of a `SharedText`; a `Text` has a copy of them.
impl IntoText for SharedText {
    ghost text = { λ s. s };

    fn into_text(self, alloc: Global) -> Result<Text, Error> {
        Ok(Text {
            text: String::from_str(alloc, self.as_str())?,
        })
    }

    fn into_shared(self, _alloc: Global) -> Result<SharedText, Error> {
        Ok(self)
    }
}

/// Items in order. A contract sees their list.
#[derive(Debug, Drop)]
pub struct Items<T> {
    items: Vec<T>,
}

impl<T> Model for Items<T> {
    ghost use Rattle.std.specs.Prelude.{List};

    ghost Value = { List T };

    ghost view = { λ t. t.items.items };
}

impl<T> Items<T> {
    /// Returns the items of a vector, which is moved in.
    pub fn from_vec(items: Vec<T>) -> Items<T>
        ensures { result ≡ items.items }
    {
        Items { items }
    }

    /// Returns the items, borrowed.
    pub fn as_slice(&self) -> &[T]
        ensures { result.now ≡ self.now }
    {
        self.items.as_slice()
    }

    /// Returns the vector, which is moved out.
    pub fn into_vec(self) -> Vec<T>
        ensures { result.items ≡ self }
    {
        let Items { items } = self;
        items
    }

    /// Returns how many items there are.
    pub fn len(&self) -> usize
        ensures { result ≡ length self.now }
    {
        self.items.len()
    }

    /// Returns whether there is no item.
    pub fn is_empty(&self) -> bool
        ensures { result ≡ (length self.now == 0) }
    {
        self.items.is_empty()
    }
}
