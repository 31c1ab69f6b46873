//! The index from each text to its places.

ghost use Rattle.std.specs.Prelude.{◌≡◌, ℕ, ◌+◌, ◌<◌, ◌^◌, ◌==◌, ◌&&◌, ◌||◌, not, List, [], OnOk, OnErr, IfOk};
ghost use Rattle.msi_base.specs.Results.{OnlyMemory};
ghost use Rattle.msi_pool_places.specs.PoolIndexes.{IsLeast};
ghost use Rattle.msi_pool_places.specs.TextIndexes.{is_entered, is_same};

use crate::Operations;
use crate::shared::SharedText;
use msi_base::errors::Error;
use std::alloc::Global;
use std::collections::BTreeSet;
use std::marker::Model;

/// A text with one of its places, counted from 0. Entries are ordered by the text, and then by the place.
#[derive(Clone, PartialEq, Eq, PartialOrd, Ord, Drop)]
pub(crate) struct Entry {
    text: SharedText,
    at: u32,
}

impl Entry {
    pub(crate) fn new(text: SharedText, at: u32) -> Entry
        ensures { result ≡ record { text = text; at = at } }
    {
        Entry { text, at }
    }

    pub(crate) fn into_text(self) -> SharedText
        ensures { result ≡ self.text }
    {
        let Entry { text, at: _ } = self;
        text
    }
}

/// Texts with their places in use that can be named once more. Contracts see the entries in order.
#[derive(Drop)]
pub(crate) struct TextIndex {
    entries: BTreeSet<Entry>,
}

impl Model for TextIndex {
    ghost use Rattle.std.specs.Prelude.{List};
    ghost use Rattle.msi_pool_places.specs.declared.texts.Entry.{Entry};

    ghost Value = { List Entry };

    ghost view = { λ t. t.entries.keys };
}

impl TextIndex {
    pub(crate) fn new(alloc: Global) -> TextIndex
        ensures { result ≡ [] }
    {
        TextIndex {
            entries: BTreeSet::new(alloc),
        }
    }

    pub(crate) fn clone(&self) -> Result<TextIndex, Error>
        ensures ok { IfOk result (λ texts. texts ≡ self.now) }
        ensures kind { OnlyMemory result }
    {
        Ok(TextIndex {
            entries: self.entries.clone()?,
        })
    }

    /// Returns the least place of the text that `start` has, with 0 as its place.
    pub(crate) fn least(&self, start: &Entry, operations: &mut Operations) -> Option<u32>
        requires start { start.now.at ≡ 0 }
        requires operations { operations.old + 1 < 2 ^ 32 }
        ensures least { IsLeast (is_entered self.now start.now.text) result }
        ensures operation { operations.new ≡ operations.old + 1 }
    {
        operations.add_one();
        match self.entries.range(start..).next() {
            Some(next) if next.text == start.text => Some(next.at),
            _ => None,
        }
    }

    pub(crate) fn insert(&mut self, entry: Entry, operations: &mut Operations) -> Result<(), Error>
        requires { operations.old + 1 < 2 ^ 32 }
        ensures ok { OnOk result ((text : List ℕ) (i : ℕ) →
            is_entered self.new text i ≡ (is_same text i entry.text entry.at || is_entered self.old text i)) }
        ensures err { OnErr result (self.new ≡ self.old) }
        ensures kind { OnlyMemory result }
        ensures operation { operations.new ≡ operations.old + 1 }
    {
        operations.add_one();
        self.entries.insert(entry)?;
        Ok(())
    }

    pub(crate) fn remove(&mut self, entry: &Entry, operations: &mut Operations)
        requires { operations.old + 1 < 2 ^ 32 }
        ensures removed { (text : List ℕ) (i : ℕ) →
            is_entered self.new text i
            ≡ (not (is_same text i entry.now.text entry.now.at) && is_entered self.old text i) }
        ensures operation { operations.new ≡ operations.old + 1 }
    {
        operations.add_one();
        self.entries.remove(entry);
    }
}
