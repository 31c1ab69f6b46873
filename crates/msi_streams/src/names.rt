//! The names of the streams that a package lists.

ghost use Rattle.std.specs.Prelude.{◌≡◌, IfOk, IfSome, MatchOption, [], ◌∷◌, bytes_eq, filter, length, string_bytes};
ghost use Rattle.std.specs.FinMap as finite;
ghost use Rattle.std.specs.Iterator.{at_most};
ghost use Rattle.std.specs.Map.{keys_of};
ghost use Rattle.msi_base.specs.Results.{OnlyMemory};
ghost use Rattle.msi_container_format.specs.StreamNames.{is_marked as is_marked_name};
ghost use Rattle.msi_streams.specs.Listing.{GivesName, is_listed as is_listed_name, is_special as is_special_name};
ghost use Rattle.msi_streams.specs.Listing.{listed_names, text_of_key};

use msi_base::errors::Error;
use msi_container_format::contents::{Bytes, StreamMap};
use msi_container_format::name::Name;
use msi_container_format::streamname::decode;
use msi_database_schema::names::{
    document_summary_key, signature_ex_key, signature_key, summary_key,
};
use std::alloc::Global;
use std::collections::btree_map;
use std::marker::Model;

/// In front of a container's name: the stream holds a table.
const TABLE_MARK: u16 = 0x4840;

/// An iterator over the names of a package's streams, in the container's order: of those that hold no table, summary
/// or signature. After `OutOfMemory` none is left. Contracts see the names that are left.
#[derive(Drop)]
pub struct Streams<'a> {
    alloc: Global,
    entries: btree_map::Iter<'a, Name, Bytes>,
    is_over: bool,
}

impl<'a> Model for Streams<'a> {
    ghost use Rattle.std.specs.Prelude.{List, ℕ, [], if◌then◌else◌};
    ghost use Rattle.std.specs.Map.{keys_of};
    ghost use Rattle.msi_streams.specs.Listing.{listed_names};

    ghost Value = { List (List ℕ) };

    ghost view = { λ s. if s.is_over then [] else listed_names (keys_of s.entries) };
}

impl<'a> Streams<'a> {
    /// Returns the names of the listed ones among these streams.
    pub fn new(alloc: Global, streams: &'a StreamMap) -> Streams<'a>
        ensures { result ≡ listed_names (finite.keys streams.now) }
    {
        Streams {
            alloc,
            entries: streams.iter(),
            is_over: false,
        }
    }
}

/// Gives the names in order. An item is `OutOfMemory` where a growth was refused, and then no name is left.
impl<'a> Iterator for Streams<'a> {
    type Item = Result<String, Error>;

    ghost next_gives = { GivesName };

    ghost remaining = { λ names. at_most (length names) };

    fn next(&mut self) -> Option<Result<String, Error>> {
        if self.is_over {
            return None;
        }
        let name = next_listed(&mut self.entries)?;
        let text = text_of(self.alloc, name);
        self.is_over = text.is_err();
        Some(text)
    }
}

fn next_listed<'a>(entries: &mut btree_map::Iter<'a, Name, Bytes>) -> Option<&'a Name>
    ensures { MatchOption result
        ((filter is_listed_name (keys_of entries.old) ≡ []) × (entries.new ≡ []))
        (λ name. filter is_listed_name (keys_of entries.old) ≡ name.now ∷ filter is_listed_name (keys_of entries.new)) }
{
    while let Some((name, _)) = entries.next() {
        if is_listed(name) {
            return Some(name);
        }
    }
    None
}

/// Returns whether a container's name is that of a stream which is listed. It takes no memory.
pub fn is_listed(name: &Name) -> bool
    ensures { result ≡ is_listed_name name.now }
{
    !(is_marked(name) || is_special(name))
}

/// Whether a container's name begins with the mark of a table.
fn is_marked(name: &Name) -> bool
    ensures { result ≡ is_marked_name name.now }
{
    name.units()[0] == TABLE_MARK
}

/// Whether a container's name is that of a summary or of a signature.
fn is_special(name: &Name) -> bool
    ensures { result ≡ is_special_name name.now }
{
    is_same(name, &summary_key())
        || is_same(name, &document_summary_key())
        || is_same(name, &signature_key())
        || is_same(name, &signature_ex_key())
}

fn is_same(name: &Name, other: &Name) -> bool
    ensures { result ≡ bytes_eq name.now other.now }
{
    name.units() == other.units()
}

fn text_of(alloc: Global, name: &Name) -> Result<String, Error>
    ensures ok { IfOk result (λ text. string_bytes text ≡ text_of_key name.now) }
    ensures kind { OnlyMemory result }
{
    let encoded = name.to_text(alloc)?;
    let (text, _) = decode(alloc, encoded.as_str())?;
    Ok(text)
}
