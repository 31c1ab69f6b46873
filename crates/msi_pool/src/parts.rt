//! What the crates above need beyond the surface.

ghost use Rattle.std.specs.Prelude.{◌≡◌, ◌↔◌, ◌≤◌, length, IsTrue, IfOk, IfErr, OnOk, OnErr, Some, is_some, true};
ghost use Rattle.std.specs.Prelude.{if◌then◌else◌, string_bytes};
ghost use Rattle.msi_base.specs.declared.errors.ErrorKind.TheVariants.{InvalidInput, OutOfMemory};
ghost use Rattle.msi_pool_places.specs.FirstFit.{is_long_with, taken};
ghost use Rattle.msi_pool_places.specs.Recounting.{many_recounted, with_counts};
ghost use Rattle.msi_pool_places.specs.Pool.{CountsFit, PlacesWritten, without_unnamed_texts};

pub use crate::stringpool::reading::{pool_builder_of, pool_of};
pub use crate::stringpool::writing::{check_texts, data_stream_of, pool_stream_of};
use crate::stringpool::{StringPool, StringRef};
use msi_base::errors::Error;
pub use msi_pool_places::most_places;

/// Returns the place of a number.
pub fn string_ref(number: u32) -> StringRef
    requires least { 1 ≤ number }
    requires most { number ≤ 16777215 }
    ensures { result ≡ number }
{
    StringRef::from_number(number)
}

/// Returns the number of a place, without sign.
pub fn place_number(reference: StringRef) -> u32
    ensures { result ≡ reference }
{
    reference.to_number()
}

/// Stores a text as `StringPool::incref` does, and widens the pool's references if it needs a place past 65535.
///
/// # Errors
/// Fails with `InvalidInput` if the pool has 16777215 places and none is free or has the text, and otherwise with
/// `OutOfMemory`. Then the pool is as it was, and the text is dropped.
pub fn incref_widening(pool: &mut StringPool, text: String) -> Result<StringRef, Error>
    ensures ok { IfOk result (λ number.
        taken true pool.old.places (string_bytes text) ≡ Some (number, pool.new.places)) }
    ensures long { OnOk result (pool.new.long ≡ is_long_with pool.old.long pool.new.places) }
    ensures kind { let room = is_some (taken true pool.old.places (string_bytes text)) in
        IfErr result (λ kind. kind ≡ (if room then OutOfMemory else InvalidInput)) }
    ensures err { OnErr result (pool.new ≡ pool.old) }
    ensures page { pool.new.page ≡ pool.old.page }
{
    pool.incref_widening(text)
}

/// Sets the count of each place, from number 1 on, and returns how many places got another one. A place without cells
/// becomes free, and its text empty; any other keeps its text. It takes no memory.
pub fn set_counts(pool: &mut StringPool, counts: &[u16]) -> u32
    requires { length counts.now ≡ length pool.old.places }
    ensures pool { pool.new ≡ record pool.old { places = with_counts counts.now pool.old.places } }
    ensures changed { result ≡ many_recounted counts.now pool.old.places }
{
    pool.set_counts(counts)
}

/// Empties the text of each place that is free and isn't named: `is_named` says which are, from number 1 on. All else
/// stays. It takes no memory.
pub fn forget_texts(pool: &mut StringPool, is_named: &[bool])
    requires { length is_named.now ≡ length pool.old.places }
    ensures { pool.new ≡ record pool.old { places = without_unnamed_texts is_named.now pool.old.places } }
{
    pool.forget_texts(is_named);
}

/// Returns whether the text of each free place is empty, so that no text can be dropped. It takes no memory.
pub fn free_places_are_empty(pool: &StringPool) -> bool
    ensures exact { IsTrue result ↔ PlacesWritten pool.now.places }
    ensures many { length pool.now.places ≤ 16777215 }
    ensures counts { CountsFit pool.now.places }
{
    pool.free_places_are_empty()
}
