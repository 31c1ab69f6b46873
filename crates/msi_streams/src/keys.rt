//! The container's names of streams, made without memory.

ghost use Rattle.std.specs.Prelude.{◌≡◌, ◌∷◌, [], None, Some, if◌then◌else◌, not};
ghost use Rattle.msi_base.specs.Refusals.{unless_refused};
ghost use Rattle.msi_database_schema.specs.Keys.{is_stream_name as is_accepted, stream_key};
ghost use Rattle.msi_base.specs.declared.errors.ErrorKind.TheVariants.{InvalidInput};

use crate::reasons;
use msi_base::errors::{Error, ErrorKind};
use msi_container_format::name::Name;
use msi_container_format::parts::packed_name;
use msi_database_schema::names::is_stream_name;

/// Returns the container's name of a stream, if a stream may have this name. It takes no memory.
pub fn accepted_key(name: &str) -> Option<Name>
    ensures { result ≡ (if is_accepted name.now then Some (stream_key name.now) else None) }
{
    if !is_stream_name(name) {
        return None;
    }
    packed_name(name, false)
}

/// Returns the container's name of a stream. It takes no memory.
///
/// # Errors
/// Fails with `InvalidInput` if no stream may have this name.
pub fn checked_key(name: &str) -> Result<Name, Error>
    ensures { result ≡ unless_refused ((not (is_accepted name.now), InvalidInput) ∷ []) (stream_key name.now) }
{
    match accepted_key(name) {
        Some(key) => Ok(key),
        None => Err(Error::new(ErrorKind::InvalidInput, reasons::STREAM_NAME)),
    }
}
