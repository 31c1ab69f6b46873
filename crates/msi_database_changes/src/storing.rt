//! Streams that are stored together, or none of them.

ghost use Rattle.std.specs.Prelude.{◌≡◌, OnErr, OnOk};
ghost use Rattle.std.specs.Vec.Iter.{into_iter_items};
ghost use Rattle.msi_base.specs.Results.{OnlyMemory};
ghost use Rattle.msi_database_changes.specs.Storing.{HaveOwnNames, stored_all};

use msi_base::errors::Error;
use msi_container_format::contents::{Bytes, StreamMap};
use msi_container_format::name::Name;
use msi_container_format::parts::put_back;
use std::vec::IntoIter;

/// What a stream becomes: these bytes, or no stream.
#[derive(Drop)]
pub struct Stored {
    pub name: Name,
    pub bytes: Option<Bytes>,
}

/// Stores each of these. Streams are put first, and what goes is removed only when all are put, since that takes no
/// memory. No two of them have one name.
///
/// # Errors
/// Fails with `OutOfMemory`; then nothing has changed.
pub fn store_all(streams: &mut StreamMap, mut changes: IntoIter<Stored>) -> Result<(), Error>
    requires { HaveOwnNames (into_iter_items changes) }
    ensures ok { OnOk result (streams.new ≡ stored_all streams.old (into_iter_items changes)) }
    ensures err { OnErr result (streams.new ≡ streams.old) }
    ensures kind { OnlyMemory result }
{
    let Some(Stored { name, bytes }) = changes.next() else {
        return Ok(());
    };
    match bytes {
        Some(bytes) => {
            let before = streams.replace(name.duplicate(), bytes)?;
            match store_all(streams, changes) {
                Ok(()) => Ok(()),
                Err(error) => {
                    put_back(streams, &name, before);
                    Err(error)
                }
            }
        }
        None => {
            store_all(streams, changes)?;
            streams.remove(&name);
            Ok(())
        }
    }
}
