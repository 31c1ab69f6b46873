//! What the crates above need beyond the surface.

ghost use Rattle.std.specs.Prelude.{◌≡◌, ◌+◌, ◌≤◌, IfSome, length, true};
ghost use Rattle.std.specs.FinMap as finite;
ghost use Rattle.msi_container_format.specs.Bytes.{bytes_at};
ghost use Rattle.msi_container_format.specs.Streams.{with_or_without};

pub use crate::bytes::{byte, number16, number32, number64, place, push_bytes};
use crate::contents::{Bytes, StreamMap};
use crate::name::Name;
pub use crate::packing::packed_name;
use msi_base::parts::Part;
use std::rc::Rc;

/// Returns a stream that has so many of these bytes, from a position on. It shares them, and copies none.
pub fn part_of(whole: Rc<Vec<u8>>, start: usize, count: usize) -> Bytes
    requires { start + count ≤ length whole.value.items }
    ensures { result ≡ bytes_at whole.value.items start count }
{
    Bytes::from_part(Part::new(whole, start, count))
}

/// Returns the part of shared bytes that a stream is, unless it has its bytes alone.
pub fn shared_part(bytes: &Bytes) -> Option<&Part>
    ensures { IfSome result (λ part. part.now ≡ bytes.now) }
{
    bytes.part()
}

/// Puts back what `StreamMap::replace` handed back: these bytes, or no stream. A stream of that name has to be there,
/// so it takes no memory.
pub fn put_back(streams: &mut StreamMap, name: &Name, bytes: Option<Bytes>)
    requires { finite.contains_key streams.old name.now ≡ true }
    ensures { streams.new ≡ with_or_without streams.old name.now bytes }
{
    streams.put_back(name, bytes);
}
