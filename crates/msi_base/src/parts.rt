//! What the crates above need beyond the surface.

ghost use Rattle.std.specs.Prelude.{◌≡◌, ◌<◌, ◌≤◌, ◌^◌, length};
ghost use Rattle.msi_base.specs.Numbers.{number_of as number_in};

pub use crate::buffer::TextBuffer;
pub use crate::codepage::tables::{character_count, upper_characters};
pub use crate::faults::{read_exactly, write_fully};
pub use crate::part::Part;
use byteorder::{ByteOrder, LittleEndian};

/// Returns the number in one to eight bytes, the lowest first.
pub fn number_of(bytes: &[u8]) -> u64
    requires least { 1 ≤ length bytes.now }
    requires most { length bytes.now ≤ 8 }
    ensures value { result ≡ number_in bytes.now }
    ensures below { result < 256 ^ length bytes.now }
{
    LittleEndian::read_uint(bytes, bytes.len())
}
