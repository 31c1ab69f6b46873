//! Numbers at positions in bytes. Past their end bytes read as zeros.

ghost use Rattle.std.specs.Prelude.{◌≡◌, ◌≤◌, ◌+◌, ◌*◌, ◌<◌, ◌^◌, ◌++◌, slice_index, length, OnOk};
ghost use Rattle.msi_container_format.specs.Bytes as spelled;

use byteorder::{ByteOrder, LittleEndian};
use std::alloc::AllocError;

/// Returns the byte at a position.
pub fn byte(bytes: &[u8], p: usize) -> u8
    ensures { result ≡ slice_index bytes.now p }
{
    bytes.get(p).copied().unwrap_or(0)
}

/// Returns the number in two bytes.
pub fn number16(bytes: &[u8], p: usize) -> u16
    requires { p + 1 < 2 ^ 64 }
    ensures { result ≡ spelled.number16 bytes.now p }
{
    LittleEndian::read_u16(&[byte(bytes, p), byte(bytes, p + 1)])
}

/// Returns the number in four bytes.
pub fn number32(bytes: &[u8], p: usize) -> u32
    requires { p + 3 < 2 ^ 64 }
    ensures { result ≡ spelled.number32 bytes.now p }
{
    LittleEndian::read_u32(&[
        byte(bytes, p),
        byte(bytes, p + 1),
        byte(bytes, p + 2),
        byte(bytes, p + 3),
    ])
}

/// Returns the number in eight bytes.
pub fn number64(bytes: &[u8], p: usize) -> u64
    requires { p + 7 < 2 ^ 64 }
    ensures { result ≡ spelled.number64 bytes.now p }
{
    LittleEndian::read_u64(&[
        byte(bytes, p),
        byte(bytes, p + 1),
        byte(bytes, p + 2),
        byte(bytes, p + 3),
        byte(bytes, p + 4),
        byte(bytes, p + 5),
        byte(bytes, p + 6),
        byte(bytes, p + 7),
    ])
}

/// Returns where byte `p` of a part stands whose sectors are its members.
pub fn place(size: usize, members: &[u32], p: usize) -> usize
    requires size { size ≤ 4096 }
    requires within { p < length members.now * size }
    ensures value { result ≡ spelled.place size members.now p }
    ensures most { result < 4096 * (2 ^ 32 + 1) }
{
    (members[p / size] as usize + 1) * size + p % size
}

/// Appends `count` bytes from a position on, with zeros for those past the end. If it fails, some of them may have
/// been appended.
pub fn push_bytes(
    held: &mut Vec<u8>,
    bytes: &[u8],
    from: usize,
    count: usize,
) -> Result<(), AllocError>
    requires { from + count < 2 ^ 64 }
    ensures { OnOk result (held.new.items ≡ held.old.items ++ spelled.bytes_at bytes.now from count) }
{
    let start = from.min(bytes.len());
    let end = (from + count).min(bytes.len());
    held.extend_from_slice(&bytes[start..end])?;
    for _ in end - start..count {
        held.push(0)?;
    }
    Ok(())
}
