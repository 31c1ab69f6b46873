//! Numbers as bytes, the lowest byte first: read from the front of a slice, and appended to a vector.

ghost use Rattle.std.specs.Prelude.{◌≡◌, ◌++◌, OnOk, OnErr};
ghost use Rattle.std.specs.Int.{w8, w16, w32, w64, to_le_bytes};
ghost use Rattle.msi_base.specs.Numbers.{bytes_at as front_of, number_at};
ghost use Rattle.msi_base.specs.Results.{Gives};

use crate::errors::{Error, ErrorKind, Reason};
use byteorder::{ByteOrder, LittleEndian};
use std::alloc::AllocError;

/// Returns as many bytes as are asked for, and the bytes after them.
///
/// # Errors
/// Fails with `InvalidData`, for this reason, if there are fewer.
pub fn bytes_at(bytes: &[u8], len: usize, cut: Reason) -> Result<(&[u8], &[u8]), Error>
    ensures { Gives (λ x. (x.0.now, x.1.now)) result (front_of len bytes.now) }
{
    if bytes.len() < len {
        return Err(Error::new(ErrorKind::InvalidData, cut));
    }
    Ok(bytes.split_at(len))
}

/// Returns the number of 8 bits in front, and the bytes after it.
///
/// # Errors
/// Fails with `InvalidData`, for this reason, if there is no byte.
pub fn u8_at(bytes: &[u8], cut: Reason) -> Result<(u8, &[u8]), Error>
    ensures { Gives (λ x. (x.0, x.1.now)) result (number_at w8 bytes.now) }
{
    let (front, rest) = bytes_at(bytes, 1, cut)?;
    Ok((front[0], rest))
}

/// Returns the number of 16 bits in front, the lowest byte first, and the bytes after it.
///
/// # Errors
/// Fails with `InvalidData`, for this reason, if there are fewer than 2 bytes.
pub fn u16_at(bytes: &[u8], cut: Reason) -> Result<(u16, &[u8]), Error>
    ensures { Gives (λ x. (x.0, x.1.now)) result (number_at w16 bytes.now) }
{
    let (front, rest) = bytes_at(bytes, 2, cut)?;
    Ok((LittleEndian::read_u16(front), rest))
}

/// Returns the number of 32 bits in front, the lowest byte first, and the bytes after it.
///
/// # Errors
/// Fails with `InvalidData`, for this reason, if there are fewer than 4 bytes.
pub fn u32_at(bytes: &[u8], cut: Reason) -> Result<(u32, &[u8]), Error>
    ensures { Gives (λ x. (x.0, x.1.now)) result (number_at w32 bytes.now) }
{
    let (front, rest) = bytes_at(bytes, 4, cut)?;
    Ok((LittleEndian::read_u32(front), rest))
}

/// Returns the number of 64 bits in front, the lowest byte first, and the bytes after it.
///
/// # Errors
/// Fails with `InvalidData`, for this reason, if there are fewer than 8 bytes.
pub fn u64_at(bytes: &[u8], cut: Reason) -> Result<(u64, &[u8]), Error>
    ensures { Gives (λ x. (x.0, x.1.now)) result (number_at w64 bytes.now) }
{
    let (front, rest) = bytes_at(bytes, 8, cut)?;
    Ok((LittleEndian::read_u64(front), rest))
}

/// Returns the identifier of 16 bytes in front, in the order in which they stand, and the bytes after it.
///
/// # Errors
/// Fails with `InvalidData`, for this reason, if there are fewer than 16 bytes.
pub fn identifier_at(bytes: &[u8], cut: Reason) -> Result<([u8; 16], &[u8]), Error>
    ensures { Gives (λ x. (x.0, x.1.now)) result (front_of 16 bytes.now) }
{
    match bytes.split_first_chunk::<16>() {
        Some((identifier, rest)) => Ok((*identifier, rest)),
        None => Err(Error::new(ErrorKind::InvalidData, cut)),
    }
}

/// Appends a number of 16 bits, the lowest byte first. If memory is refused, the bytes stay as they were.
pub fn push_u16(held: &mut Vec<u8>, number: u16) -> Result<(), AllocError>
    ensures ok { OnOk result (held.new.items ≡ held.old.items ++ to_le_bytes w16 number) }
    ensures err { OnErr result (held.new.items ≡ held.old.items) }
{
    held.extend_from_slice(&number.to_le_bytes())
}

/// Appends a number of 32 bits, the lowest byte first. If memory is refused, the bytes stay as they were.
pub fn push_u32(held: &mut Vec<u8>, number: u32) -> Result<(), AllocError>
    ensures ok { OnOk result (held.new.items ≡ held.old.items ++ to_le_bytes w32 number) }
    ensures err { OnErr result (held.new.items ≡ held.old.items) }
{
    held.extend_from_slice(&number.to_le_bytes())
}
