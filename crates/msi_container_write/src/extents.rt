//! Parts laid in order, each filled up with zeros to whole units of a size: sectors, or mini sectors.

ghost use Rattle.std.specs.Prelude.{◌≡◌, [], ◌+◌, ◌<◌, ◌^◌, length, if◌then◌else◌};
ghost use Rattle.msi_container_format.specs.Container as container;
ghost use Rattle.msi_container_write.specs.Extents as spec;

use msi_container_format::format::{END_OF_CHAIN, MINI_STREAM_CUTOFF};

/// Returns the part of a stream that lies in mini sectors: all where it is shorter than 4096 bytes, or none.
pub(crate) fn mini_part(bytes: &[u8]) -> &[u8]
    ensures { result.now ≡ (if container.is_mini (length bytes.now) then bytes.now else []) }
{
    if bytes.len() < MINI_STREAM_CUTOFF as usize {
        bytes
    } else {
        &[]
    }
}

/// Returns the part of a stream that lies in sectors: all where it has 4096 bytes or more, or none.
pub(crate) fn large_part(bytes: &[u8]) -> &[u8]
    ensures { result.now ≡ (if container.is_mini (length bytes.now) then [] else bytes.now) }
{
    if bytes.len() < MINI_STREAM_CUTOFF as usize {
        &[]
    } else {
        bytes
    }
}

pub(crate) fn units(part: &[u8], size: usize) -> usize
    requires { 0 < size }
    ensures { result ≡ spec.units size part.now }
{
    part.len().div_ceil(size)
}

/// Returns the first unit of a chain of `count` units, or the end mark if it has none.
pub(crate) fn start_of(first: u32, count: u32) -> u32
    ensures { result ≡ spec.start_of first count }
{
    if count == 0 { END_OF_CHAIN } else { first }
}

/// Returns the table's entry for unit `k` of a chain of `count` units from `first` on: it names the next unit, and the
/// last ends the chain.
pub(crate) fn chain_entry(first: u32, count: u32, k: u32) -> u32
    requires few { first + count < 2 ^ 31 }
    requires within { k < count }
    ensures { result ≡ spec.chain_entry first count k }
{
    if k + 1 < count {
        first + k + 1
    } else {
        END_OF_CHAIN
    }
}
