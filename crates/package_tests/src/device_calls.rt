//! Calls of a device as rows of a table: what each is passed, what it returns, and how it ends.

use msi::parts::{fault, read_all, write_all};
use msi::{Device, Error, ErrorKind, Memory, Source};
use std::alloc::Global;

/// A call of a device, or of a function over one, with what it returns.
#[derive(Clone, Copy)]
pub(crate) enum Call {
    Rewind,
    Length(u64),
    /// Room for so many bytes, 16 at most, and the bytes that are read.
    Read(usize, &'static [u8]),
    /// A piece, and how many of its bytes are taken.
    Write(&'static [u8], usize),
    Flush,
    /// `write_all` of a piece.
    WriteAll(&'static [u8]),
    /// `read_all`, and the bytes that it returns.
    ReadAll(&'static [u8]),
}

/// How a call ends.
#[derive(Clone, Copy)]
pub(crate) enum End {
    /// As it says.
    Well,
    /// As it says, with the flag raised.
    Flagged,
    /// With an error, and the flag raised.
    Refused,
}

/// A call, and how it ends.
pub(crate) type Step = (Call, End);

fn reads<D: Device>(device: &mut D, room: usize, bytes: &[u8]) -> Result<bool, Error> {
    let mut buf = [0; 16];
    let count = device.read(&mut buf[..room.min(16)]).map_err(fault)?;
    Ok(buf.starts_with(bytes) && count == bytes.len())
}

fn returns<D: Device>(alloc: Global, device: &mut D, call: &Call) -> Result<bool, Error> {
    match call {
        Call::Rewind => device.rewind().map_err(fault)?,
        Call::Length(len) => return Ok(device.length().map_err(fault)? == *len),
        Call::Read(room, bytes) => return reads(device, *room, *bytes),
        Call::Write(piece, count) => return Ok(device.write(*piece).map_err(fault)? == *count),
        Call::Flush => device.flush().map_err(fault)?,
        Call::WriteAll(piece) => write_all(device, *piece)?,
        Call::ReadAll(bytes) => return Ok(read_all(alloc, device)?.as_slice() == *bytes),
    }
    Ok(true)
}

/// Whether a step goes as it says. The flag is cleared after it.
pub(crate) fn goes<D: Device>(alloc: Global, device: &mut D, step: &Step) -> bool {
    let (is_ok, is_flagged) = match step.1 {
        End::Well => (true, false),
        End::Flagged => (true, true),
        End::Refused => (false, true),
    };
    let is_so = match returns(alloc, device, &step.0) {
        Ok(is_so) => is_so && is_ok,
        Err(error) => error.kind() == ErrorKind::Io && !is_ok,
    };
    let failed = device.failed();
    device.clear_failed();
    is_so && failed == is_flagged
}

pub(crate) fn gone<D: Device>(alloc: Global, device: &mut D, steps: &[Step]) -> usize {
    for (number, step) in steps.iter().enumerate() {
        if !goes(alloc, device, step) {
            return number;
        }
    }
    steps.len()
}

/// The ten digits.
pub(crate) const DIGITS: &[u8] = b"0123456789";

/// Returns a device in memory that holds ten digits, at the fifth.
pub(crate) fn digits(alloc: Global) -> Result<Memory, Error> {
    let mut memory = Memory::from_vec(Vec::from_slice(alloc, DIGITS)?);
    memory.read(&mut [0; 4]).map_err(fault)?;
    Ok(memory)
}
