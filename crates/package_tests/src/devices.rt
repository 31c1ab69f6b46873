//! Devices in memory, and over readers, writers and seekers of `std`, with a buffer and without.

use crate::device_calls::Call::{Flush, Length, Read, ReadAll, Rewind, Write, WriteAll};
use crate::device_calls::End::{Flagged, Refused, Well};
use crate::device_calls::{DIGITS, Step, digits, gone};
use crate::outcome::passes;
use msi::{Buffered, Error, Metered};
use std::alloc::Global;
use std::io::{self, Cursor, Seek, SeekFrom};

/// Reads of memory end at its end.
const READS: [Step; 8] = [
    (Read(3, b"456"), Well),
    (Read(0, b""), Well),
    (Read(16, b"789"), Well),
    (Read(16, b""), Well),
    (Rewind, Well),
    (Read(2, b"01"), Well),
    (Length(10), Well),
    (Read(16, b""), Well),
];

/// Writes to memory go over its bytes and past its end.
const WRITES: [Step; 7] = [
    (Write(b"ab", 2), Well),
    (Read(2, b"67"), Well),
    (Write(b"cdef", 4), Well),
    (Length(12), Well),
    (Rewind, Well),
    (Write(b"g", 1), Well),
    (Flush, Well),
];

/// Steps of the digits in memory, from the fifth on, and the bytes then.
type InMemory = (&'static [Step], &'static [u8]);

static IN_MEMORY: [InMemory; 2] = [(&READS, DIGITS), (&WRITES, b"g123ab67cdef")];

fn memory_goes(alloc: Global, row: &InMemory) -> Result<bool, Error> {
    let (steps, held) = row;
    let mut memory = digits(alloc)?;
    let count = gone(alloc, &mut memory, *steps);
    Ok(count == steps.len() && memory.into_vec().as_slice() == *held)
}

pub(crate) fn memory_is_read_to_its_end_and_written_past_it(rt: &HostRuntime) -> bool {
    let mut pass = true;
    for row in &IN_MEMORY {
        pass &= passes(rt, &"memory", memory_goes(rt.alloc(), row));
    }
    pass
}

/// The ten digits in a file that counts its writes and flushes. A stubborn one fails to read, takes no byte, and says
/// that it holds nine.
#[derive(Drop)]
struct File {
    bytes: Cursor<Vec<u8>>,
    is_stubborn: bool,
    writes: usize,
    flushes: usize,
}

impl io::Read for File {
    fn read(&mut self, buf: &mut [u8]) -> io::Result<usize> {
        if self.is_stubborn {
            return Err(io::Error::from(io::ErrorKind::OutOfMemory));
        }
        self.bytes.read(buf)
    }
}

impl io::Write for File {
    fn write(&mut self, piece: &[u8]) -> io::Result<usize> {
        if self.is_stubborn {
            return Ok(0);
        }
        self.writes = self.writes.saturating_add(1);
        self.bytes.write(piece)
    }

    fn flush(&mut self) -> io::Result<()> {
        if self.is_stubborn {
            return Err(io::Error::from(io::ErrorKind::Interrupted));
        }
        self.flushes = self.flushes.saturating_add(1);
        self.bytes.flush()
    }
}

impl Seek for File {
    fn seek(&mut self, to: SeekFrom) -> io::Result<u64> {
        match to {
            SeekFrom::End(_) if self.is_stubborn => Ok(9),
            _ if self.is_stubborn => Err(io::Error::from(io::ErrorKind::Unsupported)),
            _ => self.bytes.seek(to),
        }
    }
}

fn digits_file(alloc: Global, is_stubborn: bool) -> Result<File, Error> {
    Ok(File {
        bytes: Cursor::new(Vec::from_slice(alloc, DIGITS)?),
        is_stubborn,
        writes: 0,
        flushes: 0,
    })
}

/// What is written to a file is read back.
const WRITTEN: [Step; 5] = [
    (WriteAll(b"ab"), Well),
    (Length(10), Well),
    (WriteAll(b"cd"), Well),
    (Flush, Well),
    (ReadAll(b"ab23456789cd"), Well),
];

/// Each fault of a stubborn file raises the flag, and is an `Io` whatever `std` says.
const FAULTS: [Step; 7] = [
    (Length(9), Well),
    (Write(b"", 0), Well),
    (Rewind, Refused),
    (Read(4, b""), Refused),
    (Write(b"a", 0), Flagged),
    (Flush, Refused),
    (ReadAll(b""), Refused),
];

/// Whether the file is stubborn, the steps of a device over it, and its bytes then.
type OverFile = (bool, &'static [Step], &'static [u8]);

static METERED: [OverFile; 2] = [(false, &WRITTEN, b"ab23456789cd"), (true, &FAULTS, DIGITS)];

fn metered_goes(alloc: Global, row: &OverFile) -> Result<bool, Error> {
    let (is_stubborn, steps, held) = row;
    let mut device = Metered::new(digits_file(alloc, *is_stubborn)?);
    let count = gone(alloc, &mut device, *steps);
    let file = device.into_inner();
    Ok(count == steps.len() && file.bytes.get_ref().as_slice() == *held)
}

pub(crate) fn files_are_written_and_read_and_faults_raise_the_flag(rt: &HostRuntime) -> bool {
    let mut pass = true;
    for row in &METERED {
        pass &= passes(rt, &row.0, metered_goes(rt.alloc(), row));
    }
    pass
}

/// Two pieces over the digits, and two behind them.
static PIECES: [Step; 6] = [
    (WriteAll(b"ab"), Well),
    (WriteAll(b"cd"), Well),
    (Length(10), Well),
    (WriteAll(b"e"), Well),
    (WriteAll(b"f"), Well),
    (ReadAll(b"abcd456789ef"), Well),
];

fn has_pieces(file: &File) -> bool {
    let is_held = file.bytes.get_ref().as_slice() == b"abcd456789ef".as_slice();
    is_held && file.writes == 2 && file.flushes > 0
}

/// Whether the pieces are written through a buffer in two writes.
fn are_collected(alloc: Global) -> Result<bool, Error> {
    let mut device = Buffered::new(alloc, digits_file(alloc, false)?)?;
    let count = gone(alloc, &mut device, &PIECES);
    match device.into_inner() {
        Ok(file) => Ok(count == PIECES.len() && has_pieces(&file)),
        Err((error, _device)) => Err(error),
    }
}

pub(crate) fn pieces_are_collected_and_read_back(rt: &HostRuntime) -> bool {
    passes(rt, &"pieces", are_collected(rt.alloc()))
}
