//! Bytes that are kept by name, and pieces of bytes.

use crate::answers::Answer;
use crate::contents::stream_of_table;
use crate::failure::Failure;
use crate::tokens::Token;
use crate::words::Words;
use std::alloc::Global;
use std::collections::BTreeMap;

/// Bytes by name, as those of a device that a package was written to.
pub struct Kept {
    named: BTreeMap<String, Vec<u8>>,
}

/// Written out, so that a function that owns one calls one drop.
impl Drop for Kept {
    fn drop(self) {
        let Kept { named: _ } = self;
    }
}

impl Kept {
    /// Returns no bytes of any name.
    pub fn new(alloc: Global) -> Kept {
        Kept {
            named: BTreeMap::new(alloc),
        }
    }

    /// Keeps no bytes under a name if it has none, so that `keep` takes no memory. Fails if memory runs out.
    pub fn reserve(&mut self, alloc: Global, name: &str) -> Result<(), Failure> {
        if self.named.get(name).is_none() {
            let name = String::from_str(alloc, name)?;
            self.named.insert(name, Vec::new(alloc))?;
        }
        Ok(())
    }

    /// Keeps bytes under a name that was reserved, in place of those that it had.
    pub fn keep(&mut self, name: &str, bytes: Vec<u8>) {
        if let Some(kept) = self.named.get_mut(name) {
            *kept = bytes;
        }
    }

    /// Returns the bytes of a name. Fails if it has none.
    pub fn bytes(&self, name: &str) -> Result<&[u8], Failure> {
        match self.named.get(name) {
            Some(bytes) => Ok(bytes.as_slice()),
            None => Err(Failure::Unreadable("no bytes have this name")),
        }
    }
}

/// Reads pieces up to a mark or the line's end: bytes as hexadecimal digits, texts, bytes that are kept, `@NAME`, and
/// the stream of a table in them, `@NAME/TABLE`; of these a part, `@NAME:0..512`. With `*3` behind it a piece stands
/// there three times. Fails at what is no piece, at a name or a table that has no bytes, and if memory runs out.
pub fn pieces(kept: &Kept, words: &mut Words) -> Result<Vec<u8>, Failure> {
    let mut all = Vec::new(words.alloc);
    for _ in 0..words.len() {
        let Some(piece) = words.next_unmarked() else {
            break;
        };
        add_times(words.alloc, &mut all, kept, piece, times(words))?;
    }
    Ok(all)
}

fn times(words: &mut Words) -> usize {
    match words.peek_word().and_then(|word| word.strip_prefix('*')) {
        Some(count) => {
            let _ = words.next();
            words.spelled(count.parse::<usize>().ok(), 0, "a count is missing")
        }
        None => 1,
    }
}

fn add_times(
    alloc: Global,
    all: &mut Vec<u8>,
    kept: &Kept,
    piece: &Token,
    times: usize,
) -> Result<(), Failure> {
    for _ in 0..times {
        add_piece(alloc, all, kept, piece)?;
    }
    Ok(())
}

fn add_piece(alloc: Global, all: &mut Vec<u8>, kept: &Kept, piece: &Token) -> Result<(), Failure> {
    match piece {
        Token::Text(text) => Ok(all.extend_from_slice(text.as_bytes())?),
        Token::Word(word) => match word.as_str().strip_prefix('@') {
            Some(name) => add_kept(alloc, all, kept, name),
            None => add_digits(all, word.as_str()),
        },
        Token::Mark(_) => Err(NO_BYTES),
    }
}

fn add_kept(alloc: Global, all: &mut Vec<u8>, kept: &Kept, name: &str) -> Result<(), Failure> {
    let (name, range) = name.split_once(':').unwrap_or((name, "0.."));
    let Some((name, table)) = name.split_once('/') else {
        return add_range(all, kept.bytes(name)?, range);
    };
    let stream = stream_of_table(alloc, kept.bytes(name)?, table)?;
    add_range(all, stream.as_slice(), range)
}

fn add_range(all: &mut Vec<u8>, bytes: &[u8], range: &str) -> Result<(), Failure> {
    Ok(all.extend_from_slice(ranged(bytes, range)?)?)
}

/// Returns the bytes in a range, such as `0..512` or `512..`.
pub(crate) fn ranged<'a>(bytes: &'a [u8], range: &str) -> Result<&'a [u8], Failure> {
    let (from, to) = range.split_once("..").unwrap_or((range, range));
    let to = if to.is_empty() {
        bytes.len()
    } else {
        place(to)
    };
    bytes
        .get(place(from)..to)
        .ok_or(Failure::Unreadable("the range is past the end"))
}

/// Returns the place that a word spells, or one past all ends.
fn place(word: &str) -> usize {
    word.parse::<usize>().unwrap_or(usize::MAX)
}

/// The failure of a word that spells no bytes.
const NO_BYTES: Failure = Failure::Unreadable("bytes are missing");

fn add_digits(all: &mut Vec<u8>, word: &str) -> Result<(), Failure> {
    let mut first = None;
    for c in word.chars() {
        let digit = c.to_digit(16).ok_or(NO_BYTES)? as u8;
        match first.take() {
            None => first = Some(digit),
            Some(high) => all.push(high << 4 | digit)?,
        }
    }
    match first {
        None => Ok(()),
        Some(_) => Err(Failure::Unreadable("a byte has two digits")),
    }
}

/// Prints bytes, or their number and their Adler-32 checksum if they are more than 256.
pub fn print_bytes(answer: &mut Answer, bytes: &[u8]) {
    print_few(answer, bytes, 256);
}

pub(crate) fn print_few(answer: &mut Answer, bytes: &[u8], most: usize) {
    let count = bytes.len();
    if count == 0 {
        answer.push_str("no bytes");
    } else if count > most {
        write!(answer, "{count} bytes, adler32 {:08x}", adler32(bytes));
    } else {
        spell(answer, bytes);
    }
}

fn spell(answer: &mut Answer, bytes: &[u8]) {
    let mut before = "";
    for byte in bytes {
        write!(answer, "{before}{byte:02x}");
        before = " ";
    }
}

/// Returns the Adler-32 checksum of bytes (RFC 1950).
fn adler32(bytes: &[u8]) -> u32 {
    let mut sum = 1u32;
    let mut sums = 0u32;
    for byte in bytes {
        sum = sum.wrapping_add(u32::from(*byte)) % 65521;
        sums = sums.wrapping_add(sum) % 65521;
    }
    sums.wrapping_mul(65536).wrapping_add(sum)
}
