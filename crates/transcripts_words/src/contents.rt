//! The contents of compound files: made of a call's words, changed, and printed.

use crate::answers::Answer;
use crate::failure::Failure;
use crate::kept::{Kept, pieces, print_few};
use crate::words::Words;
use msi_base::{Error, ErrorKind};
use msi_container_format::contents::{Bytes, Contents, StreamMap};
use msi_container_format::name::Name;
use msi_container_format::streamname;
use msi_container_read::{Steps, read, read_counted};
use msi_container_write::write;
use std::alloc::{AllocError, Global};

/// The CLSID of an installer package.
const INSTALLER: [u8; 16] = [
    0x84, 0x10, 0x0C, 0, 0, 0, 0, 0, 0xC0, 0, 0, 0, 0, 0, 0, 0x46,
];

/// The CLSID of a transform.
const TRANSFORM: [u8; 16] = [
    0x82, 0x10, 0x0C, 0, 0, 0, 0, 0, 0xC0, 0, 0, 0, 0, 0, 0, 0x46,
];

/// Returns the file of an installer package with streams of some names and lengths: `(a 64) (b 0)`, and in front of
/// them `over 10000` for a longer file that they are written over, and `storages` if it has some.
pub(crate) fn written(words: &mut Words) -> Result<Vec<u8>, Error> {
    let over = words.count_behind("over", 0) as u64;
    let has_storages = words.takes("storages");
    let streams = streams(words)?;
    let contents = Contents {
        clsid: INSTALLER,
        streams,
        has_storages,
    };
    write(words.alloc, &contents, over)
}

fn streams(words: &mut Words) -> Result<StreamMap, Error> {
    let mut streams = StreamMap::new(words.alloc);
    for _ in 0..words.len() {
        if words.takes_mark('(') {
            let name = Name::new(words.name())?;
            let bytes = content(words.alloc, words.count())?;
            streams.insert(name, Bytes::from_vec(bytes))?;
            let _ = words.goes_on();
        }
    }
    Ok(streams)
}

/// Returns so many bytes: those from 1 to 251 in turn.
fn content(alloc: Global, len: usize) -> Result<Vec<u8>, AllocError> {
    let mut bytes = vec![in alloc; 0; len]?;
    for (i, byte) in bytes.iter_mut().enumerate() {
        *byte = (i % 251) as u8 + 1;
    }
    Ok(bytes)
}

/// Returns the name that the stream of a table has in a container. That of the summary has a table's name, too.
fn table_key(alloc: Global, table: &str) -> Result<Name, Error> {
    if table == "_SummaryInformation" {
        return Name::new(streamname::SUMMARY_INFO_STREAM_NAME);
    }
    let name = streamname::encode(alloc, table, true)?;
    Name::new(name.as_str())
}

pub(crate) fn stream_of_table(
    alloc: Global,
    bytes: &[u8],
    table: &str,
) -> Result<Vec<u8>, Failure> {
    let key = table_key(alloc, table)?;
    let contents = read(alloc, bytes)?;
    match contents.streams.get(&key) {
        Some(stream) => Ok(Vec::from_slice(alloc, stream.as_slice())?),
        None => Err(Failure::Unreadable("the table has no stream")),
    }
}

/// Reads a stream's name in the container: a text is that name, and a word is the name of a table.
fn key(words: &mut Words) -> Result<Name, Error> {
    match words.peek_word() {
        Some(table) => {
            let _ = words.next();
            table_key(words.alloc, table)
        }
        None => Name::new(words.name()),
    }
}

/// Reads the streams of a transform, each with its name and its bytes: `(_StringPool 00000000, "B.six" "6th")`. A word
/// is the name of a table, and a text that of another stream, as a package names it. Fails at a name that no stream may
/// have, where bytes can't be read, and if memory runs out.
pub fn transform(kept: &Kept, words: &mut Words) -> Result<Contents, Failure> {
    let mut streams = StreamMap::new(words.alloc);
    let mut goes_on = words.begins_list();
    for _ in 0..words.len() {
        if !goes_on {
            break;
        }
        let name = own_key(words)?;
        let bytes = Bytes::from_vec(pieces(kept, words)?);
        streams.insert(name, bytes)?;
        goes_on = words.goes_on();
    }
    Ok(Contents {
        clsid: TRANSFORM,
        streams,
        has_storages: false,
    })
}

/// Reads the name of a table's stream, which is a word, or that of another stream as a package names it.
fn own_key(words: &mut Words) -> Result<Name, Error> {
    if words.peek_word().is_some() {
        return key(words);
    }
    let name = streamname::encode(words.alloc, words.name(), false)?;
    Name::new(name.as_str())
}

pub(crate) fn changed(
    kept: &Kept,
    verb: &str,
    bytes: &[u8],
    words: &mut Words,
) -> Result<Vec<u8>, Failure> {
    let mut contents = read(words.alloc, bytes)?;
    change(kept, verb, &mut contents, words)?;
    Ok(write(words.alloc, &contents, 0)?)
}

fn change(
    kept: &Kept,
    verb: &str,
    contents: &mut Contents,
    words: &mut Words,
) -> Result<(), Failure> {
    match verb {
        "set_clsid" => set_clsid(contents, pieces(kept, words)?.as_slice()),
        "remove_raw" => {
            contents.streams.remove(&key(words)?);
        }
        _ => {
            let key = key(words)?;
            let bytes = Bytes::from_vec(pieces(kept, words)?);
            contents.streams.insert(key, bytes)?;
        }
    }
    Ok(())
}

fn set_clsid(contents: &mut Contents, clsid: &[u8]) {
    for (old, new) in contents.clsid.iter_mut().zip(clsid) {
        *old = *new;
    }
}

/// Prints what a file holds, and how many steps it takes to read. Fails if they are more than the number behind
/// `within`.
pub(crate) fn print_read(
    answer: &mut Answer,
    bytes: &[u8],
    words: &mut Words,
) -> Result<(), Failure> {
    let most = words.count_behind("within", usize::MAX);
    let mut steps = Steps::new();
    let outcome = read_counted(words.alloc, bytes, &mut steps);
    if steps.count() > most as u64 {
        return Err(Failure::Unreadable("there are more steps"));
    }
    let contents = outcome?;
    if contents.streams.is_empty() {
        answer.push_str("no streams\n");
    }
    print_streams(words.alloc, answer, &contents.streams)?;
    let storages = if contents.has_storages { "" } else { "no " };
    write!(answer, "{storages}storages, CLSID ");
    print_few(answer, &contents.clsid, 16);
    write!(answer, ", steps: {}", steps.count());
    Ok(())
}

/// Prints the name and the bytes of each stream as a line; of more than 16 bytes their number and their checksum.
fn print_streams(alloc: Global, answer: &mut Answer, streams: &StreamMap) -> Result<(), Error> {
    for (name, bytes) in streams.iter() {
        write!(answer, "{:?} ", name.to_text(alloc)?.as_str());
        print_few(answer, bytes.as_slice(), 16);
        answer.push_str("\n");
    }
    Ok(())
}

pub(crate) fn print_names(alloc: Global, answer: &mut Answer, bytes: &[u8]) -> Result<(), Failure> {
    let contents = read(alloc, bytes)?;
    for (name, _) in contents.streams.iter() {
        writeln!(answer, "{:?}", name.to_text(alloc)?.as_str());
    }
    Ok(())
}

/// Returns how many beginnings of a file are refused as invalid, from the empty one on.
pub(crate) fn refused_beginnings(alloc: Global, bytes: &[u8]) -> usize {
    for len in 0..bytes.len() {
        if !is_invalid(alloc, &bytes[..len]) {
            return len;
        }
    }
    bytes.len()
}

fn is_invalid(alloc: Global, bytes: &[u8]) -> bool {
    match read(alloc, bytes) {
        Ok(_contents) => false,
        Err(error) => error.kind() == ErrorKind::InvalidData,
    }
}
