//! Calls on bytes that are kept, and on the streams of a compound file among them.

use crate::answers::Answer;
use crate::contents::{changed, print_names, print_read, refused_beginnings, written};
use crate::failure::Failure;
use crate::kept::{Kept, pieces, print_bytes, ranged};
use crate::words::Words;

/// Makes a call on bytes that are kept, whose name comes first, and prints its answer. Fails if there is no such call,
/// if the bytes are no compound file where the call needs one, and if memory runs out.
pub fn make(
    kept: &mut Kept,
    verb: &str,
    words: &mut Words,
    answer: &mut Answer,
) -> Result<(), Failure> {
    match verb {
        "bytes" | "write_container" | "set_clsid" | "set_raw" | "remove_raw" => {
            let name = words.name();
            let bytes = bytes_of(kept, verb, name, words)?;
            kept.reserve(words.alloc, name)?;
            kept.keep(name, bytes);
            answer.push_str("ok");
            Ok(())
        }
        "show"
        | "size"
        | "number"
        | "same"
        | "raw_streams"
        | "read_container"
        | "refused_beginnings" => look(kept, verb, words, answer),
        _ => Err(Failure::Unreadable("there is no such call")),
    }
}

fn bytes_of(kept: &Kept, verb: &str, name: &str, words: &mut Words) -> Result<Vec<u8>, Failure> {
    match verb {
        "bytes" => pieces(kept, words),
        "write_container" => Ok(written(words)?),
        _ => changed(kept, verb, kept.bytes(name)?, words),
    }
}

fn look(kept: &Kept, verb: &str, words: &mut Words, answer: &mut Answer) -> Result<(), Failure> {
    let bytes = kept.bytes(words.name())?;
    match verb {
        "show" => return print_range(answer, bytes, words),
        "same" => write!(answer, "{}", bytes == kept.bytes(words.name())?),
        "number" => return print_number(answer, bytes, words.count()),
        "raw_streams" => return print_names(words.alloc, answer, bytes),
        "read_container" => return print_read(answer, bytes, words),
        "refused_beginnings" => write!(answer, "{}", refused_beginnings(words.alloc, bytes)),
        _ => write!(answer, "{}", bytes.len()),
    }
    Ok(())
}

fn print_number(answer: &mut Answer, bytes: &[u8], at: usize) -> Result<(), Failure> {
    match bytes.get(at..) {
        Some([a, b, c, d, ..]) => {
            write!(answer, "{}", u32::from_le_bytes([*a, *b, *c, *d]));
            Ok(())
        }
        _ => Err(Failure::Unreadable("the position is past the end")),
    }
}

fn print_range(answer: &mut Answer, bytes: &[u8], words: &mut Words) -> Result<(), Failure> {
    let range = words.peek_word().unwrap_or("0..");
    let _ = words.next();
    print_bytes(answer, ranged(bytes, range)?);
    Ok(())
}
