//! Runs of the commands of `msidb`, on files.

use msidb_commands::run;
use std::alloc::AllocError;
use std::io::{self, Read, Write};
use std::{fs, str};
use transcripts_words::answers::Answer;
use transcripts_words::failure::Failure;
use transcripts_words::kept::{Kept, pieces, print_bytes};
use transcripts_words::tokens::Token;
use transcripts_words::words::Words;

/// The names of these calls.
pub(crate) static VERBS: [&str; 4] = ["msidb", "msidb_broken", "msidb_unflushed", "msidb_moving"];

/// The most bytes of a text that is printed as it is.
const MOST: usize = 1024;

/// A standard input.
#[derive(Clone, Copy)]
struct Input<'a> {
    rt: &'a HostRuntime,
    bytes: &'a [u8],
    /// A path, and the one that its file is moved to when this is read. It fails where there is no such file.
    moved: Option<(&'a str, &'a str)>,
}

impl Read for Input<'_> {
    fn read(&mut self, buffer: &mut [u8]) -> io::Result<usize> {
        if let Some((from, to)) = self.moved {
            fs::rename(self.rt, from, to)?;
        }
        self.bytes.read(buffer)
    }
}

/// A standard output: that of `msidb_unflushed` can't be flushed, and keeps nothing; those of `msidb_broken` and
/// `msidb_moving` take nothing.
#[derive(Drop)]
struct Output<'a> {
    bytes: Vec<u8>,
    verb: &'a str,
}

impl Write for Output<'_> {
    fn write(&mut self, bytes: &[u8]) -> io::Result<usize> {
        match self.verb {
            "msidb" => self.bytes.write(bytes),
            "msidb_unflushed" => Ok(bytes.len()),
            _ => Ok(0),
        }
    }

    fn flush(&mut self) -> io::Result<()> {
        if self.verb == "msidb_unflushed" {
            return Err(io::Error::from(io::ErrorKind::BrokenPipe));
        }
        Ok(())
    }
}

/// Runs a command, whose standard input is behind `<`, and prints what it prints, its line of errors, and the status if
/// that isn't 0.
pub(crate) fn make(
    rt: &HostRuntime,
    kept: &Kept,
    verb: &str,
    words: &mut Words,
    answer: &mut Answer,
) -> Result<(), Failure> {
    let moved = moved_by(verb, words);
    let command = command(words)?;
    let _ = words.takes("<");
    let bytes = pieces(kept, words)?;
    let input = Input {
        rt,
        bytes: bytes.as_slice(),
        moved,
    };
    run_on(rt, command.as_slice(), input, verb, answer);
    Ok(())
}

fn moved_by<'a>(verb: &str, words: &mut Words<'a>) -> Option<(&'a str, &'a str)> {
    match verb {
        "msidb_broken" => Some(("", "")),
        "msidb_moving" => Some((words.name(), words.name())),
        _ => None,
    }
}

fn command(words: &mut Words) -> Result<Vec<String>, AllocError> {
    let mut command = Vec::new(words.alloc);
    for _ in 0..words.len() {
        if words.peek_word() == Some("<") {
            break;
        }
        if let Some(Token::Word(word) | Token::Text(word)) = words.next_unmarked() {
            command.push(String::from_str(words.alloc, word.as_str())?)?;
        }
    }
    Ok(command)
}

/// Runs a command, and prints its outcome. Where it fails, its file has to be as it was.
fn run_on(
    rt: &HostRuntime,
    command: &[String],
    mut input: Input<'_>,
    verb: &str,
    answer: &mut Answer,
) {
    let before = file_of(rt, command);
    let mut output = Output {
        bytes: Vec::new(rt.alloc()),
        verb,
    };
    let mut errors = Vec::new(rt.alloc());
    let status = run(rt, command, &mut input, &mut output, &mut errors);
    print_text(answer, output.bytes.as_slice());
    print_text(answer, errors.as_slice());
    if status != 0 {
        writeln!(answer, "[{status}]");
        let is_same = before.as_slice() == file_of(rt, command).as_slice();
        answer.push_str(if is_same { "" } else { "changed" });
    }
    if answer.is_empty() {
        answer.push_str("ok");
    }
}

fn file_of(rt: &HostRuntime, command: &[String]) -> Vec<u8> {
    let path = command.get(1).map_or("", |path| path.as_str());
    fs::read(rt, path).unwrap_or(Vec::new(rt.alloc()))
}

/// Prints a text, or the number and the checksum of its bytes if they are many.
fn print_text(answer: &mut Answer, bytes: &[u8]) {
    match str::from_utf8(bytes) {
        Ok(text) if text.len() <= MOST => answer.push_str(text),
        _ => print_bytes(answer, bytes),
    }
}
