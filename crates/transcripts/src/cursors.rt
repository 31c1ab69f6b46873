//! Calls on the reader or the writer of a stream, whose lines are indented below the call that opens the stream.

use crate::session::{NO_PACKAGE, Session};
use msi::{StreamReader, StreamWriter};
use std::alloc::Global;
use std::io::{Read, Seek, SeekFrom, Write};
use transcripts_words::answers::Answer;
use transcripts_words::failure::Failure;
use transcripts_words::kept::{Kept, pieces, print_bytes};
use transcripts_words::lines::Line;
use transcripts_words::reports::Report;
use transcripts_words::tokens::tokens;
use transcripts_words::words::Words;

pub(crate) fn run(
    rt: &HostRuntime,
    report: &mut Report,
    session: &mut Session,
    line: &Line,
    rest: &[Line],
) -> Result<(), Failure> {
    let tokens = tokens(rt.alloc(), line.text())?;
    let mut words = Words::new(rt.alloc(), tokens.as_slice());
    let (verb, name) = (words.word(), words.name());
    words.end()?;
    match verb {
        "write_stream" => write(rt, report, session, name, line, rest),
        "read_stream" => read(rt, report, session, name, line, rest),
        _ => Err(Failure::Unreadable("no stream is open for the calls below")),
    }
}

fn check(
    rt: &HostRuntime,
    report: &mut Report,
    line: &Line,
    rest: &[Line],
    outcome: Result<(), Failure>,
) -> Result<(), Failure> {
    let mut answer = Answer::new(rt.alloc())?;
    answer.push_str("ok");
    report.check(rt, line, rest, outcome, &mut answer)
}

fn write(
    rt: &HostRuntime,
    report: &mut Report,
    session: &mut Session,
    name: &str,
    line: &Line,
    rest: &[Line],
) -> Result<(), Failure> {
    let Some(package) = &mut session.package else {
        return Err(NO_PACKAGE);
    };
    let stream = match package.write_stream(name) {
        Ok(stream) => stream,
        Err(error) => return check(rt, report, line, rest, Err(Failure::from(error))),
    };
    check(rt, report, line, rest, Ok(()))?;
    for i in 0..rest.len() {
        if rest[i].is_call() {
            break;
        }
        if rest[i].is_cursor_call() {
            let mut answer = Answer::new(rt.alloc())?;
            let outcome = write_line(
                rt,
                report,
                &session.kept,
                &mut *stream,
                &rest[i],
                &mut answer,
            );
            report.check(rt, &rest[i], &rest[i + 1..], outcome, &mut answer)?;
        }
    }
    Ok(())
}

fn write_line(
    rt: &HostRuntime,
    report: &Report,
    kept: &Kept,
    stream: StreamWriter,
    line: &Line,
    answer: &mut Answer,
) -> Result<(), Failure> {
    let text = line.text().trim_start();
    match text.strip_prefix("try ") {
        Some(text) if report.is_trial() => try_call(rt, kept, stream, text, answer),
        Some(text) => make_write(rt.alloc(), kept, stream, text, answer),
        None => make_write(rt.alloc(), kept, stream, text, answer),
    }
}

/// Makes a call on a writer that may be refused memory. Such a call is made again, where the bytes and the position
/// are as before.
fn try_call(
    rt: &HostRuntime,
    kept: &Kept,
    stream: StreamWriter,
    text: &str,
    answer: &mut Answer,
) -> Result<(), Failure> {
    let before = picture(rt.alloc(), &mut *stream)?;
    print!(rt; "[")?;
    let outcome = make_write(rt.alloc(), kept, &mut *stream, text, answer);
    println!(rt; "]")?;
    match outcome {
        Err(failure) if failure.is_memory() => {}
        _ => return outcome,
    }
    if picture(rt.alloc(), &mut *stream)?.as_slice() != before.as_slice() {
        return Err(Failure::CHANGED);
    }
    answer.clear();
    make_write(rt.alloc(), kept, stream, text, answer)
}

fn picture(alloc: Global, stream: StreamWriter) -> Result<Vec<u8>, Failure> {
    let mut bytes = Vec::from_slice(alloc, stream.as_slice())?;
    let place = stream.seek(SeekFrom::Current(0))?;
    bytes.extend_from_slice(place.to_le_bytes().as_slice())?;
    Ok(bytes)
}

/// Makes a call on a writer: `write PIECES`, which prints how many bytes were taken, `seek start 4`, `flush`.
fn make_write(
    alloc: Global,
    kept: &Kept,
    stream: StreamWriter,
    text: &str,
    answer: &mut Answer,
) -> Result<(), Failure> {
    let tokens = tokens(alloc, text)?;
    let mut words = Words::new(alloc, tokens.as_slice());
    match words.word() {
        "write" => {
            let piece = pieces(kept, &mut words)?;
            write!(answer, "{}", stream.write(piece.as_slice())?);
        }
        "seek" => write!(answer, "{}", stream.seek(target(&mut words))?),
        "flush" => {
            stream.flush()?;
            answer.push_str("ok");
        }
        _ => words.refuse("a writer has no such call"),
    }
    words.end()?;
    answer.check()
}

fn read(
    rt: &HostRuntime,
    report: &mut Report,
    session: &Session,
    name: &str,
    line: &Line,
    rest: &[Line],
) -> Result<(), Failure> {
    let mut stream = match session.package()?.read_stream(name) {
        Ok(stream) => stream,
        Err(error) => return check(rt, report, line, rest, Err(Failure::from(error))),
    };
    check(rt, report, line, rest, Ok(()))?;
    for i in 0..rest.len() {
        if rest[i].is_call() {
            break;
        }
        if rest[i].is_cursor_call() {
            let mut answer = Answer::new(rt.alloc())?;
            let outcome = make_read(rt.alloc(), &mut stream, rest[i].text(), &mut answer);
            report.check(rt, &rest[i], &rest[i + 1..], outcome, &mut answer)?;
        }
    }
    Ok(())
}

/// Makes a call on a reader: `read 10`; `read_all 10`, which reads to the end by pieces of so many bytes; or
/// `seek end -2`.
fn make_read(
    alloc: Global,
    stream: &mut StreamReader,
    text: &str,
    answer: &mut Answer,
) -> Result<(), Failure> {
    let tokens = tokens(alloc, text)?;
    let mut words = Words::new(alloc, tokens.as_slice());
    match words.word() {
        "read" => print_bytes(answer, read_piece(alloc, stream, words.count())?.as_slice()),
        "read_all" => print_bytes(answer, read_all(alloc, stream, words.count())?.as_slice()),
        "seek" => write!(answer, "{}", stream.seek(target(&mut words))?),
        _ => words.refuse("a reader has no such call"),
    }
    words.end()?;
    answer.check()
}

fn read_piece(alloc: Global, stream: &mut StreamReader, len: usize) -> Result<Vec<u8>, Failure> {
    let mut piece = vec![in alloc; 0; len]?;
    let count = stream.read(piece.as_mut_slice())?;
    piece.truncate(count);
    Ok(piece)
}

fn read_all(alloc: Global, stream: &mut StreamReader, len: usize) -> Result<Vec<u8>, Failure> {
    let mut all = Vec::new(alloc);
    for _ in 0..u64::MAX {
        let piece = read_piece(alloc, stream, len)?;
        if piece.is_empty() {
            break;
        }
        all.extend_from_slice(piece.as_slice())?;
    }
    Ok(all)
}

/// Reads where a seek goes: `start 4`, `current -1` or `end -2`.
fn target(words: &mut Words) -> SeekFrom {
    let from = words.word();
    if from == "start" {
        return SeekFrom::Start(words.count() as u64);
    }
    let offset = words.word().parse::<i64>().ok();
    let offset = words.spelled(offset, 0, "a number is missing");
    match from {
        "current" => SeekFrom::Current(offset),
        "end" => SeekFrom::End(offset),
        _ => {
            words.refuse("a seek goes nowhere");
            SeekFrom::Start(0)
        }
    }
}
