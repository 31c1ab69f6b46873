//! `batch`: commands of a text, a line each.

use crate::commands::{run, unwritten_status};
use msipkg_cli::words_of;
use msipkg_format::{Output, System};
use std::io;

/// Runs each line of standard input as a command, and prints the line before its output. Quotes keep blanks. Messages
/// go to the output too, and a status other than 0 has its own line. Empty lines and those that begin with `#` are only
/// printed. Returns the highest status.
pub(crate) fn run_lines(rt: HostRuntime) -> u8 {
    match io::read_to_string(rt.alloc(), rt.stdin()) {
        Ok(text) => run_text(rt, text.as_str()),
        Err(_) => 1,
    }
}

fn run_text(rt: HostRuntime, text: &str) -> u8 {
    let system = System {
        rt,
        is_shown: false,
        input: None,
    };
    let mut output = Output::to_output(rt);
    match run_each(&system, text, &mut output) {
        Ok(status) => status,
        Err(_) => unwritten_status(&output),
    }
}

fn run_each(rt: &System, text: &str, output: &mut Output) -> io::Result<u8> {
    let mut highest = 0u8;
    for line in text.lines() {
        highest = highest.max(run_line(rt, line, output)?);
    }
    Ok(highest)
}

fn run_line(rt: &System, line: &str, output: &mut Output) -> io::Result<u8> {
    if line.trim().is_empty() || line.starts_with('#') {
        writeln!(output, "{line}");
        output.end()?;
        return Ok(0);
    }
    writeln!(output, "$ msipkg {line}");
    output.end()?;
    match words_of(rt.alloc(), line)? {
        Some(words) => run_words(rt, words.as_slice(), output),
        None => refuse_line(output),
    }
}

/// Reports that a line has a quote that isn't closed.
fn refuse_line(output: &mut Output) -> io::Result<u8> {
    writeln!(output, "msipkg: a quote in this line isn't closed");
    writeln!(output, "[status 2]");
    output.end()?;
    Ok(2)
}

fn run_words(rt: &System, words: &[String], output: &mut Output) -> io::Result<u8> {
    let mut messages = Output::to_memory(rt.alloc());
    let status = run(rt, words, false, output, &mut messages);
    output.push_bytes(messages.as_bytes());
    if status != 0 {
        writeln!(output, "[status {status}]");
    }
    output.end()?;
    Ok(status)
}
