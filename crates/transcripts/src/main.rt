//! Makes the calls of transcripts, and prints each call that answers otherwise than expected:
//! `transcripts check FILE..`. The exit status is 1 if one does, and 2 for wrong usage. `docs/TRANSCRIPTS.md` shows
//! what stands in a transcript.
//!
//! `transcripts trials FILE..` is what `tools/try-faults` runs: there each call behind `try` may be refused memory.
#![tactic(auto)]

mod agreement;
mod calls;
mod changes;
mod commands;
mod cursors;
mod files;
mod looks;
mod packages;
mod pictures;
mod session;
mod statements;
mod summary;
mod transcript;
mod trials;

use files::run_files;
use std::env;
use std::process::ExitCode;
use transcripts_words::failure::Failure;

fn run(rt: &HostRuntime) -> Result<u8, Failure> {
    let words: Vec<String> = env::args(rt)?.skip(1).collect(rt.alloc())?;
    let Some((verb, files)) = words.as_slice().split_first() else {
        return Ok(2);
    };
    let are_expected = match verb.as_str() {
        "check" => run_files(rt, files, false)?,
        "trials" => run_files(rt, files, true)?,
        _ => return Ok(2),
    };
    Ok(if are_expected { 0 } else { 1 })
}

fn main(rt: HostRuntime) -> ExitCode {
    match run(&rt) {
        Ok(2) => {
            let _ = eprintln!(rt; "usage: transcripts check|trials FILE..");
            ExitCode::from(2)
        }
        Ok(status) => ExitCode::from(status),
        Err(failure) => {
            let _ = eprintln!(rt; "transcripts: {failure}");
            ExitCode::FAILURE
        }
    }
}
