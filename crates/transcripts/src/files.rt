//! Transcripts in files.

use crate::transcript;
use std::fs;
use transcripts_words::failure::Failure;
use transcripts_words::lines::lines;
use transcripts_words::reports::Report;

/// Runs the transcript in a file, and returns whether each answer is as expected. A transcript without answers isn't.
fn run_file(rt: &HostRuntime, file: &str, is_trial: bool) -> Result<bool, Failure> {
    let text = fs::read_to_string(rt, file)?;
    let lines = lines(rt.alloc(), text.as_str())?;
    let mut report = Report::new(file, is_trial);
    transcript::run(rt, &mut report, lines.as_slice())?;
    let (answers, differing) = (report.answers, report.differing);
    if !is_trial {
        eprintln!(rt; "{file}: {answers} answers, {differing} differ")?;
    }
    Ok(differing == 0 && answers > 0)
}

pub(crate) fn run_files(
    rt: &HostRuntime,
    files: &[String],
    is_trial: bool,
) -> Result<bool, Failure> {
    let mut are_expected = true;
    for file in files {
        are_expected &= run_file(rt, file.as_str(), is_trial)?;
    }
    Ok(are_expected)
}
