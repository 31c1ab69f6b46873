//! Makes the calls of a transcript.

use crate::session::Session;
use crate::{calls, cursors, trials};
use transcripts_words::answers::Answer;
use transcripts_words::failure::Failure;
use transcripts_words::lines::Line;
use transcripts_words::reports::Report;

pub(crate) fn run(rt: &HostRuntime, report: &mut Report, lines: &[Line]) -> Result<(), Failure> {
    let mut session = Session::new(rt.alloc());
    for i in 0..lines.len() {
        if lines[i].is_call() {
            run_line(rt, report, &mut session, &lines[i], &lines[i + 1..])?;
        }
    }
    Ok(())
}

fn run_line(
    rt: &HostRuntime,
    report: &mut Report,
    session: &mut Session,
    line: &Line,
    rest: &[Line],
) -> Result<(), Failure> {
    if is_stream(rest) {
        return cursors::run(rt, report, session, line, rest);
    }
    let mut answer = Answer::new(rt.alloc())?;
    let outcome = match line.text().strip_prefix("try ") {
        Some(text) if report.is_trial() => trials::make(rt, session, text, &mut answer),
        Some(text) => calls::make(rt, session, text, &mut answer),
        None => calls::make(rt, session, line.text(), &mut answer),
    };
    report.check(rt, line, rest, outcome, &mut answer)
}

fn is_stream(rest: &[Line]) -> bool {
    for line in rest {
        if line.is_call() || line.is_cursor_call() {
            return line.is_cursor_call();
        }
    }
    false
}
