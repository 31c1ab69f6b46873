//! Compares answers with those that a transcript expects.

use crate::answers::Answer;
use crate::failure::Failure;
use crate::lines::Line;

/// What was found in a transcript.
#[derive(Drop)]
pub struct Report<'a> {
    file: &'a str,
    is_trial: bool,
    /// How many calls were made.
    pub answers: usize,
    /// How many of them answered otherwise.
    pub differing: usize,
}

impl<'a> Report<'a> {
    /// Returns a report on a file of which no call is made yet. With `is_trial` calls behind `try` may be refused
    /// memory.
    pub fn new(file: &'a str, is_trial: bool) -> Report<'a> {
        Report {
            file,
            is_trial,
            answers: 0,
            differing: 0,
        }
    }

    /// Returns whether calls behind `try` may be refused memory.
    pub fn is_trial(&self) -> bool {
        self.is_trial
    }

    /// Compares what a call answered, or its failure, with the lines behind it, and prints the call if these expect
    /// another answer. Fails if memory runs out, and if nothing can be printed.
    pub fn check(
        &mut self,
        rt: &HostRuntime,
        line: &Line,
        rest: &[Line],
        outcome: Result<(), Failure>,
        answer: &mut Answer,
    ) -> Result<(), Failure> {
        if let Err(failure) = outcome {
            answer.clear();
            write!(answer, "{failure}");
        }
        self.answers = self.answers.saturating_add(1);
        answer.check()?;
        let expected = expected(rest);
        if are_lines(expected, answer.as_str()) {
            return Ok(());
        }
        self.print(rt, line, expected, answer.as_str())
    }

    fn print(
        &mut self,
        rt: &HostRuntime,
        line: &Line,
        expected: &[Line],
        answer: &str,
    ) -> Result<(), Failure> {
        self.differing = self.differing.saturating_add(1);
        let mut text = Answer::new(rt.alloc())?;
        let (number, call) = (line.number, line.text());
        writeln!(text, "{}:{number}: {call}", self.file);
        add_lines(expected, answer, &mut text);
        text.check()?;
        print!(rt; "{}", text.as_str())?;
        Ok(())
    }
}

fn add_lines(expected: &[Line], answer: &str, text: &mut Answer) {
    for line in expected {
        add_line("- ", line.expected(), text);
    }
    for line in answer.lines() {
        add_line("+ ", line, text);
    }
}

fn add_line(mark: &str, line: &str, text: &mut Answer) {
    text.push_str(mark);
    text.push_str(line);
    text.push_str("\n");
}

fn expected(rest: &[Line]) -> &[Line] {
    for i in 0..rest.len() {
        if !rest[i].is_answer() {
            return &rest[..i];
        }
    }
    rest
}

fn are_lines(expected: &[Line], answer: &str) -> bool {
    let mut found = answer.lines();
    for line in expected {
        if found.next() != Some(line.expected()) {
            return false;
        }
    }
    found.next().is_none()
}
