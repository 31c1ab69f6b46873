//! The calls by their names, and the answer of each.

use crate::session::Session;
use crate::{changes, commands, looks, packages, statements, summary};
use transcripts_words::answers::Answer;
use transcripts_words::failure::Failure;
use transcripts_words::tokens::tokens;
use transcripts_words::words::Words;
use transcripts_words::{calls, files};

pub(crate) fn make(
    rt: &HostRuntime,
    session: &mut Session,
    text: &str,
    answer: &mut Answer,
) -> Result<(), Failure> {
    let (verb, rest) = text.split_once(' ').unwrap_or((text, ""));
    if statements::VERBS.contains(&verb) {
        statements::make(rt.alloc(), session, text, answer)?;
        return answer.check();
    }
    let tokens = tokens(rt.alloc(), rest)?;
    let mut words = Words::new(rt.alloc(), tokens.as_slice());
    let outcome = make_call(rt, session, verb, &mut words, answer);
    words.check()?;
    outcome?;
    words.end()?;
    answer.check()
}

fn make_call(
    rt: &HostRuntime,
    session: &mut Session,
    verb: &str,
    words: &mut Words,
    answer: &mut Answer,
) -> Result<(), Failure> {
    if packages::VERBS.contains(&verb) || changes::VERBS.contains(&verb) {
        make_silent(session, verb, words)?;
        answer.push_str("ok");
        return Ok(());
    }
    if looks::VERBS.contains(&verb) {
        return looks::print(session.package()?, verb, words, answer);
    }
    match verb {
        "recount" | "calls" | "writes" => print_count(session, verb, answer),
        "value_from_uuid" => summary::print_uuid_value(words, answer),
        "save" | "load" => files::make(rt, &mut session.kept, verb, words, answer),
        _ if commands::VERBS.contains(&verb) => {
            commands::make(rt, &session.kept, verb, words, answer)
        }
        _ => calls::make(&mut session.kept, verb, words, answer),
    }
}

fn make_silent(session: &mut Session, verb: &str, words: &mut Words) -> Result<(), Failure> {
    if packages::VERBS.contains(&verb) {
        return packages::make(session, verb, words);
    }
    Ok(changes::make(session.package_mut()?, verb, words)?)
}

/// Counts the cells of a package anew, and prints how many counts changed; or prints how many calls or writes the
/// device got that was closed last.
fn print_count(session: &mut Session, verb: &str, answer: &mut Answer) -> Result<(), Failure> {
    match verb {
        "recount" => write!(answer, "{}", session.package_mut()?.recount()?),
        "calls" => write!(answer, "{}", session.calls),
        _ => write!(answer, "{}", session.writes),
    }
    Ok(())
}
