//! Makes calls that may be refused memory. They stand between a `[` and a `]` on standard output, and no other call is
//! to be refused any.

use crate::calls;
use crate::pictures::picture;
use crate::session::Session;
use transcripts_words::answers::Answer;
use transcripts_words::failure::Failure;

/// Makes a call, again if it is refused memory. The package has to answer then what it did before.
pub(crate) fn make(
    rt: &HostRuntime,
    session: &mut Session,
    text: &str,
    answer: &mut Answer,
) -> Result<(), Failure> {
    let before = picture(rt.alloc(), session)?;
    print!(rt; "[")?;
    let outcome = calls::make(rt, session, text, answer);
    println!(rt; "]")?;
    match outcome {
        Err(failure) if failure.is_memory() => {}
        _ => return outcome,
    }
    if picture(rt.alloc(), session)?.as_slice() != before.as_slice() {
        return Err(Failure::CHANGED);
    }
    answer.clear();
    calls::make(rt, session, text, answer)
}
