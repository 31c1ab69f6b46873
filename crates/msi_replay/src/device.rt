//! Calls that write a package.

ghost use Rattle.msi.specs.Calls as calls;
ghost use Rattle.msi.specs.Runs.{SessionStep};
ghost use Rattle.msi_replay.specs.Taken.{Takes, Tells, session_at};
ghost use Rattle.msi_replay.specs.Told.{answer_told, told};

use crate::answer::Answer;
use crate::changing::done;
use msi::{ErrorKind, Items, Memory, Package};

pub(crate) fn flush(target: &mut Package<Memory>) -> Result<Answer, ErrorKind>
    requires { Tells target.old }
    ensures step { SessionStep (session_at target.old) calls.flush (told answer_told result)
        (session_at target.new) }
    ensures tells { Tells target.new }
{
    done(target.flush())
}

/// Returns the bytes that a flush would write over `earlier_len` bytes.
pub(crate) fn image(target: &Package<Memory>, earlier_len: u64) -> Result<Answer, ErrorKind>
    ensures { Takes target.now (calls.image earlier_len) (told answer_told result) target.now }
{
    match target.image(earlier_len) {
        Ok(bytes) => Ok(Answer::Bytes(Items::from_vec(bytes))),
        Err(error) => Err(error.kind()),
    }
}
