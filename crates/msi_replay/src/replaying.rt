//! Calls on a package in memory, new or opened, carried out in turn.

ghost use Rattle.std.specs.Prelude.{◌≡◌, [], IfErr, IfOk, Ok, OnOk, Some, map};
ghost use Rattle.std.specs.List.{AllByRecursion};
ghost use Rattle.msi.specs.Text.Results.{OnlyMemory};
ghost use Rattle.msi.specs.Container.Held.{bytes_told};
ghost use Rattle.msi.specs.Laws.{AreBytes};
ghost use Rattle.msi.specs.Runs.{FitsCall, IsReplay, IsReplayOver, IsReplayOverRefused, IsReplayRefused, Run};
ghost use Rattle.msi.specs.Meaning.{OpensTo};
ghost use Rattle.msi.specs.Runs.{SessionStep, created, opened};
ghost use Rattle.msi.specs.State.{State};
ghost use Rattle.msi_replay.specs.Sent.{call_sent};
ghost use Rattle.msi_replay.specs.Taken.{Ends, HoldsIfWritable, IsEndRefused, Tells, session_at};
ghost use Rattle.msi_replay.specs.Told.{answer_told, told};

use crate::answer::Answer;
use crate::call::Call;
use crate::changing::{change, change_summary, recount};
use crate::device::{flush, image};
use crate::looking::{ask_summary, look_up, select};
use crate::streaming::{read_stream, write_stream};
use msi::{Error, ErrorKind, Items, Memory, Package, PackageType};
use std::alloc::Global;

/// The results of calls, the bytes that the package was written as in the end, and whether its texts read back.
#[derive(Drop)]
pub struct Replayed {
    /// The result of each call, in order.
    pub answers: Items<Result<Answer, ErrorKind>>,
    /// The bytes.
    pub bytes: Vec<u8>,
    /// Whether each text of the package reads back as it was, once it is written in its page: then the bytes mean the
    /// package, and opening them gives it. It is true if both pages are UTF-8.
    pub is_writable: bool,
}

fn carry_out(
    alloc: Global,
    target: &mut Package<Memory>,
    call: Call,
) -> Result<Result<Answer, ErrorKind>, Error>
    requires { Tells target.old }
    ensures step { IfOk result (λ answer. SessionStep (session_at target.old) (call_sent call)
        (told answer_told answer) (session_at target.new)) }
    ensures fits { OnOk result (FitsCall (call_sent call)) }
    ensures tells { OnOk result (Tells target.new) }
    ensures kind { OnlyMemory result }
{
    match call {
        Call::LookUp(question) => look_up(alloc, target, question),
        Call::SelectRows(query) => select(alloc, target, query),
        Call::Change(step) => Ok(change(target, step)),
        Call::Recount => Ok(recount(target)),
        Call::SummaryInfo(questions) => ask_summary(alloc, target, questions),
        Call::SummaryInfoMut(steps) => change_summary(alloc, target, steps),
        Call::WriteStream(name, steps) => write_stream(alloc, target, name, steps),
        Call::ReadStream(name, steps) => read_stream(alloc, target, name, steps),
        Call::Image(earlier_len) => Ok(image(target, earlier_len)),
        Call::Flush => Ok(flush(target)),
        Call::DeviceFailed => Ok(Ok(Answer::Flag(target.device_failed()))),
    }
}

fn carry_out_all(
    alloc: Global,
    target: &mut Package<Memory>,
    steps: Vec<Call>,
) -> Result<Items<Result<Answer, ErrorKind>>, Error>
    requires { Tells target.old }
    ensures run { IfOk result (λ answers. Run (session_at target.old) (map call_sent steps.items)
        (map (told answer_told) answers) (session_at target.new)) }
    ensures fits { OnOk result (AllByRecursion FitsCall (map call_sent steps.items)) }
    ensures tells { OnOk result (Tells target.new) }
    ensures kind { OnlyMemory result }
{
    let mut answers = Vec::new(alloc);
    for call in steps {
        answers.push(carry_out(alloc, target, call)?)?;
    }
    Ok(Items::from_vec(answers))
}

fn empty_device(alloc: Global) -> Memory
    ensures { bytes_told (Some result.held) ≡ Some [] }
{
    Memory::from_vec(Vec::new(alloc))
}

fn carry_out_to_end(
    alloc: Global,
    mut target: Package<Memory>,
    steps: Vec<Call>,
) -> Result<Replayed, Error>
    requires { Tells target }
    ensures ok { IfOk result (λ replayed. Ends (session_at target) (map call_sent steps.items)
        (map (told answer_told) replayed.answers) replayed.bytes.items replayed.is_writable) }
    ensures refused { IfErr result (IsEndRefused (session_at target) (map call_sent steps.items)) }
{
    let answers = carry_out_all(alloc, &mut target, steps)?;
    target.flush()?;
    let is_writable = target.is_writable();
    Ok(Replayed {
        answers,
        bytes: target.into_reader().into_vec(),
        is_writable,
    })
}

/// Creates a package in memory, makes the calls on it one after another, and flushes it. If each text can be written
/// in its page, that is if it reads back as it was, the bytes mean what the accepted calls define, and opening them
/// gives the package that the calls left. In any case each count is the number of its cells.
///
/// # Errors
/// Fails with `OutOfMemory`, or with `Io` if the device can't grow. Otherwise it fails as the last flush does: with
/// `InvalidInput` if a page can't encode a text, or if the file would pass 2^31 bytes.
pub fn replay(alloc: Global, kind: PackageType, steps: Vec<Call>) -> Result<Replayed, Error>
    ensures ok { IfOk result (λ replayed. IsReplay kind (map call_sent steps.items)
        (map (told answer_told) replayed.answers) replayed.bytes.items) }
    ensures writable { IfOk result (λ replayed. HoldsIfWritable (created kind) (map call_sent steps.items)
        (map (told answer_told) replayed.answers) replayed.bytes.items replayed.is_writable) }
    ensures refused { IfErr result (IsReplayRefused kind (map call_sent steps.items)) }
{
    let target = Package::create(alloc, kind, empty_device(alloc))?;
    carry_out_to_end(alloc, target, steps)
}

/// A byte is below 256.
fn look_at_bytes(bytes: &[u8])
    ensures { AreBytes bytes.now }
{}

/// Opens the package that the bytes mean, makes the calls on it one after another, and flushes it. If each text can be
/// written in its page, that is if it reads back as it was, the new bytes mean what the accepted calls define, and
/// opening them gives the package that the calls left. If the opened database is sound, it stays so, and no count is
/// below the number of its cells; then exact counts stay exact, and distinct keys distinct if no call applies a
/// transform. If the first call is a recount that is accepted, the database is sound, and each count is the number of
/// its cells.
///
/// # Errors
/// Fails with `OutOfMemory`, or with `Io` if the device can't grow. Otherwise it fails as [`Package::open`] does on the
/// bytes, or as the last flush does: with `InvalidInput` if a page can't encode a text, or if the file would pass 2^31
/// bytes.
pub fn replay_over(alloc: Global, bytes: Vec<u8>, steps: Vec<Call>) -> Result<Replayed, Error>
    ensures ok { IfOk result (λ replayed. IsReplayOver bytes.items (map call_sent steps.items)
        (map (told answer_told) replayed.answers) replayed.bytes.items) }
    ensures writable { IfOk result (λ replayed. (start : State) × OpensTo bytes.items (Ok start)
        × HoldsIfWritable (opened bytes.items start) (map call_sent steps.items)
        (map (told answer_told) replayed.answers) replayed.bytes.items replayed.is_writable) }
    ensures refused { IfErr result (IsReplayOverRefused bytes.items (map call_sent steps.items)) }
{
    look_at_bytes(bytes.as_slice());
    let target = Package::open(alloc, Memory::from_vec(bytes))?;
    carry_out_to_end(alloc, target, steps)
}
