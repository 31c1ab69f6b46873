//! A list of calls, one of each kind, on a new package, and again on what they leave.

use crate::outcome::passes;
use msi::{Error, ErrorKind, IntoText, Items, PackageType, Select};
use msi_replay::{
    Answer, Call, Change, LookUp, ReaderCall, Replayed, SummaryCall, SummaryProperty, WriterCall,
    replay, replay_over,
};
use std::alloc::Global;

fn stream_calls(alloc: Global, calls: &mut Vec<Call>) -> Result<(), Error> {
    let piece = Items::from_vec(Vec::from_slice(alloc, b"Hi")?);
    let writes = Items::from_vec(vec![in alloc; WriterCall::Write(piece)]?);
    calls.push(Call::WriteStream("a".into_text(alloc)?, writes))?;
    let reads = Items::from_vec(vec![in alloc; ReaderCall::Read(10)]?);
    calls.push(Call::ReadStream("a".into_text(alloc)?, reads))?;
    Ok(())
}

fn summary_calls(alloc: Global, calls: &mut Vec<Call>) -> Result<(), Error> {
    let asks = Items::from_vec(vec![in alloc; SummaryProperty::Codepage]?);
    calls.push(Call::SummaryInfo(asks))?;
    let asks = Items::from_vec(vec![in alloc; SummaryCall::Ask(SummaryProperty::Arch)]?);
    calls.push(Call::SummaryInfoMut(asks))?;
    Ok(())
}

fn calls(alloc: Global) -> Result<Vec<Call>, Error> {
    let mut calls = Vec::new(alloc);
    calls.push(Call::LookUp(LookUp::PackageType))?;
    let name = "Words".into_text(alloc)?;
    calls.push(Call::Change(Change::DropTable(name)))?;
    calls.push(Call::SelectRows(Select::table(alloc, "_Tables")?))?;
    stream_calls(alloc, &mut calls)?;
    summary_calls(alloc, &mut calls)?;
    calls.push(Call::Image(0))?;
    calls.push(Call::Flush)?;
    calls.push(Call::DeviceFailed)?;
    Ok(calls)
}

/// What the calls answer, by the names of the variants or the error's kind.
const ANSWERS: [&str; 10] = [
    "Installer",
    "NotFound",
    "Rows",
    "Stream",
    "Stream",
    "Summary",
    "Summary",
    "Bytes",
    "Done",
    "Flag",
];

fn name_of(answer: &Result<Answer, ErrorKind>) -> &'static str {
    match answer {
        Ok(Answer::Kind(PackageType::Installer)) => "Installer",
        Ok(Answer::Rows(_, _)) => "Rows",
        Ok(Answer::Stream(_)) => "Stream",
        Ok(Answer::Summary(_)) => "Summary",
        Ok(Answer::Bytes(_)) => "Bytes",
        Ok(Answer::Done) => "Done",
        Ok(Answer::Flag(false)) => "Flag",
        Err(ErrorKind::NotFound) => "NotFound",
        _ => "another",
    }
}

/// Returns whether calls answer what they should, and the bytes that they leave.
fn answered(replayed: Replayed) -> (bool, Vec<u8>) {
    let Replayed {
        answers,
        bytes,
        is_writable,
    } = replayed;
    let names = answers.as_slice().iter().map(name_of);
    (is_writable && names.eq(ANSWERS.iter().copied()), bytes)
}

fn on_new(alloc: Global) -> Result<(bool, Vec<u8>), Error> {
    Ok(answered(replay(alloc, PackageType::Installer, calls(alloc)?)?))
}

fn on_opened(alloc: Global, bytes: Vec<u8>) -> Result<(bool, Vec<u8>), Error> {
    Ok(answered(replay_over(alloc, bytes, calls(alloc)?)?))
}

fn are_answered(alloc: Global) -> Result<bool, Error> {
    let (is_new, bytes) = on_new(alloc)?;
    let len = bytes.len();
    let (is_opened, again) = on_opened(alloc, bytes)?;
    Ok(is_new && is_opened && again.len() == len)
}

pub(crate) fn a_list_of_calls_is_answered(rt: &HostRuntime) -> bool {
    passes(rt, &"a list of calls", are_answered(rt.alloc()))
}
