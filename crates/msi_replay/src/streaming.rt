//! Calls on the streams of a package.

ghost use Rattle.std.specs.Prelude.{◌≡◌, IfOk, OnOk, map};
ghost use Rattle.std.specs.Str.{IsUtf8};
ghost use Rattle.msi.specs.Text.Results.{OnlyMemory};
ghost use Rattle.msi.specs.Calls as calls;
ghost use Rattle.msi_replay.specs.Sent.{reader_call_sent, writer_call_sent};
ghost use Rattle.msi_replay.specs.Taken.{Takes};
ghost use Rattle.msi_replay.specs.Told.{answer_told, told};

use crate::answer::Answer;
use crate::call::{ReaderCall, WriterCall};
use crate::stream::{read_all, write_all};
use msi::{Error, ErrorKind, Items, Memory, Package, Streams, Text};
use std::alloc::Global;

pub(crate) fn all_names(alloc: Global, names: Streams<'_>) -> Result<Items<Text>, Error>
    ensures ok { IfOk result (λ all. all ≡ names.entry) }
    ensures kind { OnlyMemory result }
{
    let mut all = Vec::new(alloc);
    for name in names {
        all.push(Text::from_string(name?))?;
    }
    Ok(Items::from_vec(all))
}

pub(crate) fn write_stream(
    alloc: Global,
    target: &mut Package<Memory>,
    name: Text,
    steps: Items<WriterCall>,
) -> Result<Result<Answer, ErrorKind>, Error>
    ensures ok { IfOk result (λ answer. Takes target.old
        (calls.write_stream name (map writer_call_sent steps)) (told answer_told answer) target.new) }
    ensures fits { OnOk result (IsUtf8 name) }
    ensures kind { OnlyMemory result }
{
    match target.write_stream(name.as_str()) {
        Ok(writer) => {
            let answers = write_all(alloc, writer, steps)?;
            Ok(Ok(Answer::Stream(answers)))
        }
        Err(error) => Ok(Err(error.kind())),
    }
}

pub(crate) fn read_stream(
    alloc: Global,
    target: &Package<Memory>,
    name: Text,
    steps: Items<ReaderCall>,
) -> Result<Result<Answer, ErrorKind>, Error>
    ensures ok { IfOk result (λ answer. Takes target.now
        (calls.read_stream name (map reader_call_sent steps)) (told answer_told answer) target.now) }
    ensures kind { OnlyMemory result }
{
    match target.read_stream(name.as_str()) {
        Ok(mut reader) => {
            let answers = read_all(alloc, &mut reader, steps)?;
            Ok(Ok(Answer::Stream(answers)))
        }
        Err(error) => Ok(Err(error.kind())),
    }
}
