//! Calls on the reader and the writer of a stream, carried out in turn.

ghost use Rattle.std.specs.Prelude.{◌≡◌, IfOk, Ok, OnOk, map, true};
ghost use Rattle.msi.specs.Text.Results.{OnlyMemory};
ghost use Rattle.msi_streams.specs.Cursor.{after_read, piece_read};
ghost use Rattle.msi_streams.specs.Refusals as faults;
ghost use Rattle.msi.specs.Calls as calls;
ghost use Rattle.msi.specs.Lent.{Gives, RunsTo, reader_outcome, reader_wants_memory, sought};
ghost use Rattle.msi.specs.Lent.{writer_outcome, writer_wants_memory};
ghost use Rattle.msi_replay.specs.Sent.{lent_cursor, reader_call_sent, seek_sent, writer_call_sent};
ghost use Rattle.msi_replay.specs.Told.{stream_answer, told};

use crate::answer::StreamAnswer;
use crate::call::{ReaderCall, WriterCall};
use msi::faults::kind_of;
use msi::{Error, ErrorKind, Items, StreamReader, StreamWriter};
use std::alloc::Global;
use std::io;
use std::io::{Read, Seek, SeekFrom, Write};

fn place(outcome: io::Result<u64>) -> Result<StreamAnswer, ErrorKind>
    ensures { told stream_answer result ≡ told calls.place_is (faults.told outcome) }
{
    match outcome {
        Ok(place) => Ok(StreamAnswer::Place(place)),
        Err(error) => Err(kind_of(&error)),
    }
}

fn read(alloc: Global, reader: &mut StreamReader<'_>, count: usize) -> Result<Items<u8>, Error>
    ensures ok { IfOk result (λ bytes. bytes ≡ piece_read reader.old count) }
    ensures after { OnOk result (reader.new ≡ after_read reader.old count) }
    ensures kind { OnlyMemory result }
{
    let mut bytes = vec![in alloc; 0_u8; count]?;
    let count = reader.read(&mut bytes)?;
    bytes.truncate(count);
    Ok(Items::from_vec(bytes))
}

fn seek_reader(reader: &mut StreamReader<'_>, to: SeekFrom) -> Result<StreamAnswer, ErrorKind>
    ensures { sought (lent_cursor reader.old) (seek_sent to)
        ≡ (told stream_answer result, lent_cursor reader.new) }
{
    place(reader.seek(to))
}

fn carry_out_on_reader(
    alloc: Global,
    reader: &mut StreamReader<'_>,
    call: ReaderCall,
) -> Result<Result<StreamAnswer, ErrorKind>, Error>
    ensures ok { IfOk result (λ answer. reader_outcome (lent_cursor reader.old) (reader_call_sent call)
        ≡ (told stream_answer answer, lent_cursor reader.new)) }
    ensures kind { OnlyMemory result }
{
    match call {
        ReaderCall::Read(count) => {
            let bytes = read(alloc, reader, count)?;
            Ok(Ok(StreamAnswer::Bytes(bytes)))
        }
        ReaderCall::Seek(to) => Ok(seek_reader(reader, to)),
    }
}

pub(crate) fn read_all(
    alloc: Global,
    reader: &mut StreamReader<'_>,
    steps: Items<ReaderCall>,
) -> Result<Items<Result<StreamAnswer, ErrorKind>>, Error>
    ensures ok { IfOk result (λ answers. RunsTo reader_outcome reader_wants_memory (lent_cursor reader.old)
        (map reader_call_sent steps) (map (told stream_answer) answers) (lent_cursor reader.new)) }
    ensures kind { OnlyMemory result }
{
    let mut answers = Vec::new(alloc);
    for call in steps.into_vec() {
        answers.push(carry_out_on_reader(alloc, reader, call)?)?;
    }
    Ok(Items::from_vec(answers))
}

fn seek_writer(writer: StreamWriter<'_>, to: SeekFrom) -> Result<StreamAnswer, ErrorKind>
    ensures { sought (lent_cursor writer.old) (seek_sent to)
        ≡ (told stream_answer result, lent_cursor writer.new) }
{
    place(writer.seek(to))
}

fn write(writer: StreamWriter<'_>, piece: &[u8]) -> Result<StreamAnswer, ErrorKind>
    ensures { let old = lent_cursor writer.old in
        Gives (writer_outcome old (calls.write piece.now)) true old (told stream_answer result)
        (lent_cursor writer.new) }
{
    match writer.write(piece) {
        Ok(count) => Ok(StreamAnswer::Place(count as u64)),
        Err(error) => Err(kind_of(&error)),
    }
}

fn flush(writer: StreamWriter<'_>) -> Result<StreamAnswer, ErrorKind>
    ensures answer { told stream_answer result ≡ Ok calls.done }
    ensures same { writer.new ≡ writer.old }
{
    match writer.flush() {
        Ok(()) => Ok(StreamAnswer::Done),
        Err(error) => Err(kind_of(&error)),
    }
}

fn carry_out_on_writer(
    writer: StreamWriter<'_>,
    call: WriterCall,
) -> Result<StreamAnswer, ErrorKind>
    ensures { let sent = writer_call_sent call in let old = lent_cursor writer.old in
        Gives (writer_outcome old sent) (writer_wants_memory sent) old (told stream_answer result)
        (lent_cursor writer.new) }
{
    match call {
        WriterCall::Write(piece) => write(writer, piece.as_slice()),
        WriterCall::Seek(to) => seek_writer(writer, to),
        WriterCall::Flush => flush(writer),
    }
}

pub(crate) fn write_all(
    alloc: Global,
    writer: StreamWriter<'_>,
    steps: Items<WriterCall>,
) -> Result<Items<Result<StreamAnswer, ErrorKind>>, Error>
    ensures ok { IfOk result (λ answers. RunsTo writer_outcome writer_wants_memory (lent_cursor writer.old)
        (map writer_call_sent steps) (map (told stream_answer) answers) (lent_cursor writer.new)) }
    ensures kind { OnlyMemory result }
{
    let mut answers = Vec::new(alloc);
    for call in steps.into_vec() {
        answers.push(carry_out_on_writer(writer, call))?;
    }
    Ok(Items::from_vec(answers))
}
