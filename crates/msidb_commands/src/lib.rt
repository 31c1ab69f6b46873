//! The commands of the program `msidb`, which inspects and creates Windows Installer packages. They read
//! and write files, and run over any standard input and outputs.
#![tactic(auto)]

ghost use Rattle.std.specs.Prelude.{◌≡◌, ◌≤◌, ◌↔◌, false};
ghost use Rattle.msidb_commands.specs.Commands.{fits_command};

mod command;
mod lines;
mod packages;
mod raw;
mod recounting;
mod streams;
mod summary;
mod tables;
mod wrap;

use command::Command;
pub use msi::Error;
use std::io::{Read, Write};

/// The message for arguments that match no command.
const USAGE: &str =
    "usage: msidb raw|wrap|new|tables|rows|summary|streams|cat|put|recount FILE [NAME]";

/// Runs a command over its arguments, a reader and two writers. Returns the exit status: 0 on success; 1 on an
/// error, whose kind is written to `errors`; 2, with the usage on `errors`, if the arguments match no command.
pub fn run<I, O, E>(
    rt: &HostRuntime,
    words: &[String],
    input: &mut I,
    output: &mut O,
    errors: &mut E,
) -> u8
where
    I: Read,
    O: Write,
    E: Write,
    ensures most { result ≤ 2 }
    ensures usage { (result ≡ 2) ↔ (fits_command words.now ≡ false) }
{
    let Some(command) = Command::parse(words) else {
        let _ = writeln!(errors, "{USAGE}");
        return 2;
    };
    match carry_out(rt, &command, input, output) {
        Ok(()) => 0,
        Err(error) => tell(&error, errors),
    }
}

fn carry_out<I, O>(
    rt: &HostRuntime,
    command: &Command,
    input: &mut I,
    output: &mut O,
) -> Result<(), Error>
where
    I: Read,
    O: Write,
{
    match command {
        Command::Raw { file } => raw::print_streams(rt, file, output),
        Command::Wrap { out, name } => wrap::wrap_input(rt, out, name, input),
        Command::New { file } => packages::create(rt, file),
        Command::Tables { file } => tables::print_tables(rt, file, output),
        Command::Rows { file, table } => tables::print_rows(rt, file, table, output),
        Command::Summary { file } => summary::print_summary(rt, file, output),
        Command::Streams { file } => streams::print_names(rt, file, output),
        Command::Recount { file } => recounting::recount(rt, file, output),
        Command::Cat { file, name } => streams::print_bytes(rt, file, name, output),
        Command::Put { file, name } => streams::store_input(rt, file, name, input),
    }
}

/// Writes the kind of an error on a line of its own, and returns the exit status for it, which is 1.
pub fn tell<E: Write>(error: &Error, errors: &mut E) -> u8
    ensures { result ≡ 1 }
{
    let kind = error.kind();
    let _ = writeln!(errors, "{kind}");
    1
}
