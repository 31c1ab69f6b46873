//! Running a command: from words to an exit status.

use crate::asked::Asked;
use crate::command::{Command, manner_of};
use crate::escapes::escapes_of;
use crate::looking::look_at_each;
use clap::ArgMatches;
use clap::error::ErrorKind;
use msipkg_changes::{
    Change, Destination, change_file, change_into, create_file, prepare_statements, read_script,
};
use msipkg_cli::{given_verb, matches_of};
use msipkg_diff::compare_files;
use msipkg_format::{Failure, Output, Shown, Style, System};
use msipkg_packages::Purpose;
use msipkg_queries::{MarkValue, mark_values};
use msipkg_transforms::{Making, make_transform, show_transform};
use std::alloc::{AllocError, Global};

/// The exit status where the reader of the output has gone away: that of a program which the signal for it ended.
const CLOSED: u8 = 141;

/// Returns the exit status: 0 on success; 1 on an error, which is written to `errors`; 2 with a hint there, if the
/// arguments match no command; and 141 without a message if the reader of the output has gone away.
pub(crate) fn run(
    rt: &System,
    words: &[String],
    is_terminal: bool,
    output: &mut Output,
    errors: &mut Output,
) -> u8 {
    match matches_of(rt.alloc(), words) {
        Ok(matches) => run_matched(rt, &matches, is_terminal, output, errors),
        Err(error) => show_parse(&error, output, errors),
    }
}

/// Shows why the words are no command: help and the version on the output, and a mistake with its hint on `errors`.
fn show_parse(error: &clap::Error, output: &mut Output, errors: &mut Output) -> u8 {
    if error.use_stderr() {
        write!(errors, "{error}");
        return status_of(error.kind());
    }
    write!(output, "{error}");
    match output.end() {
        Ok(()) => 0,
        Err(_) => unwritten_status(output),
    }
}

pub(crate) fn unwritten_status(output: &Output) -> u8 {
    if output.is_closed() { CLOSED } else { 1 }
}

/// Every error but a lack of memory is one of the words.
fn status_of(kind: ErrorKind) -> u8 {
    if matches!(kind, ErrorKind::OutOfMemory) {
        1
    } else {
        2
    }
}

fn run_matched(
    rt: &System,
    matches: &ArgMatches<'_>,
    is_terminal: bool,
    output: &mut Output,
    errors: &mut Output,
) -> u8 {
    match given_values(rt.alloc(), matches) {
        Ok(values) => run_given(rt, matches, values.as_slice(), is_terminal, output, errors),
        Err(error) => {
            report("--value", &Failure::from(error), errors);
            1
        }
    }
}

/// Returns the values that are given for marks.
fn given_values(alloc: Global, matches: &ArgMatches<'_>) -> Result<Vec<MarkValue>, AllocError> {
    match given_verb(matches) {
        Some((_, given)) => {
            mark_values(
                alloc,
                given.get_strs("value").unwrap_or(&[]),
                given.indices_of("value").unwrap_or(&[]),
                given.get_strs("value-file").unwrap_or(&[]),
                given.indices_of("value-file").unwrap_or(&[]),
            )
        }
        None => Ok(Vec::new(alloc)),
    }
}

fn run_given(
    rt: &System,
    matches: &ArgMatches<'_>,
    values: &[MarkValue],
    is_terminal: bool,
    output: &mut Output,
    errors: &mut Output,
) -> u8 {
    let Some(asked) = asked_of(matches, values, is_terminal) else {
        return 2;
    };
    match Command::of(rt.alloc(), &asked) {
        Ok(command) => run_asked(rt, &asked, command, output, errors),
        Err(failure) => {
            report(asked.file(), &failure, errors);
            1
        }
    }
}

fn run_asked(
    rt: &System,
    asked: &Asked<'_, '_>,
    command: Command<'_, '_>,
    output: &mut Output,
    errors: &mut Output,
) -> u8 {
    let failure_status = command.failure_status();
    match carry_out(rt, asked, command, output, errors) {
        Ok(status) => status,
        Err(_) if output.is_closed() => CLOSED,
        Err(failure) => {
            report(asked.file(), &failure, errors);
            failure_status
        }
    }
}

fn asked_of<'a, 'b>(
    matches: &'b ArgMatches<'a>,
    values: &'b [MarkValue],
    is_terminal: bool,
) -> Option<Asked<'a, 'b>> {
    let (verb, given) = given_verb(matches)?;
    let style = Style {
        is_terminal,
        escapes: escapes_of(verb, given, is_terminal),
    };
    Some(Asked {
        verb,
        given,
        values,
        style,
    })
}

pub(crate) fn report(file: &str, failure: &Failure, errors: &mut Output) {
    let file = Shown::escaped(file);
    if failure.is_mended_by_counting() {
        writeln!(
            errors,
            "msipkg: {file}: {failure}; msipkg check {file} --fix mends counts"
        );
    } else {
        writeln!(errors, "msipkg: {file}: {failure}");
    }
}

/// Carries out a command, and returns the exit status, which is 0 if nothing was found to be wrong. What it printed
/// before it failed is written, too.
fn carry_out(
    rt: &System,
    asked: &Asked<'_, '_>,
    command: Command<'_, '_>,
    output: &mut Output,
    errors: &mut Output,
) -> Result<u8, Failure> {
    match obey(rt, asked, command, output, errors) {
        Ok(status) => {
            output.end()?;
            errors.end()?;
            Ok(status)
        }
        Err(failure) => Err(first_failure(failure, output)),
    }
}

/// Writes what was printed before a command failed. Returns what failed first: the command, unless the output did.
fn first_failure(failure: Failure, output: &mut Output) -> Failure {
    let has_failed = output.has_failed();
    match output.end() {
        Err(error) if has_failed => Failure::from(error),
        Ok(()) | Err(_) => failure,
    }
}

fn obey(
    rt: &System,
    asked: &Asked<'_, '_>,
    command: Command<'_, '_>,
    output: &mut Output,
    errors: &mut Output,
) -> Result<u8, Failure> {
    match command {
        Command::Look { files, task } => look_at_each(rt, asked, files, &task, output, errors),
        Command::Diff { other, is_json } => compare(rt, asked, other, is_json, output, errors),
        Command::New {
            kind,
            page,
            is_forced,
        } => {
            create_file(rt, asked.file(), kind, page, is_forced)?;
            Ok(0)
        }
        Command::Change(made) => change(rt, asked, made, output, errors),
        Command::ChangeInto { change, target } => make(rt, asked, change, target, errors),
        Command::ShowTransform { base, is_json } => {
            print_transform(rt, asked, base, is_json, output, errors)
        }
        Command::MakeTransform { new, made } => {
            make_between(rt, asked, new, &made, output, errors)
        }
        Command::Script(path) => execute_script(rt, asked, path, output, errors),
        Command::Batch => Err(Failure::rule("batch is no command of a batch")),
        Command::Incomplete(usage) => {
            write_usage(usage, errors);
            Ok(2)
        }
    }
}

/// Says what clap says where an argument is missing.
fn write_usage(usage: &str, errors: &mut Output) {
    writeln!(
        errors,
        "error: the following required arguments were not provided:"
    );
    writeln!(errors, "  <TEXT>\n\nUsage: {usage}\n");
    writeln!(errors, "For more information, try '--help'.");
}

/// Returns the system for a command that looks at these files. If `-` is one of them, standard input is read.
pub(crate) fn with_input(rt: &System, files: &[&str]) -> Result<System, Failure> {
    if files.contains(&"-") {
        Ok(rt.with_input()?)
    } else {
        Ok(*rt)
    }
}

/// Prints a transform, beside a package if one is named.
fn print_transform(
    rt: &System,
    asked: &Asked<'_, '_>,
    base: Option<&str>,
    is_json: bool,
    output: &mut Output,
    errors: &mut Output,
) -> Result<u8, Failure> {
    let base = base.map(|path| asked.package(path, Purpose::Look));
    let transform = asked.file();
    show_transform(
        rt,
        asked.style,
        transform,
        base.as_ref(),
        is_json,
        output,
        errors,
    )?;
    Ok(0)
}

/// Makes the transform from the package of the command to another one.
fn make_between(
    rt: &System,
    asked: &Asked<'_, '_>,
    new: &str,
    made: &Making<'_>,
    output: &mut Output,
    errors: &mut Output,
) -> Result<u8, Failure> {
    let rt = with_input(rt, &[asked.file(), new])?;
    let old = asked.package(asked.file(), Purpose::Look);
    let new = asked.package(new, Purpose::Look);
    make_transform(&rt, asked.style, &old, &new, made, output, errors)?;
    Ok(0)
}

fn compare(
    rt: &System,
    asked: &Asked<'_, '_>,
    other: &str,
    is_json: bool,
    output: &mut Output,
    errors: &mut Output,
) -> Result<u8, Failure> {
    let rt = with_input(rt, &[asked.file(), other])?;
    let old = asked.package(asked.file(), Purpose::Look);
    let new = asked.package(other, Purpose::Look);
    let is_same = compare_files(&rt, asked.style, &old, &new, is_json, output, errors)?;
    Ok(u8::from(!is_same))
}

/// Makes a change in a package: all of it, or none.
fn change(
    rt: &System,
    asked: &Asked<'_, '_>,
    made: Change<'_, '_>,
    output: &mut Output,
    errors: &mut Output,
) -> Result<u8, Failure> {
    let purpose = asked.purpose_of_change(Purpose::Recode);
    let file = asked.package(asked.file(), purpose);
    change_file(rt, &file, made, manner_of(asked), output, errors)?;
    Ok(0)
}

/// Makes a new file of a package, with a change made.
fn make(
    rt: &System,
    asked: &Asked<'_, '_>,
    change: Change<'_, '_>,
    target: Destination<'_>,
    errors: &mut Output,
) -> Result<u8, Failure> {
    let purpose = asked.purpose_of_change(Purpose::Recode);
    let file = asked.package(asked.file(), purpose);
    change_into(rt, &file, change, target, manner_of(asked), errors)?;
    Ok(0)
}

fn execute_script(
    rt: &System,
    asked: &Asked<'_, '_>,
    path: &str,
    output: &mut Output,
    errors: &mut Output,
) -> Result<u8, Failure> {
    let statements = read_script(rt, path)?;
    execute_texts(
        rt,
        asked,
        statements.as_slice(),
        asked.values,
        output,
        errors,
    )
}

fn execute_texts<'x>(
    rt: &System,
    asked: &Asked<'_, '_>,
    statements: &'x [String],
    values: &'x [MarkValue],
    output: &mut Output,
    errors: &mut Output,
) -> Result<u8, Failure> {
    let mut texts = Vec::with_capacity(rt.alloc(), statements.len())?;
    for statement in statements {
        texts.push(statement.as_str())?;
    }
    let prepared = prepare_statements(rt.alloc(), texts.as_slice(), values)?;
    change(rt, asked, Change::Execute(prepared), output, errors)
}
