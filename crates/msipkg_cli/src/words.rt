//! The words of the command line.

use crate::tables::{
    Argument, Form, QUERY_USAGE, Row, TRANSFORM, Verb, commands, transform_commands,
};
use clap::{Arg, ArgAction, ArgMatches, Command, Error};
use std::alloc::{AllocError, Global};

/// Parses the words behind the program's name.
///
/// # Errors
/// Fails if they match no command, and where they ask for help or the version, with the text for the user.
pub fn matches_of<'a>(alloc: Global, words: &'a [String]) -> Result<ArgMatches<'a>, Error> {
    program(alloc)?.try_get_matches_from(words)
}

/// Returns the command that was given, and its words.
pub fn given_verb<'a, 'b>(matches: &'b ArgMatches<'a>) -> Option<(Verb, &'b ArgMatches<'a>)> {
    let (name, given) = matches.subcommand()?;
    if name == TRANSFORM {
        let (name, given) = given.subcommand()?;
        return Some((verb_among(transform_commands(), name)?, given));
    }
    for rows in commands() {
        if let Some(verb) = verb_among(rows, name) {
            return Some((verb, given));
        }
    }
    None
}

fn verb_among(rows: &[Row], name: &str) -> Option<Verb> {
    for row in rows {
        if row.name == name {
            return Some(row.verb);
        }
    }
    None
}

fn program<'a>(alloc: Global) -> Result<Command<'a>, AllocError> {
    let mut program = Command::new(alloc, "msipkg")
        .bin_name("msipkg")?
        .version("0.1.0")
        .about("Looks into Windows Installer packages, and changes them")
        .no_binary_name(true)
        .propagate_version(true)
        .subcommand_required(true);
    for row in commands().iter().copied().flatten() {
        program = program.subcommand(command_of(alloc, row)?)?;
    }
    program.subcommand(transform_command(alloc)?)
}

fn transform_command<'a>(alloc: Global) -> Result<Command<'a>, AllocError> {
    let mut command = Command::new(alloc, TRANSFORM)
        .about("Makes transforms, prints them, and applies them to packages")
        .subcommand_required(true);
    for row in transform_commands() {
        command = command.subcommand(command_of(alloc, row)?)?;
    }
    Ok(command)
}

fn command_of<'a>(alloc: Global, row: &Row) -> Result<Command<'a>, AllocError> {
    let mut command = Command::new(alloc, row.name).about(row.about);
    if matches!(row.verb, Verb::Query) {
        command = command.override_usage(QUERY_USAGE);
    }
    for argument in row.arguments {
        command = command.arg(arg_of(alloc, argument)?)?;
    }
    Ok(command)
}

fn arg_of<'a>(alloc: Global, argument: &Argument) -> Result<Arg<'a>, AllocError> {
    let id = argument.id;
    let arg = Arg::new(alloc, id).help(argument.help);
    Ok(match argument.form {
        Form::Word => arg.required(true),
        Form::Optional => arg,
        Form::Words => several(arg).required(true),
        Form::AnyWords => several(arg),
        Form::WordsOr(other) => several(arg)
            .required_unless_present(other)?
            .conflicts_with(other)?,
        Form::Flag => arg.long(id).action(ArgAction::SetTrue),
        Form::Instead(others) => arg
            .long(id)
            .action(ArgAction::SetTrue)
            .conflicts_with_all(others)?,
        Form::Value(name) => arg.long(id).value_name(name),
        Form::Values(name) => arg.long(id).value_name(name).action(ArgAction::Append),
        Form::SignedValues(name) => arg
            .long(id)
            .value_name(name)
            .action(ArgAction::Append)
            .allow_hyphen_values(true),
        Form::Lettered(letter, name) => arg.long(id).short(letter).value_name(name),
        Form::Needed(letter, name) => arg.long(id).short(letter).value_name(name).required(true),
        Form::Choices(name, values) => arg
            .long(id)
            .value_name(name)
            .value_parser(values)
            .value_delimiter(',')
            .action(ArgAction::Append),
        Form::Choice(name, values) => arg.long(id).value_name(name).value_parser(values),
        Form::Default(name, value, values) => arg
            .long(id)
            .value_name(name)
            .value_parser(values)
            .default_value(value),
    })
}

fn several<'a>(arg: Arg<'a>) -> Arg<'a> {
    arg.num_args(1usize..).action(ArgAction::Append)
}
