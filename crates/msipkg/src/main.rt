//! The program `msipkg`: looks into Windows Installer packages, and changes them.
#![tactic(auto)]

mod asked;
mod batch;
mod command;
mod commands;
mod escapes;
mod looking;

use msipkg_format::{Output, System};
use std::io::IsTerminal;
use std::process::ExitCode;
use std::{env, io};

fn arguments(rt: HostRuntime) -> io::Result<Vec<String>> {
    let mut arguments = Vec::new(rt.alloc());
    for argument in env::args(&rt)?.skip(1) {
        arguments.push(argument)?;
    }
    Ok(arguments)
}

fn is_batch(arguments: &[String]) -> bool {
    match arguments {
        [argument] => argument.as_str() == "batch",
        _ => false,
    }
}

fn run_command(rt: HostRuntime, arguments: &[String]) -> u8 {
    let system = System {
        rt,
        is_shown: rt.stderr().is_terminal(),
        input: None,
    };
    commands::run(
        &system,
        arguments,
        rt.stdout().is_terminal(),
        &mut Output::to_output(rt),
        &mut Output::to_messages(rt),
    )
}

fn main(rt: HostRuntime) -> ExitCode {
    let status = match arguments(rt) {
        Ok(arguments) if is_batch(arguments.as_slice()) => batch::run_lines(rt),
        Ok(arguments) => run_command(rt, arguments.as_slice()),
        Err(error) => {
            let _ = eprintln!(rt; "msipkg: the arguments: {error}");
            2
        }
    };
    ExitCode::from(status)
}
