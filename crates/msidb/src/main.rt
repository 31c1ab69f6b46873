//! The program `msidb`: inspects and creates Windows Installer packages from a command line.
#![tactic(auto)]

use msidb_commands::Error;
use std::process::ExitCode;
use std::rt::Env;
use std::{env, io};

/// Returns the arguments behind the program's name. If one isn't UTF-8, it returns none: such an argument matches no
/// command, and neither do no arguments.
fn words<R: Env + AllocGlobal>(rt: &R) -> Result<Vec<String>, Error> {
    let mut words = Vec::new(rt.alloc());
    match env::args(rt) {
        Ok(all) => {
            for word in all.skip(1) {
                words.push(word)?;
            }
        }
        Err(error) if error.kind() == io::ErrorKind::InvalidData => {}
        Err(error) => return Err(Error::from(error)),
    }
    Ok(words)
}

fn main(rt: HostRuntime) -> ExitCode {
    let status = match words(&rt) {
        Ok(words) => msidb_commands::run(
            &rt,
            words.as_slice(),
            &mut rt.stdin(),
            &mut rt.stdout(),
            &mut rt.stderr(),
        ),
        Err(error) => msidb_commands::tell(&error, &mut rt.stderr()),
    };
    ExitCode::from(status)
}
