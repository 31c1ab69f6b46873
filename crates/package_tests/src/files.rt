//! Packages in files of the folder for temporary ones.

use crate::outcome::refusal;
use examples::readme;
use msi::ErrorKind;
use std::{env, fs, io, process};

/// What stands at a path before it is opened.
#[derive(Clone, Copy, Debug)]
enum Given {
    Nothing,
    Text(&'static str),
    Package,
}

/// What is given, and the kind of the refusal, if there is one.
const OPENED: [(Given, Option<ErrorKind>); 4] = [
    (Given::Package, None),
    (Given::Text("no package"), Some(ErrorKind::InvalidData)),
    (Given::Text(""), Some(ErrorKind::InvalidData)),
    (Given::Nothing, Some(ErrorKind::Io)),
];

/// Returns a path that no other test uses and where nothing exists yet.
pub(crate) fn path(rt: &HostRuntime, name: &str) -> io::Result<String> {
    let folder = env::temp_dir(rt)?;
    let id = process::id(rt.process());
    Ok(format!(in rt.alloc(); "{}/msi-{id}-{name}", folder.as_path().display())?)
}

fn put(rt: &HostRuntime, path: &str, given: Given, package: &[u8]) -> io::Result<()> {
    match given {
        Given::Nothing => Ok(()),
        Given::Text(text) => fs::write(rt, path, text),
        Given::Package => fs::write(rt, path, package),
    }
}

/// Whether a file is opened, or refused with `kind`, for reading alone and for changing, and stays as it was. A missing
/// file stays missing.
fn is_left_alone(rt: &HostRuntime, path: &str, kind: Option<ErrorKind>) -> bool {
    let before = fs::read(rt, path).ok();
    let read = refusal(msi::open(rt, path));
    let changed = refusal(msi::open_rw(rt, path));
    let after = fs::read(rt, path).ok();
    read == kind && changed == kind && before.as_deref() == after.as_deref()
}

pub(crate) fn opening_leaves_the_file_as_it_was(rt: &HostRuntime) -> io::Result<bool> {
    let path = path(rt, "files")?;
    let Ok(package) = readme::numbers(rt.alloc()) else {
        return Ok(false);
    };
    let mut are_left = true;
    for (given, kind) in &OPENED {
        put(rt, path.as_str(), *given, package.as_slice())?;
        are_left &= is_left_alone(rt, path.as_str(), *kind);
        let _ = fs::remove_file(rt, path.as_str());
    }
    Ok(are_left)
}
