//! `add FILE NAME=PATH..` and `remove FILE NAME..`: streams of a package.

use msipkg_packages::msi::Package;
use msipkg_packages::output::{Failure, Opened, System};
use msipkg_statements::stream_changes::fill_from;
use std::alloc::Global;

/// Stores files as streams, each written as `NAME=PATH`. Fails at the first word that has no `=`, whose file can't be
/// read, or whose name no stream may have. Those in front of it are stored.
pub(crate) fn add_streams(
    rt: &System,
    package: &mut Package<Opened>,
    pairs: &[&str],
) -> Result<(), Failure> {
    for pair in pairs {
        add_pair(rt, package, pair)?;
    }
    Ok(())
}

fn add_pair(rt: &System, package: &mut Package<Opened>, pair: &str) -> Result<(), Failure> {
    let Some((name, path)) = pair.split_once('=') else {
        return Err(Failure::rule("it isn't of the form NAME=PATH").at(rt.alloc(), "word", pair));
    };
    fill_from(rt, package, name, path)
}

/// Removes streams of a package, and its digital signature if that is asked for. Fails if nothing is asked for, if the
/// package isn't signed, and at the first stream that doesn't exist. What is in front of it is removed.
pub(crate) fn remove_parts(
    alloc: Global,
    package: &mut Package<Opened>,
    names: &[&str],
    is_signature: bool,
) -> Result<(), Failure> {
    if is_signature {
        remove_signature(package)?;
    } else if names.is_empty() {
        return Err(Failure::rule("nothing is removed: name streams, or give --signature"));
    }
    remove_streams(alloc, package, names)
}

fn remove_signature(package: &mut Package<Opened>) -> Result<(), Failure> {
    if !package.has_digital_signature() {
        return Err(Failure::rule("it has no digital signature"));
    }
    Ok(package.remove_digital_signature()?)
}

/// Removes streams of a package. Fails at the first one that doesn't exist. Those in front of it are removed.
fn remove_streams(
    alloc: Global,
    package: &mut Package<Opened>,
    names: &[&str],
) -> Result<(), Failure> {
    for name in names {
        if let Err(error) = package.remove_stream(name) {
            return Err(Failure::from(error).at(alloc, "stream", name));
        }
    }
    Ok(())
}
