//! `streams FILE`, `cat FILE NAME` and `put FILE NAME`.

use crate::lines::Lines;
use crate::packages;
use msi::compound::Name;
use msi::names::is_listed;
use msi::{Device, Error, Package, streamname};
use std::alloc::Global;
use std::io::{Read, Write};

pub(crate) fn print_names<O: Write>(
    rt: &HostRuntime,
    file: &str,
    output: &mut O,
) -> Result<(), Error> {
    let view = packages::look(rt, file)?;
    let mut lines = Lines::new(rt.alloc());
    for (name, _) in view.streams().iter() {
        if is_listed(name) {
            add_line(rt.alloc(), &mut lines, name)?;
        }
    }
    lines.end(output)
}

fn add_line(alloc: Global, lines: &mut Lines, name: &Name) -> Result<(), Error> {
    let encoded = name.to_text(alloc)?;
    let (name, _) = streamname::decode(alloc, encoded.as_str())?;
    lines.push_str(name.as_str());
    lines.push_str("\n");
    Ok(())
}

pub(crate) fn print_bytes<O: Write>(
    rt: &HostRuntime,
    file: &str,
    name: &str,
    output: &mut O,
) -> Result<(), Error> {
    packages::look(rt, file)?.read_stream(name, output)?;
    Ok(output.flush()?)
}

/// Reports first whether the file can be opened, then the input's errors, and then the package's. The file is closed
/// while the input is read: if the program was started without a standard input, the file has its descriptor and would
/// be stored in itself.
pub(crate) fn store_input<I: Read>(
    rt: &HostRuntime,
    file: &str,
    name: &str,
    input: &mut I,
) -> Result<(), Error> {
    packages::check_writable(rt, file)?;
    let mut bytes = Vec::new(rt.alloc());
    input.read_to_end(&mut bytes)?;
    store_bytes(rt, file, name, bytes)
}

fn store_bytes(rt: &HostRuntime, file: &str, name: &str, bytes: Vec<u8>) -> Result<(), Error> {
    let mut package = msi::open_rw(rt, file)?;
    fill_stream(&mut package, name, bytes)?;
    package.flush()
}

fn fill_stream<F: Device>(
    package: &mut Package<F>,
    name: &str,
    bytes: Vec<u8>,
) -> Result<(), Error> {
    let stream = package.write_stream(name)?;
    Ok(stream.write_vec(bytes)?)
}
