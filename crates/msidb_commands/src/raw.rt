//! `raw FILE`: each stream of a container, with its kind and its number of bytes.

use crate::lines::Lines;
use msi::compound::Name;
use msi::{Error, streamname};
use msi_view::byte_count;
use std::alloc::Global;
use std::io::Write;

/// Prints a line for each stream, in the container's order of names. All lines are made before the first is printed.
pub(crate) fn print_streams<O: Write>(
    rt: &HostRuntime,
    file: &str,
    output: &mut O,
) -> Result<(), Error> {
    let view = msi_view::open(rt, file)?;
    let mut lines = Lines::new(rt.alloc());
    for (name, extents) in view.streams().iter() {
        add_line(rt.alloc(), &mut lines, name, byte_count(extents.as_slice()))?;
    }
    lines.end(output)
}

/// Adds the line of a stream: its decoded name, `table` or `stream`, and its number of bytes.
fn add_line(alloc: Global, lines: &mut Lines, name: &Name, size: u64) -> Result<(), Error> {
    let encoded = name.to_text(alloc)?;
    let (name, is_table) = streamname::decode(alloc, encoded.as_str())?;
    let kind = if is_table { "table" } else { "stream" };
    writeln!(lines, "{name}\t{kind}\t{size}");
    Ok(())
}
