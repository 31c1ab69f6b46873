//! `recount FILE`.

use msi::Error;
use std::io::Write;

pub(crate) fn recount<O: Write>(rt: &HostRuntime, file: &str, output: &mut O) -> Result<(), Error> {
    let mut package = msi::open_rw(rt, file)?;
    let changed = package.recount()?;
    package.flush()?;
    writeln!(output, "{changed}")?;
    output.flush()?;
    Ok(())
}
