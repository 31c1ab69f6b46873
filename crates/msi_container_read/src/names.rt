//! Names of streams as keys of a map, each once.

ghost use Rattle.std.specs.Prelude.{◌≡◌, true, false, OnOk, IsErrOf};
ghost use Rattle.std.specs.FinMap as finite;
ghost use Rattle.msi_base.specs.declared.errors.ErrorKind.TheVariants.{InvalidData};
ghost use Rattle.msi_container_tables.specs.Outcomes.{FailsByData};

use crate::reasons;
use crate::sizes::Sizes;
use msi_base::{Error, ErrorKind};
use msi_container_format::contents::{Bytes, StreamMap};
use msi_container_format::name::Name;

pub(crate) fn insert_stream(streams: &mut StreamMap, name: Name, bytes: Bytes) -> Result<(), Error>
    ensures ok { OnOk result (streams.new ≡ finite.insert streams.old name bytes) }
    ensures free { OnOk result (finite.contains_key streams.old name ≡ false) }
    ensures invalid { IsErrOf result InvalidData → finite.contains_key streams.old name ≡ true }
    ensures kinds { FailsByData result }
{
    let before = streams.len();
    streams.insert(name, bytes)?;
    if streams.len() == before {
        return Err(Error::new(ErrorKind::InvalidData, reasons::NAME_TWICE));
    }
    Ok(())
}

pub(crate) fn insert_size(sizes: &mut Sizes, name: Name, size: u64) -> Result<(), Error>
    ensures ok { OnOk result (sizes.new ≡ finite.insert sizes.old name size) }
    ensures free { OnOk result (finite.contains_key sizes.old name ≡ false) }
    ensures invalid { IsErrOf result InvalidData → finite.contains_key sizes.old name ≡ true }
    ensures kinds { FailsByData result }
{
    let before = sizes.len();
    sizes.insert(name, size)?;
    if sizes.len() == before {
        return Err(Error::new(ErrorKind::InvalidData, reasons::NAME_TWICE));
    }
    Ok(())
}
