//! `wrap OUT NAME`: a container with standard input as its one stream.

ghost use Rattle.std.specs.Prelude.{◌≡◌, ◌↔◌, ◌⊎◌, false, chars, option_map, IfOk, IfErr, IsErr, IsErrOf, IsTrue, OnOk};
ghost use Rattle.msi.specs.Text.ErrorKind.TheVariants.{InvalidInput, Io, OutOfMemory};
ghost use Rattle.msi.specs.Container.Container.{Holds};
ghost use Rattle.msi.specs.Container.Held.{with_piece};
ghost use Rattle.msi.specs.Container.Layout.{layout, refuses};
ghost use Rattle.msi.specs.Container.Names.{utf16_units};
ghost use Rattle.msi.specs.Container.StreamNames.{encoded_name, is_valid_name};
ghost use Rattle.msidb_commands.specs.Wrapped.{wrapped};

use msi::compound::{self, Buffered, Bytes, Contents, Device, Name, StreamMap};
use msi::parts::fault;
use msi::{Error, ErrorKind, Reason, streamname};
use std::alloc::Global;
use std::fs;
use std::io::{Read, Write};

const NAME_REFUSED: Reason = Reason("the name can't name a stream");

const INPUT_TOO_LARGE: Reason = Reason("the file would pass 2^31 bytes");

/// The CLSID of an installer package, as the root stores it: 000C1084-0000-0000-C000-000000000046.
const INSTALLER_CLSID: [u8; 16] = [
    0x84, 0x10, 0x0C, 0, 0, 0, 0, 0, 0xC0, 0, 0, 0, 0, 0, 0, 0x46,
];

/// Writes the container. What can't be written is refused before `out` is touched.
pub(crate) fn wrap_input<I>(
    rt: &HostRuntime,
    out: &str,
    name: &str,
    input: &mut I,
) -> Result<(), Error>
where
    I: Read,
    ensures { is_valid_name false (chars name.now) ≡ false → IsErrOf result InvalidInput }
{
    let name = container_name(rt.alloc(), name)?;
    let mut bytes = Vec::new(rt.alloc());
    input.read_to_end(&mut bytes)?;
    let contents = contents_of(rt.alloc(), name, bytes)?;
    if !compound::is_writable(&contents, 0) {
        return Err(Error::new(ErrorKind::InvalidInput, INPUT_TOO_LARGE));
    }
    let mut device = Buffered::new(rt.alloc(), fs::create(rt, out)?)?;
    write_whole(rt.alloc(), &contents, &mut device)
}

fn container_name(alloc: Global, name: &str) -> Result<Name, Error>
    ensures ok { IfOk result (λ held. held ≡ utf16_units (encoded_name false (chars name.now))) }
    ensures refused { IsErrOf result InvalidInput ↔ (is_valid_name false (chars name.now) ≡ false) }
    ensures kinds { IfErr result (λ kind. (kind ≡ InvalidInput) ⊎ (kind ≡ OutOfMemory)) }
{
    if !streamname::is_valid(name, false) {
        return Err(Error::new(ErrorKind::InvalidInput, NAME_REFUSED));
    }
    let encoded = streamname::encode(alloc, name, false)?;
    Name::new(encoded.as_str())
}

fn contents_of(alloc: Global, name: Name, bytes: Vec<u8>) -> Result<Contents, Error>
    ensures ok { IfOk result (λ contents. contents ≡ wrapped name bytes.items) }
    ensures memory { IsErr result → IsErrOf result OutOfMemory }
{
    let mut streams = StreamMap::new(alloc);
    streams.insert(name, Bytes::from_vec(bytes))?;
    Ok(Contents {
        clsid: INSTALLER_CLSID,
        streams,
        has_storages: false,
    })
}

/// Writes a container over an empty device, and flushes the device.
fn write_whole<W: Device>(alloc: Global, contents: &Contents, device: &mut W) -> Result<(), Error>
    ensures ok { OnOk result (W.held device.new ≡ option_map (with_piece (layout contents.now 0)) (W.held device.old)) }
    ensures holds { OnOk result (Holds (layout contents.now 0) contents.now) }
    ensures refused { IsErrOf result InvalidInput ↔ IsTrue (refuses contents.now 0) }
    ensures kinds { IfErr result (λ kind. (kind ≡ InvalidInput) ⊎ (kind ≡ OutOfMemory) ⊎ (kind ≡ Io)) }
{
    compound::write_to(alloc, contents, 0, device)?;
    device.flush().map_err(fault)?;
    Ok(())
}
