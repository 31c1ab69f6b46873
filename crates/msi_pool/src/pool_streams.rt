//! The pool, and references to its places, in any reader and writer. They are functions of no type, so that crates
//! which name the pool's types don't load what readers and writers are.

ghost use Rattle.std.specs.Prelude.{◌≡◌, ◌⊎◌, ◌↔◌, List, ℕ, [], IsTrue, Some, false, true, unwrap_or};
ghost use Rattle.std.specs.Prelude.{IfErr, IfOk, IfSome, IsErrOf, OnErr, OnOk};
ghost use Rattle.std.specs.Io.KnownBytes.{Appends};
ghost use Rattle.msi_base.specs.Faults.{AppendsPart, HasFewer};
ghost use Rattle.msi_base.specs.Results.{IsStreamFault, IsUnlessFault};
ghost use Rattle.msi_base.specs.declared.errors.ErrorKind.TheVariants.{InvalidData, InvalidInput, Io, OutOfMemory};
ghost use Rattle.msi_pool_places.specs.Pool as pools;
ghost use Rattle.msi_pool_places.specs.Pool.{IsPoolStream, PoolStream, SpellsTexts, pool_with};
ghost use Rattle.msi_pool_places.specs.Pool.{data_stream, pool_stream};
ghost use Rattle.msi_pool_places.specs.References.{ReadsReference, fits_reference, reference_bytes, reference_width};
ghost use Rattle.msi_pool.specs.PoolLaws.{ReadsBack};
ghost use Rattle.msi_pool.specs.PoolWriting.{is_refused};

use crate::reasons;
use crate::stringpool::reading::{StringPoolBuilder, pool_builder_of, pool_of};
use crate::stringpool::writing::{data_stream_of, pool_stream_of};
use crate::stringpool::{MAX_SHORT_PLACES, StringPool, StringRef};
use byteorder::{ByteOrder, LittleEndian};
use msi_base::errors::{Error, ErrorKind};
use msi_base::parts::{number_of, read_exactly, write_fully};
use std::alloc::Global;
use std::io::{Read, Write};

fn bytes_of<R: Read + Drop>(alloc: Global, mut reader: R) -> Result<Vec<u8>, Error>
    ensures ok { IfSome (R.remaining reader) (λ bytes. IfOk result (λ all. all.items ≡ bytes)) }
    ensures kinds { IfErr result (λ kind. (kind ≡ Io) ⊎ (kind ≡ OutOfMemory)) }
{
    let mut bytes = Vec::new(alloc);
    reader.read_to_end(&mut bytes)?;
    Ok(bytes)
}

/// Returns what the pool's stream (`_StringPool`) says. It reads all that the reader has left.
///
/// # Errors
/// Fails with `InvalidData` if the bytes encode no pool: an entry is cut, no page has the id, or there are more than
/// 16777215 places. Fails with `OutOfMemory`, or with `Io` if the reader fails.
pub fn read_from_pool<R: Read + Drop>(alloc: Global, reader: R) -> Result<StringPoolBuilder, Error>
    // What is read is spelled.
    ensures found { IfSome (R.remaining reader) (λ bytes. IfOk result (λ stream. IsPoolStream bytes stream)) }
    // What is spelled is read, and nothing else.
    ensures only { IfSome (R.remaining reader) (λ bytes.
        (stream : PoolStream) → IsPoolStream bytes stream → IsUnlessFault result stream) }
    ensures kinds { IfErr result (λ kind. IsStreamFault kind) }
{
    let bytes = bytes_of(alloc, reader)?;
    pool_builder_of(alloc, bytes.as_slice())
}

/// Returns the pool whose texts stand in the data stream (`_StringData`), in order; bytes past the last are ignored.
/// It reads all that the reader has left.
///
/// # Errors
/// Fails with `InvalidData` if the bytes end before a text does, or the page can't read a text. Fails with
/// `OutOfMemory`, or with `Io` if the reader fails.
pub fn build_from_data<R: Read + Drop>(
    alloc: Global,
    stream: StringPoolBuilder,
    reader: R,
) -> Result<StringPool, Error>
    // The pool has the texts that are spelled.
    ensures found { IfSome (R.remaining reader) (λ bytes. IfOk result (λ pool.
        (pool ≡ pool_with stream pool.places)
        × SpellsTexts stream.page bytes stream.entries pool.places)) }
    // Texts that are spelled are read, and nothing else.
    ensures only { IfSome (R.remaining reader) (λ bytes. (places : List pools.Place)
        → SpellsTexts stream.page bytes stream.entries places
        → IsUnlessFault result (pool_with stream places)) }
    ensures kinds { IfErr result (λ kind. IsStreamFault kind) }
{
    let bytes = bytes_of(alloc, reader)?;
    pool_of(alloc, stream, bytes.as_slice(), None)
}

/// Writes the stream of a pool's entries (`_StringPool`) in its plain encoding, behind what the writer has.
///
/// # Errors
/// Fails with `InvalidInput` if the page can't encode a text in use, or if its encoding has 2^32 bytes or more; nothing
/// is written then. Fails with `OutOfMemory`, or with `Io` if the writer fails. It may then have taken a prefix of the
/// bytes.
pub fn write_pool<W: Write>(pool: &StringPool, writer: &mut W) -> Result<(), Error>
    ensures ok { OnOk result ((bytes : List ℕ) × (pool_stream pool.now ≡ Some bytes)
        × Appends (W.contents writer.old) (W.contents writer.new) bytes) }
    ensures spelled { OnOk result (ReadsBack pool.now) }
    ensures refused { IsErrOf result InvalidInput ↔ IsTrue (is_refused pool.now) }
    ensures unwritten { IsErrOf result InvalidInput → writer.new ≡ writer.old }
    ensures part { let bytes = unwrap_or (pool_stream pool.now) [] in
        OnErr result (AppendsPart (W.contents writer.old) (W.contents writer.new) bytes) }
    ensures kinds { IfErr result (λ kind. (kind ≡ InvalidInput) ⊎ (kind ≡ OutOfMemory) ⊎ (kind ≡ Io)) }
{
    let bytes = pool_stream_of(pool)?;
    write_fully(writer, bytes.as_slice())
}

/// Writes the stream of a pool's texts (`_StringData`), behind what the writer has.
///
/// # Errors
/// Fails with `InvalidInput` if the page can't encode a text in use, or if its encoding has 2^32 bytes or more; nothing
/// is written then. Fails with `OutOfMemory`, or with `Io` if the writer fails. It may then have taken a prefix of the
/// bytes.
pub fn write_data<W: Write>(pool: &StringPool, writer: &mut W) -> Result<(), Error>
    ensures ok { OnOk result ((bytes : List ℕ) × (data_stream pool.now ≡ Some bytes)
        × Appends (W.contents writer.old) (W.contents writer.new) bytes) }
    ensures spelled { OnOk result (ReadsBack pool.now) }
    ensures refused { IsErrOf result InvalidInput ↔ IsTrue (is_refused pool.now) }
    ensures unwritten { IsErrOf result InvalidInput → writer.new ≡ writer.old }
    ensures part { let bytes = unwrap_or (data_stream pool.now) [] in
        OnErr result (AppendsPart (W.contents writer.old) (W.contents writer.new) bytes) }
    ensures kinds { IfErr result (λ kind. (kind ≡ InvalidInput) ⊎ (kind ≡ OutOfMemory) ⊎ (kind ≡ Io)) }
{
    let bytes = data_stream_of(pool)?;
    write_fully(writer, bytes.as_slice())
}

/// Reads a reference of 2 bytes, or of 3 where references are long, the lowest byte first. A number of 0 is none.
///
/// # Errors
/// Fails with `InvalidData` if the bytes end early, and only then if contracts see the reader's bytes. If the reader
/// fails, it fails with `OutOfMemory` or `Io`. No clause says that an early end is `InvalidData`, since none can tell
/// it from a failure.
pub fn read_reference<R: Read>(reader: &mut R, long: bool) -> Result<Option<StringRef>, Error>
    ensures ok { IfOk result (λ reference.
        ReadsReference long (R.remaining reader.old) (R.remaining reader.new) reference) }
    ensures cut { IfErr result
        (λ kind. kind ≡ InvalidData → HasFewer (R.remaining reader.old) (reference_width long)) }
    ensures kind { IfErr result (λ kind. (kind ≡ InvalidData) ⊎ ((kind ≡ Io) ⊎ (kind ≡ OutOfMemory))) }
{
    let number = if long {
        let mut bytes = [0; 3];
        read_exactly(reader, &mut bytes, reasons::REFERENCE_CUT)?;
        number_of(&bytes)
    } else {
        let mut bytes = [0; 2];
        read_exactly(reader, &mut bytes, reasons::REFERENCE_CUT)?;
        number_of(&bytes)
    };
    if number == 0 {
        Ok(None)
    } else {
        Ok(Some(StringRef::from_number(number as u32)))
    }
}

/// Writes a reference in 2 bytes, or in 3 where references are long, the lowest byte first. None is a number of 0.
///
/// # Errors
/// Fails with `InvalidInput`, with nothing written, for a number above 65535 if references are short. If the writer
/// fails, it fails with `OutOfMemory` or `Io`; the writer may then have taken a prefix of the bytes.
pub fn write_reference<W: Write>(
    writer: &mut W,
    reference: Option<StringRef>,
    long: bool,
) -> Result<(), Error>
    ensures ok { OnOk result
        (Appends (W.contents writer.old) (W.contents writer.new) (reference_bytes long reference)) }
    ensures part { OnErr result
        (AppendsPart (W.contents writer.old) (W.contents writer.new) (reference_bytes long reference)) }
    ensures wide { fits_reference long reference ≡ false → IsErrOf result InvalidInput × (writer.new ≡ writer.old) }
    ensures kind { fits_reference long reference ≡ true
        → IfErr result (λ kind. (kind ≡ Io) ⊎ (kind ≡ OutOfMemory)) }
{
    let number = reference.map_or(0, |reference| reference.to_number());
    if long {
        let mut bytes = [0; 3];
        LittleEndian::write_u24(&mut bytes, number);
        write_fully(writer, &bytes)
    } else if number as usize <= MAX_SHORT_PLACES {
        let mut bytes = [0; 2];
        LittleEndian::write_u16(&mut bytes, number as u16);
        write_fully(writer, &bytes)
    } else {
        Err(Error::new(ErrorKind::InvalidInput, reasons::REFERENCE_WIDE))
    }
}
