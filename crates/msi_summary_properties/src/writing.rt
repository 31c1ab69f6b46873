//! Writing a set as its bytes.

ghost use Rattle.std.specs.Prelude.{◌≡◌, ℕ, ◌+◌, ◌-◌, ◌%◌, ◌^◌, ◌<◌, ◌⊎◌, ◌↔◌, ◌++◌, List, [], length, replicate};
ghost use Rattle.std.specs.Prelude.{true, false, IsTrue, OnOk, OnErr, IfOk, IfErr, IsErrOf};
ghost use Rattle.std.specs.Prelude.{Some, option_map, unwrap_or, is_some};
ghost use Rattle.std.specs.Int.{w32, to_le_bytes};
ghost use Rattle.std.specs.List.{flat_map};
ghost use Rattle.std.specs.Io.KnownBytes.{Appends};
ghost use Rattle.msi_pool.specs.PoolWriting.{is_refused_spelling};
ghost use Rattle.msi_base.specs.Results.{OnlyMemory};
ghost use Rattle.msi_base.specs.declared.errors.ErrorKind.TheVariants.{InvalidInput, Io, OutOfMemory};
ghost use Rattle.msi_summary_properties.specs.Properties.{page_of};
ghost use Rattle.msi_summary_properties.specs.PropertyStream.{os_number, header_bytes, version_of};
ghost use Rattle.msi_summary_properties.specs.PropertyStream.{least_version as version_in};
ghost use Rattle.msi_summary_properties.specs.PropertyStream.{needs_version_1 as is_of_version_1, value_bytes};
ghost use Rattle.msi_summary_properties.specs.PropertyStream.{piece_of, pair_bytes, section_head, property_stream};
ghost use Rattle.msi_summary_properties.specs.PropertyStream.{AreWritable, Spells};
ghost use Rattle.msi_summary_properties.specs.PropertyWriting.{can_write, is_refused, joined_pieces, piece_in};
ghost use Rattle.msi_summary_properties.specs.PropertyWriting.{plain_pairs};
ghost use Rattle.msi_summary_properties.specs.PropertyLaws.{IsKept};
ghost use Rattle.msi_summary_properties.specs.PropertyWriting.{section_size, AppendsBeginning};

use crate::header::MARK;
use crate::propset::{OperatingSystem, PropertySet, PropertyValue};
use crate::reasons;
use msi_base::codepage::CodePage;
use msi_base::errors::{Error, ErrorKind};
use msi_base::fields::{push_u16, push_u32};
use msi_base::reasons::PAGE_CHARACTER;
use msi_pool::encoded_len;
use std::alloc::AllocError;
use std::collections::BTreeMap;
use std::io::{self, Write};

/// Where the section stands: behind the header.
const SECTION: u32 = 48;

/// From how many bytes on a text or a section isn't written.
const LONG_END: usize = 1 << 32;

impl PropertySet {
    /// Writes the set behind what the writer has, in its plain encoding (MS-OLEPS 2.21): version 1 where a value is
    /// an `I1`, else 0; the section at byte 48; the values in the order of their ids without gaps, each padded with
    /// zeros to a multiple of four bytes; the texts in the set's page.
    ///
    /// # Errors
    /// Fails with `InvalidInput` if the page can't encode a text, or the section would have 2^32 bytes or more; the
    /// writer is then as it was. Otherwise it fails with `OutOfMemory` if there is no memory for the bytes or the
    /// writer has no memory, and `Io` if the writer fails otherwise; it may then have a prefix of the bytes.
    pub fn write<W: Write>(&self, writer: &mut W) -> Result<(), Error>
        ensures ok { OnOk result ((bytes : List ℕ) × (property_stream self.now ≡ Some bytes)
            × Appends (W.contents writer.old) (W.contents writer.new) bytes) }
        // Where the page carries each text there and back, what is written spells the set, so reading gives it.
        ensures spelled { OnOk result ((bytes : List ℕ) × (AreWritable self.now → Spells bytes self.now)
            × Appends (W.contents writer.old) (W.contents writer.new) bytes) }
        ensures refused { IsErrOf result InvalidInput ↔ IsTrue (is_refused self.now) }
        ensures unwritten { IsErrOf result InvalidInput → writer.new ≡ writer.old }
        // What a refused call has written is a beginning of the spelling, and nothing else.
        ensures begun { OnErr result (AppendsBeginning (W.contents writer.old) (W.contents writer.new)
            (unwrap_or (property_stream self.now) [])) }
        ensures kinds { IfErr result (λ kind. (kind ≡ InvalidInput) ⊎ (kind ≡ OutOfMemory) ⊎ (kind ≡ Io)) }
    {
        let bytes = stream_of(self)?;
        write_bytes(writer, bytes.as_slice())
    }
}

fn write_bytes<W: Write>(writer: &mut W, bytes: &[u8]) -> Result<(), Error>
    ensures ok { OnOk result (Appends (W.contents writer.old) (W.contents writer.new) bytes.now) }
    ensures err { OnErr result (AppendsBeginning (W.contents writer.old) (W.contents writer.new) bytes.now) }
    ensures kinds { IfErr result (λ kind. (kind ≡ OutOfMemory) ⊎ (kind ≡ Io)) }
{
    // Not `write_all`: its contract doesn't tell what it has written where it fails. The bound is there for a
    // writer that is interrupted forever.
    let mut rest = bytes;
    'writes: for _ in 0..u64::MAX {
        if rest.is_empty() {
            return Ok(());
        }
        match writer.write(rest) {
            Ok(0) => return Err(Error::new(ErrorKind::Io, reasons::WRITER_ENDED)),
            Ok(n) => rest = &rest[n..],
            Err(error) => match error.kind() {
                io::ErrorKind::Interrupted => {}
                _ => return Err(Error::from(error)),
            },
        }
    }
    Err(Error::new(ErrorKind::Io, reasons::WRITER_ENDED))
}

/// Returns the bytes of a set's stream: its plain encoding, as `PropertySet::write` writes it.
///
/// # Errors
/// Fails with `InvalidInput` if the page can't encode a text, or the section would have 2^32 bytes or more. Otherwise
/// it fails with `OutOfMemory` if there is no memory for the bytes.
pub fn stream_of(set: &PropertySet) -> Result<Vec<u8>, Error>
    ensures ok { IfOk result (λ bytes. property_stream set.now ≡ Some bytes.items) }
    ensures spelled { IfOk result (λ bytes. AreWritable set.now → Spells bytes.items set.now) }
    ensures refused { IsErrOf result InvalidInput ↔ IsTrue (is_refused set.now) }
    // Every set, whatever was set or removed, is kept as it can be read again.
    ensures kept { IsKept set.now }
    ensures kinds { IfErr result (λ kind. (kind ≡ InvalidInput) ⊎ (kind ≡ OutOfMemory)) }
{
    let page = set.codepage();
    let size = section_len(page, set.values())?;
    plain_bytes(set, page, size)
}

/// Returns the stream of a set that can be written and has a section of this size.
fn plain_bytes(set: &PropertySet, page: CodePage, size: u32) -> Result<Vec<u8>, Error>
    requires page { page ≡ page_of set.now }
    requires accepted { can_write page set.now.values ≡ true }
    requires size { size ≡ section_size page set.now.values }
    ensures ok { IfOk result (λ bytes. property_stream set.now ≡ Some bytes.items) }
    ensures spelled { IfOk result (λ bytes. AreWritable set.now → Spells bytes.items set.now) }
    ensures kind { OnlyMemory result }
{
    let values = set.values();
    let mut held = Vec::new(set.allocator());
    push_header(&mut held, set)?;
    push_section_head(&mut held, page, values, size)?;
    push_values(&mut held, page, values)?;
    Ok(held)
}

/// Returns how many bytes the section has, where it can be written. It takes no memory.
fn section_len(page: CodePage, values: &BTreeMap<u32, PropertyValue>) -> Result<u32, Error>
    ensures accepted { OnOk result (can_write page values.now.entries ≡ true) }
    ensures size { IfOk result (λ size. size ≡ section_size page values.now.entries) }
    ensures refused { OnErr result (can_write page values.now.entries ≡ false) }
    ensures kind { IfErr result (λ kind. kind ≡ InvalidInput) }
{
    let mut size = 8;
    for (_, value) in values {
        size += 8 + piece_len(page, value)?;
        if size >= LONG_END {
            return Err(Error::new(ErrorKind::InvalidInput, reasons::SECTION_LONG));
        }
    }
    Ok(size as u32)
}

/// Returns how many bytes a value has with its padding, where the page carries it and they aren't too many.
fn piece_len(page: CodePage, value: &PropertyValue) -> Result<usize, Error>
    ensures carried { OnOk result (is_some (value_bytes page value.now) ≡ true) }
    ensures len { IfOk result (λ len. len ≡ length (piece_in page value.now)) }
    ensures below { IfOk result (λ len. len < 2 ^ 33) }
    ensures refused { OnErr result (is_refused_spelling (piece_of page value.now) ≡ true) }
    ensures kind { IfErr result (λ kind. kind ≡ InvalidInput) }
{
    let len = value_len(page, value)?;
    Ok(len + padding(len))
}

/// Returns how many bytes fill a value up to a multiple of four.
fn padding(len: usize) -> usize
    ensures value { result ≡ (4 - len % 4) % 4 }
    ensures few { result < 4 }
{
    let over = len % 4;
    (4 - over) % 4
}

fn value_len(page: CodePage, value: &PropertyValue) -> Result<usize, Error>
    ensures len { IfOk result (λ len. option_map length (value_bytes page value.now) ≡ Some len) }
    ensures below { IfOk result (λ len. len < 2 ^ 32 + 9) }
    ensures refused { OnErr result (is_refused_spelling (value_bytes page value.now) ≡ true) }
    ensures kind { IfErr result (λ kind. kind ≡ InvalidInput) }
{
    match value {
        PropertyValue::Empty => Ok(4),
        PropertyValue::Null => Ok(4),
        PropertyValue::I1(_) => Ok(5),
        PropertyValue::I2(_) => Ok(6),
        PropertyValue::I4(_) => Ok(8),
        PropertyValue::LpStr(text) => string_len(page, text.as_str()),
        PropertyValue::FileTime(_) => Ok(12),
    }
}

/// Counts the type, the length, the bytes in the page and a null of a text.
fn string_len(page: CodePage, text: &str) -> Result<usize, Error>
    ensures len { IfOk result (λ len. option_map length (value_bytes page (PropertyValue.LpStr text.now)) ≡ Some len) }
    ensures below { IfOk result (λ len. len < 2 ^ 32 + 9) }
    ensures refused { OnErr result (is_refused_spelling (value_bytes page (PropertyValue.LpStr text.now)) ≡ true) }
    ensures kind { IfErr result (λ kind. kind ≡ InvalidInput) }
{
    match encoded_len(page, text) {
        None => Err(Error::new(ErrorKind::InvalidInput, PAGE_CHARACTER)),
        Some(len) => {
            if len < LONG_END {
                Ok(len + 9)
            } else {
                Err(Error::new(ErrorKind::InvalidInput, reasons::SECTION_LONG))
            }
        }
    }
}

fn push_header(held: &mut Vec<u8>, set: &PropertySet) -> Result<(), AllocError>
    ensures { OnOk result (held.new.items ≡ held.old.items ++ header_bytes set.now (version_in set.now) 1 48) }
{
    push_u16(held, MARK)?;
    push_u16(held, least_version(set.values()))?;
    push_u16(held, set.os_version())?;
    push_u16(held, system_number(set.os()))?;
    held.extend_from_slice(set.clsid())?;
    push_u32(held, 1)?;
    held.extend_from_slice(set.format_identifier())?;
    push_u32(held, SECTION)
}

fn system_number(system: OperatingSystem) -> u16
    ensures { result ≡ os_number system }
{
    match system {
        OperatingSystem::Win16 => 0,
        OperatingSystem::Macintosh => 1,
        OperatingSystem::Win32 => 2,
    }
}

fn least_version(values: &BTreeMap<u32, PropertyValue>) -> u16
    ensures { result ≡ version_of values.now.entries }
{
    for (_, value) in values {
        if needs_version_1(value) {
            return 1;
        }
    }
    0
}

fn needs_version_1(value: &PropertyValue) -> bool
    ensures { result ≡ is_of_version_1 value.now }
{
    matches!(value, PropertyValue::I1(_))
}

/// Adds the size of the section, the number of values, and the id and the place of each.
fn push_section_head(
    held: &mut Vec<u8>,
    page: CodePage,
    values: &BTreeMap<u32, PropertyValue>,
    size: u32,
) -> Result<(), AllocError>
    requires { can_write page values.now.entries ≡ true }
    ensures { OnOk result (held.new.items
        ≡ held.old.items ++ section_head size (plain_pairs page values.now.entries)) }
{
    push_u32(held, size)?;
    push_u32(held, values.len() as u32)?;
    push_pairs(held, page, values)
}

fn push_pairs(
    held: &mut Vec<u8>,
    page: CodePage,
    values: &BTreeMap<u32, PropertyValue>,
) -> Result<(), AllocError>
    requires { can_write page values.now.entries ≡ true }
    ensures { OnOk result (held.new.items
        ≡ held.old.items ++ flat_map pair_bytes (plain_pairs page values.now.entries)) }
{
    let mut place = 8 + 8 * values.len();
    for (id, value) in values {
        push_pair(held, *id, place as u32)?;
        place += known_len(page, value);
    }
    Ok(())
}

fn push_pair(held: &mut Vec<u8>, id: u32, place: u32) -> Result<(), AllocError>
    ensures { OnOk result (held.new.items ≡ held.old.items ++ pair_bytes (id, place)) }
{
    push_u32(held, id)?;
    push_u32(held, place)
}

/// Returns how many bytes a value that can be written has, with its padding.
fn known_len(page: CodePage, value: &PropertyValue) -> usize
    requires { is_refused_spelling (piece_of page value.now) ≡ false }
    ensures { result ≡ length (piece_in page value.now) }
{
    match piece_len(page, value) {
        Ok(len) => len,
        Err(_) => unreachable!(),
    }
}

fn push_values(
    held: &mut Vec<u8>,
    page: CodePage,
    values: &BTreeMap<u32, PropertyValue>,
) -> Result<(), Error>
    requires { can_write page values.now.entries ≡ true }
    ensures ok { OnOk result (held.new.items ≡ held.old.items ++ joined_pieces page values.now.entries) }
    ensures kind { OnlyMemory result }
{
    for (_, value) in values {
        push_piece(held, page, value)?;
    }
    Ok(())
}

fn push_piece(held: &mut Vec<u8>, page: CodePage, value: &PropertyValue) -> Result<(), Error>
    requires { is_refused_spelling (piece_of page value.now) ≡ false }
    ensures ok { OnOk result (held.new.items ≡ held.old.items ++ piece_in page value.now) }
    ensures kind { OnlyMemory result }
{
    let start = held.len();
    push_value(held, page, value)?;
    let len = held.len() - start;
    Ok(push_zeros(held, padding(len))?)
}

fn push_zeros(held: &mut Vec<u8>, count: usize) -> Result<(), AllocError>
    ensures { OnOk result (held.new.items ≡ held.old.items ++ replicate count 0) }
{
    for _ in 0..count {
        held.push(0)?;
    }
    Ok(())
}

fn push_value(held: &mut Vec<u8>, page: CodePage, value: &PropertyValue) -> Result<(), Error>
    requires { is_refused_spelling (value_bytes page value.now) ≡ false }
    ensures ok { OnOk result (held.new.items ≡ held.old.items ++ unwrap_or (value_bytes page value.now) []) }
    ensures kind { OnlyMemory result }
{
    match value {
        PropertyValue::Empty => push_typed(held, 0, &[]),
        PropertyValue::Null => push_typed(held, 1, &[]),
        PropertyValue::I1(n) => push_typed(held, 16, &n.cast_unsigned().to_le_bytes()),
        PropertyValue::I2(n) => push_typed(held, 2, &n.cast_unsigned().to_le_bytes()),
        PropertyValue::I4(n) => push_typed(held, 3, &n.cast_unsigned().to_le_bytes()),
        PropertyValue::LpStr(text) => push_string(held, page, text.as_str()),
        PropertyValue::FileTime(time) => push_typed(held, 64, &time.ticks().to_le_bytes()),
    }
}

fn push_typed(held: &mut Vec<u8>, kind: u32, payload: &[u8]) -> Result<(), Error>
    ensures ok { OnOk result (held.new.items ≡ held.old.items ++ to_le_bytes w32 kind ++ payload.now) }
    ensures kind { OnlyMemory result }
{
    push_u32(held, kind)?;
    held.extend_from_slice(payload)?;
    Ok(())
}

fn push_string(held: &mut Vec<u8>, page: CodePage, text: &str) -> Result<(), Error>
    requires { is_refused_spelling (value_bytes page (PropertyValue.LpStr text.now)) ≡ false }
    ensures ok { OnOk result (held.new.items
        ≡ held.old.items ++ unwrap_or (value_bytes page (PropertyValue.LpStr text.now)) []) }
    ensures kind { OnlyMemory result }
{
    let bytes = page.encode(*held.allocator(), text)?;
    let count = bytes.len() as u32 + 1;
    push_typed(held, 30, &count.to_le_bytes())?;
    held.extend_from_slice(bytes.as_slice())?;
    held.push(0)?;
    Ok(())
}
