//! The values of a summary, looked at one after the other before any is kept: whether each is read, and how many bytes
//! they have in UTF-8.

ghost use Rattle.std.specs.Prelude.{◌≡◌, ◌⊎◌, ◌+◌, ◌-◌, ◌%◌, ◌<◌, ◌^◌, length, false, true, IfOk, IfErr, OnOk};
ghost use Rattle.std.specs.BTreeSet.{Updates, contains};
ghost use Rattle.std.specs.Ordering.{nat_cmp};
ghost use Rattle.msi_base.specs.declared.codepage.CodePage.TheVariants as page;
ghost use Rattle.msi_base.specs.declared.errors.ErrorKind.TheVariants.{InvalidData, OutOfMemory};
ghost use Rattle.msi_summary_properties.specs.PropertyWriting.{piece_in};
ghost use Rattle.msi_recode.specs.Readers.{page_of};
ghost use Rattle.msi_recode.specs.SummaryReading.{CanBePut, IsCounted, IsNotCounted};
ghost use Rattle.msi_recode.specs.SummaryRecoding.{IsValuesError, in_utf8, most_size};

use crate::errors::RecodeError;
use crate::reader::TextReader;
use crate::reasons;
use crate::summary::{PAGE, rest_from, value_in};
use msi_base::{Error, ErrorKind};
use msi_summary_properties::PropertyValue;
use std::alloc::Global;
use std::collections::BTreeSet;

/// The bytes of a stream without values: its header, and the size and the number of values of its section.
const NO_VALUES: usize = 56;

/// The most bytes of a stream that a file holds.
const MOST_BYTES: usize = 1 << 31;

/// The bytes that a stream may have in UTF-8 beyond four times its own. So values of a small stream may overlap.
const MORE_BYTES: usize = 65_536;

/// Keeps one text at a time in memory, so that nothing is built of texts that many ids share. Fails with `InvalidData`
/// at the first value that isn't read or is listed twice, and with `InvalidInput` at the first that makes the stream in
/// UTF-8 too long (`most_size`).
pub(crate) fn check_values(
    alloc: Global,
    version: u16,
    reader: &TextReader,
    bytes: &[u8],
    section: u32,
    pairs: &[(u32, u32)],
) -> Result<(), RecodeError>
    ensures ok { OnOk result (CanBePut version (page_of reader.now) bytes.now section pairs.now) }
    ensures err { IfErr result (λ error. IsValuesError version (page_of reader.now) bytes.now section pairs.now error) }
{
    let most = most_size(bytes);
    let mut ids = BTreeSet::new(alloc);
    let mut size = NO_VALUES;
    for &(id, place) in pairs {
        let rest = rest_from(bytes, section, place);
        match count_value(alloc, &mut ids, id, version, reader, rest) {
            Ok(len) => size += 8 + len,
            Err(error) => return Err(RecodeError::of_property(id, error)),
        }
        if size > most {
            return Err(RecodeError::Package(Error::new(
                ErrorKind::InvalidInput,
                reasons::SUMMARY_LONG,
            )));
        }
    }
    Ok(())
}

/// Returns how many bytes the stream with these bytes may have in UTF-8. A byte of any page reads as at most three, so
/// only values that overlap have more than four times as many.
fn most_size(bytes: &[u8]) -> usize
    ensures { result ≡ most_size (length bytes.now) }
{
    if bytes.len() > MOST_BYTES {
        return MOST_BYTES;
    }
    (4 * bytes.len() + MORE_BYTES).min(MOST_BYTES)
}

/// Returns how many bytes the value has in UTF-8, with its padding, and puts its id among the earlier ones.
fn count_value(
    alloc: Global,
    ids: &mut BTreeSet<u32>,
    id: u32,
    version: u16,
    reader: &TextReader,
    bytes: &[u8],
) -> Result<usize, Error>
    ensures ok { IfOk result (λ len. IsCounted version (page_of reader.now) bytes.now id len) }
    ensures below { IfOk result (λ len. len < 2 ^ 63 + 13) }
    ensures new { OnOk result (contains nat_cmp ids.old id ≡ false) }
    ensures ids { OnOk result (Updates nat_cmp ids.old ids.new id true) }
    ensures kinds { IfErr result (λ kind. (kind ≡ InvalidData) ⊎ (kind ≡ OutOfMemory)) }
    ensures refused { IfErr result (λ kind. kind ≡ InvalidData
        → IsNotCounted version (page_of reader.now) bytes.now (contains nat_cmp ids.old id)) }
{
    let value = value_in(alloc, version, reader, bytes)?;
    if !ids.insert(id)? {
        return Err(Error::new(ErrorKind::InvalidData, reasons::PROPERTY_TWICE));
    }
    Ok(piece_len(id, &value))
}

/// Returns how many bytes the value has in UTF-8, padded to a multiple of four.
fn piece_len(id: u32, value: &PropertyValue) -> usize
    ensures len { result ≡ length (piece_in page.Utf8 (in_utf8 id value.now)) }
    ensures below { result < 2 ^ 63 + 13 }
{
    if id == PAGE {
        return 8;
    }
    match value {
        PropertyValue::Empty => 4,
        PropertyValue::Null => 4,
        PropertyValue::I1(_) => 8,
        PropertyValue::I2(_) => 8,
        PropertyValue::I4(_) => 8,
        PropertyValue::LpStr(text) => string_len(text.as_str()),
        PropertyValue::FileTime(_) => 12,
    }
}

/// Counts the type, the length, the bytes, a null, and the padding of a text.
fn string_len(text: &str) -> usize
    ensures len { result ≡ length (piece_in page.Utf8 (PropertyValue.LpStr text.now)) }
    ensures below { result < 2 ^ 63 + 13 }
{
    let len = text.len() + 9;
    len + (4 - len % 4) % 4
}
