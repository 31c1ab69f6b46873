//! The summary's stream, with its texts in UTF-8.

ghost use Rattle.std.specs.Prelude.{◌≡◌, ℕ, ◌+◌, ◌==◌, ◌⊎◌, List, [], drop, length, Some, None};
ghost use Rattle.std.specs.Prelude.{is_some, true, false, IfOk, IfErr, OnOk};
ghost use Rattle.msi_base.specs.Lists.{entry_where};
ghost use Rattle.msi_base.specs.Results.{Gives};
ghost use Rattle.msi_base.specs.declared.errors.ErrorKind.TheVariants.{InvalidData, OutOfMemory};
ghost use Rattle.msi_summary_properties.specs.Properties.{value_with_id, with_value};
ghost use Rattle.msi_summary_properties.specs.PropertyWriting.{is_refused};
ghost use Rattle.msi_recode.specs.Errors.{kind_of};
ghost use Rattle.msi_recode.specs.Readers.{page_of};
ghost use Rattle.msi_recode.specs.SummaryReading.{ArePut, CannotBePut, IsNotPut, IsPutIn};
ghost use Rattle.msi_recode.specs.SummaryReading.{is_text, piece_at, value_in};
ghost use Rattle.msi_recode.specs.SummaryRecoding.{HasNoSummary, IsSummary, IsSummaryError, IsSummaryRecoded};
ghost use Rattle.msi_recode.specs.SummaryRecoding.{in_utf8, is_too_long, page_named, page_stated};

use crate::counting::check_values;
use crate::errors::RecodeError;
use crate::page::{TextPage, page_for};
use crate::reader::TextReader;
use crate::reasons;
use msi_base::fields::{bytes_at, u32_at};
use msi_base::text::Text;
use msi_base::{CodePage, Error, ErrorKind};
use msi_summary_properties::parts::{
    Head, header_at, new_set_of, put, section_at, stream_of, value_at,
};
use msi_summary_properties::{PropertySet, PropertyText, PropertyValue};
use std::alloc::Global;

/// The id of the property that names the page.
pub(crate) const PAGE: u32 = 1;

/// Returns the stream of a summary with its texts in UTF-8, which property 1 names then, where it is there. Texts are
/// read in the page that it names; for page 0 in the one that is given, and as UTF-8 where none is. Without property 1
/// they are UTF-8. All other properties keep their values.
///
/// # Errors
/// Fails with `InvalidData` if the bytes list no values, if property 1 names no known page, or at the first value that
/// isn't there, isn't read in the page or is listed twice, which is named. Fails with `InvalidInput` at the first value
/// with which the new stream would have more than four times the bytes of the old one and 64 KiB, which happens only if
/// values overlap, or more than 2^31 bytes, the most that a file holds. Fails otherwise with `OutOfMemory`, at no
/// value. What is refused is refused before any value is kept.
pub fn recode_summary(
    alloc: Global,
    given: Option<TextPage>,
    bytes: &[u8],
) -> Result<Vec<u8>, RecodeError>
    ensures ok { IfOk result (λ after. IsSummaryRecoded given bytes.now after.items) }
    // What can be recoded is recoded, unless memory is refused.
    ensures only { (after : List ℕ) → IsSummaryRecoded given bytes.now after
        → IfErr result (λ error. kind_of error ≡ OutOfMemory) }
    ensures exact { IfErr result (λ error. IsSummaryError given bytes.now error) }
    ensures refused { IfErr result (λ error. kind_of error ≡ InvalidData → HasNoSummary given bytes.now) }
{
    let set = set_in_utf8(alloc, given, bytes)?;
    // UTF-8 writes each text so that it reads back: the call states that the texts are UTF-8.
    let _writable = set.is_writable();
    Ok(stream_of(&set)?)
}

fn set_in_utf8(
    alloc: Global,
    given: Option<TextPage>,
    bytes: &[u8],
) -> Result<PropertySet, RecodeError>
    ensures ok { IfOk result (λ set.
        (summary : IsSummary given bytes.now set) × (is_too_long (length bytes.now) summary.entries ≡ false)) }
    ensures written { IfOk result (λ set. is_refused set ≡ false) }
    ensures exact { IfErr result (λ error. IsSummaryError given bytes.now error) }
{
    let head = header_at(bytes)?;
    let pairs = section_at(alloc, rest_from(bytes, head.section, 0))?;
    let page = page_of_texts(alloc, given, head.version, bytes, head.section, &pairs)?;
    let reader = TextReader::new(alloc, page)?;
    check_values(alloc, head.version, &reader, bytes, head.section, &pairs)?;
    let mut set = new_set_of(alloc, &head);
    put_values(
        alloc,
        &mut set,
        head.version,
        &reader,
        bytes,
        head.section,
        &pairs,
    )?;
    Ok(set)
}

/// Returns the bytes from a place of a section on, and none past the end.
pub(crate) fn rest_from(bytes: &[u8], section: u32, place: u32) -> &[u8]
    ensures { result.now ≡ drop (section + place) bytes.now }
{
    let start = section as usize + place as usize;
    if start >= bytes.len() {
        return &bytes[bytes.len()..];
    }
    &bytes[start..]
}

/// Returns where the value of property 1 is in the section, if it is listed.
fn place_of_page(pairs: &[(u32, u32)]) -> Option<u32>
    ensures { result ≡ entry_where (λ k. k == 1) pairs.now }
{
    for &(id, place) in pairs {
        if id == PAGE {
            return Some(place);
        }
    }
    None
}

fn page_of_texts(
    alloc: Global,
    given: Option<TextPage>,
    version: u16,
    bytes: &[u8],
    section: u32,
    pairs: &[(u32, u32)],
) -> Result<TextPage, Error>
    ensures { Gives (λ p. p) result
        (page_stated given version bytes.now section (entry_where (λ k. k == 1) pairs.now)) }
{
    let named = match place_of_page(pairs) {
        None => Some(TextPage::Plain(CodePage::Utf8)),
        Some(place) => {
            let value = value_at(
                alloc,
                version,
                CodePage::Utf8,
                rest_from(bytes, section, place),
            )?;
            page_from(given, &value)
        }
    };
    match named {
        Some(page) => Ok(page),
        None => Err(Error::new(ErrorKind::InvalidData, reasons::PROPERTY_PAGE)),
    }
}

fn page_from(given: Option<TextPage>, value: &PropertyValue) -> Option<TextPage>
    ensures { result ≡ page_named given (Some value.now) }
{
    match value {
        PropertyValue::I2(id) => page_for(given, id.cast_unsigned() as u32),
        _ => None,
    }
}

fn put_values(
    alloc: Global,
    set: &mut PropertySet,
    version: u16,
    reader: &TextReader,
    bytes: &[u8],
    section: u32,
    pairs: &[(u32, u32)],
) -> Result<(), Error>
    requires { set.old.values ≡ [] }
    ensures ok { OnOk result (ArePut version (page_of reader.now) bytes.now section pairs.now set.old set.new) }
    ensures kinds { IfErr result (λ kind. (kind ≡ InvalidData) ⊎ (kind ≡ OutOfMemory)) }
    ensures refused { IfErr result (λ kind. kind ≡ InvalidData
        → CannotBePut version (page_of reader.now) bytes.now section pairs.now) }
{
    for &(id, place) in pairs {
        let rest = rest_from(bytes, section, place);
        put_value(alloc, set, id, version, reader, rest)?;
    }
    Ok(())
}

/// Puts the value whose bytes begin here into a set that has none of this id.
fn put_value(
    alloc: Global,
    set: &mut PropertySet,
    id: u32,
    version: u16,
    reader: &TextReader,
    bytes: &[u8],
) -> Result<(), Error>
    ensures new { OnOk result (value_with_id id set.old.values ≡ None) }
    ensures ok { OnOk result (IsPutIn version (page_of reader.now) bytes.now id set.old set.new) }
    ensures kinds { IfErr result (λ kind. (kind ≡ InvalidData) ⊎ (kind ≡ OutOfMemory)) }
    ensures refused { IfErr result (λ kind. kind ≡ InvalidData
        → IsNotPut version (page_of reader.now) bytes.now id set.old) }
{
    let value = value_in(alloc, version, reader, bytes)?;
    put_new(set, id, value)
}

fn put_new(set: &mut PropertySet, id: u32, value: PropertyValue) -> Result<(), Error>
    ensures new { OnOk result (value_with_id id set.old.values ≡ None) }
    ensures ok { OnOk result (set.new ≡ with_value id (in_utf8 id value) set.old) }
    ensures kinds { IfErr result (λ kind. (kind ≡ InvalidData) ⊎ (kind ≡ OutOfMemory)) }
    ensures there { IfErr result (λ kind. kind ≡ InvalidData → is_some (value_with_id id set.old.values) ≡ true) }
{
    if set.get(id).is_some() {
        return Err(Error::new(ErrorKind::InvalidData, reasons::PROPERTY_TWICE));
    }
    if id == PAGE {
        return set.set_codepage(CodePage::Utf8);
    }
    put(set, id, value)
}

#[tactic(auto, unfolding(crate::specs::SummaryReading::value_in))]
pub(crate) fn value_in(
    alloc: Global,
    version: u16,
    reader: &TextReader,
    bytes: &[u8],
) -> Result<PropertyValue, Error>
    ensures { Gives (λ v. v) result (value_in version (page_of reader.now) bytes.now) }
{
    let value = value_at(alloc, version, CodePage::Utf8, bytes)?;
    if !is_text(&value) {
        return Ok(value);
    }
    let text = reader.decode(alloc, piece_at(bytes)?)?;
    Ok(PropertyValue::LpStr(PropertyText::from_text(Text::from_string(text))))
}

fn is_text(value: &PropertyValue) -> bool
    ensures { result ≡ is_text value.now }
{
    match value {
        PropertyValue::LpStr(_) => true,
        _ => false,
    }
}

/// Returns the bytes of the text behind the number of its type and its length.
#[tactic(auto, unfolding(crate::specs::SummaryReading::piece_at))]
fn piece_at(bytes: &[u8]) -> Result<&[u8], Error>
    ensures { Gives (λ piece. piece.now) result (piece_at bytes.now) }
{
    let (_, rest) = u32_at(bytes, reasons::PROPERTY_CUT)?;
    let (count, rest) = u32_at(rest, reasons::PROPERTY_CUT)?;
    let (piece, _) = bytes_at(
        rest,
        (count as usize).saturating_sub(1),
        reasons::PROPERTY_CUT,
    )?;
    Ok(piece)
}
