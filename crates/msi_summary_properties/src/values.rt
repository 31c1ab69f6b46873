//! Reading values from their bytes.

ghost use Rattle.std.specs.Prelude.{◌≡◌, IfSome, drop};
ghost use Rattle.msi_base.specs.Pages.{text_in};
ghost use Rattle.msi_base.specs.Results.{Gives};
ghost use Rattle.msi_summary_properties.specs.Reading.{string_at, value_at, payload_at};
ghost use Rattle.msi_summary_properties.specs.SharedTexts.{AreCuts, BeginsText, page_for_all};

use crate::propset::PropertyValue;
use crate::reasons::{self, PROPERTY_CUT};
use crate::shared::SharedTexts;
use crate::texts::PropertyText;
use msi_base::codepage::CodePage;
use msi_base::errors::{Error, ErrorKind};
use msi_base::fields::{u8_at, u16_at, u32_at, u64_at};
use msi_base::text::Text;
use msi_categories::timestamp::Timestamp;
use std::alloc::{AllocError, Global};

/// How many bytes stand in front of a text: the number of its type, and its length.
const TYPE_AND_LENGTH: usize = 8;

pub(crate) fn rest_from(bytes: &[u8], start: usize) -> &[u8]
    ensures { result.now ≡ drop start bytes.now }
{
    if start >= bytes.len() {
        return &bytes[bytes.len()..];
    }
    &bytes[start..]
}

fn text_of(alloc: Global, page: CodePage, bytes: &[u8]) -> Result<PropertyText, Error>
    ensures { Gives (λ t. t) result (text_in page bytes.now) }
{
    let text = page.decode(alloc, bytes)?;
    Ok(PropertyText::from_text(Text::from_string(text)))
}

/// Reads the text behind its length, which counts the null at its end. No memory is asked for bytes that are missing.
#[tactic(auto, unfolding(crate::specs::Reading::string_at))]
fn string_at(alloc: Global, page: CodePage, bytes: &[u8]) -> Result<PropertyText, Error>
    ensures { Gives (λ t. t) result (string_at page bytes.now) }
{
    let (count, rest) = u32_at(bytes, PROPERTY_CUT)?;
    let len = (count as usize).saturating_sub(1);
    if rest.len() <= len {
        return Err(Error::new(ErrorKind::InvalidData, PROPERTY_CUT));
    }
    if rest[len] != 0 {
        return Err(Error::new(ErrorKind::InvalidData, reasons::PROPERTY_TEXT));
    }
    text_of(alloc, page, &rest[..len])
}

#[tactic(auto, unfolding(crate::specs::Reading::payload_at))]
fn payload_at(
    alloc: Global,
    version: u16,
    page: CodePage,
    kind: u32,
    rest: &[u8],
) -> Result<PropertyValue, Error>
    ensures { Gives (λ v. v) result (payload_at version page kind rest.now) }
{
    match kind {
        0 => Ok(PropertyValue::Empty),
        1 => Ok(PropertyValue::Null),
        2 => Ok(PropertyValue::I2(u16_at(rest, PROPERTY_CUT)?.0.cast_signed())),
        3 => Ok(PropertyValue::I4(u32_at(rest, PROPERTY_CUT)?.0.cast_signed())),
        16 if version == 1 => Ok(PropertyValue::I1(u8_at(rest, PROPERTY_CUT)?.0.cast_signed())),
        30 => Ok(PropertyValue::LpStr(string_at(alloc, page, rest)?)),
        64 => Ok(PropertyValue::FileTime(Timestamp::from_ticks(u64_at(rest, PROPERTY_CUT)?.0))),
        _ => Err(Error::new(ErrorKind::InvalidData, reasons::PROPERTY_TYPE)),
    }
}

/// The value whose bytes begin here, in a set of this version and page.
#[tactic(auto, unfolding(crate::specs::Reading::value_at))]
pub fn value_at(
    alloc: Global,
    version: u16,
    page: CodePage,
    bytes: &[u8],
) -> Result<PropertyValue, Error>
    ensures { Gives (λ v. v) result (value_at version page bytes.now) }
{
    let (kind, rest) = u32_at(bytes, PROPERTY_CUT)?;
    payload_at(alloc, version, page, kind, rest)
}

/// Returns how many bytes the text has whose value begins here, if a whole one does. They follow the first eight.
fn text_len(bytes: &[u8]) -> Option<usize>
    ensures { IfSome result (λ len. BeginsText bytes.now len) }
{
    let Ok((kind, rest)) = u32_at(bytes, PROPERTY_CUT) else {
        return None;
    };
    let Ok((count, rest)) = u32_at(rest, PROPERTY_CUT) else {
        return None;
    };
    let size = (count as usize).saturating_sub(1);
    if kind == 30 && size < rest.len() && rest[size] == 0 {
        Some(size)
    } else {
        None
    }
}

/// Adds where the text begins and ends whose value begins at `start`, if a whole one does.
pub(crate) fn push_text_ends(
    held: &mut Vec<usize>,
    bytes: &[u8],
    start: usize,
) -> Result<(), AllocError> {
    if let Some(len) = text_len(rest_from(bytes, start)) {
        let text = start + TYPE_AND_LENGTH;
        held.push(text)?;
        held.push(text + len)?;
    }
    Ok(())
}

/// Reads the value that begins at a byte. A text shares its bytes with the others of the stream if the stream's text is
/// cut there.
pub(crate) fn value_from(
    alloc: Global,
    version: u16,
    page: CodePage,
    texts: &SharedTexts,
    bytes: &[u8],
    start: usize,
) -> Result<PropertyValue, Error>
    requires { AreCuts (page_for_all page) bytes.now texts.now }
    ensures { Gives (λ v. v) result (value_at version page (drop start bytes.now)) }
{
    let rest = rest_from(bytes, start);
    if let Some(len) = text_len(rest) {
        let begin = start + TYPE_AND_LENGTH;
        if let Some(text) = texts.text(page, begin, begin + len)? {
            return Ok(PropertyValue::LpStr(text));
        }
    }
    value_at(alloc, version, page, rest)
}
