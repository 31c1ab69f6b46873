//! Reading a set from its bytes.

ghost use Rattle.std.specs.Prelude.{◌≡◌, ◌+◌, ◌==◌, ◌⊎◌, [], Some, IfOk, IfErr};
ghost use Rattle.msi_base.specs.declared.errors.ErrorKind.TheVariants.{InvalidData, OutOfMemory};
ghost use Rattle.msi_summary_properties.specs.PropertyStream.{Spells};
ghost use Rattle.msi_base.specs.Lists.{entry_where};
ghost use Rattle.msi_summary_properties.specs.Properties.{Properties, page_in};
ghost use Rattle.msi_base.specs.Results.{Gives, OnlyMemory};
ghost use Rattle.msi_summary_properties.specs.Reading.{page_stated, put_values, set_put};
ghost use Rattle.msi_summary_properties.specs.SharedTexts.{AreCuts, page_for_all};

use crate::header::{header_at, section_at};
use crate::propset::{PropertySet, PropertyValue, page_named};
use crate::reasons;
use crate::shared::SharedTexts;
use crate::values::{push_text_ends, rest_from, value_at, value_from};
use msi_base::codepage::CodePage;
use msi_base::errors::{Error, ErrorKind};
use std::alloc::Global;
use std::collections::BTreeMap;

fn page_from(value: &PropertyValue) -> Result<CodePage, Error>
    ensures { Gives (λ p. p) result (page_in (Some value.now)) }
{
    match page_named(value) {
        Some(page) => Ok(page),
        None => Err(Error::new(ErrorKind::InvalidData, reasons::PROPERTY_PAGE)),
    }
}

/// Returns where the value of property 1 is in the section, if it is listed.
fn place_of_page(pairs: &[(u32, u32)]) -> Option<u32>
    ensures { result ≡ entry_where (λ k. k == 1) pairs.now }
{
    for &(id, place) in pairs {
        if id == 1 {
            return Some(place);
        }
    }
    None
}

/// Returns the page that property 1 names, and UTF-8 without it.
fn page_in_section(
    alloc: Global,
    version: u16,
    bytes: &[u8],
    section: u32,
    pairs: &[(u32, u32)],
) -> Result<CodePage, Error>
    ensures { Gives (λ p. p) result (page_stated version bytes.now section (entry_where (λ k. k == 1) pairs.now)) }
{
    match place_of_page(pairs) {
        None => Ok(CodePage::Utf8),
        Some(place) => {
            let rest = rest_from(bytes, place_in(section, place));
            let value = value_at(alloc, version, CodePage::Utf8, rest)?;
            page_from(&value)
        }
    }
}

/// Returns where a place of a section is in the stream.
fn place_in(section: u32, place: u32) -> usize
    ensures { result ≡ section + place }
{
    section as usize + place as usize
}

/// Returns the texts of the values of these pairs, each cut out of the one that the stream reads as.
fn texts_of(
    alloc: Global,
    page: CodePage,
    bytes: &[u8],
    section: u32,
    pairs: &[(u32, u32)],
) -> Result<SharedTexts, Error>
    ensures ok { IfOk result (λ texts. AreCuts (page_for_all page) bytes.now texts) }
    ensures kind { OnlyMemory result }
{
    let mut ends = Vec::new(alloc);
    for &(_, place) in pairs {
        push_text_ends(&mut ends, bytes, place_in(section, place))?;
    }
    ends.sort_unstable();
    SharedTexts::new(alloc, page, bytes, &ends)
}

fn values_of(
    alloc: Global,
    version: u16,
    page: CodePage,
    bytes: &[u8],
    section: u32,
    pairs: &[(u32, u32)],
) -> Result<BTreeMap<u32, PropertyValue>, Error>
    ensures { Gives (λ m. m.entries) result (put_values version page bytes.now section pairs.now []) }
{
    let texts = texts_of(alloc, page, bytes, section, pairs)?;
    let mut values = BTreeMap::new(alloc);
    for &(id, place) in pairs {
        let start = place_in(section, place);
        let value = value_from(alloc, version, page, &texts, bytes, start)?;
        let before = values.insert(id, value)?;
        if before.is_some() {
            return Err(Error::new(ErrorKind::InvalidData, reasons::PROPERTY_TWICE));
        }
    }
    Ok(values)
}

#[tactic(auto, unfolding(crate::specs::Reading::set_put))]
fn set_at(alloc: Global, bytes: &[u8]) -> Result<PropertySet, Error>
    ensures { Gives (λ s. s) result (set_put bytes.now) }
{
    let head = header_at(bytes)?;
    let rest = rest_from(bytes, head.section as usize);
    let pairs = section_at(alloc, rest)?;
    let page = page_in_section(alloc, head.version, bytes, head.section, &pairs)?;
    let values = values_of(alloc, head.version, page, bytes, head.section, &pairs)?;
    Ok(PropertySet::from_parts(
        alloc,
        head.os,
        head.os_version,
        head.clsid,
        head.format_identifier,
        values,
    ))
}

impl PropertySet {
    /// Returns the set that the bytes of a stream encode (MS-OLEPS 2.21). A value is looked for where the section
    /// lists it, in any order; bytes that nothing points at, the section's size and the padding are ignored. No
    /// memory is asked for a number or a length that the bytes can't hold.
    ///
    /// # Errors
    /// Fails with `InvalidData` if the bytes encode no set: a field, a value or a text goes past the end; the mark,
    /// the version, the system or the reserved number is none that is known; a type is unknown, or an 8-bit number
    /// stands in a set of version 0; a text ends in no null, or isn't read in its page; property 1 is no 16-bit
    /// number of a known page; an id is listed twice. Otherwise it fails with `OutOfMemory` if the values can't be
    /// stored. Texts that ids share, and texts that overlap, are stored once.
    pub fn read(alloc: Global, bytes: &[u8]) -> Result<PropertySet, Error>
        // What is read is spelled.
        ensures found { IfOk result (λ set. Spells bytes.now set) }
        // What is spelled is read, and nothing else, unless memory runs out.
        ensures only { (set : Properties) → Spells bytes.now set → Gives (λ s. s) result (Some set) }
        ensures kinds { IfErr result (λ kind. (kind ≡ InvalidData) ⊎ (kind ≡ OutOfMemory)) }
    {
        set_at(alloc, bytes)
    }
}
