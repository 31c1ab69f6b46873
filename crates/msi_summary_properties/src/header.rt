//! What stands in front of the values: the header of the stream, and the section's list of ids and places.

ghost use Rattle.msi_base.specs.Results.{Gives};
ghost use Rattle.msi_summary_properties.specs.HeaderView.{view_head};
ghost use Rattle.msi_summary_properties.specs.Reading.{os_with_number, header_at, pairs_at, section_at};

use crate::propset::OperatingSystem;
use crate::reasons::{self, PROPERTY_CUT};
use msi_base::errors::{Error, ErrorKind};
use msi_base::fields::{identifier_at, u16_at, u32_at};
use std::alloc::Global;

/// The mark that a stream begins with: the bytes `FE FF`.
pub(crate) const MARK: u16 = 0xFFFE;

/// The header of a stream.
#[derive(Drop)]
pub struct Head {
    /// The version of the format: 0 or 1.
    pub version: u16,
    /// The version of the system that the set was made on.
    pub os_version: u16,
    /// That system.
    pub os: OperatingSystem,
    /// The class identifier, which has no meaning here.
    pub clsid: [u8; 16],
    /// How many sections there are, of which the first is read.
    pub reserved: u32,
    /// Which format says what the properties mean.
    pub format_identifier: [u8; 16],
    /// Where the section stands.
    pub section: u32,
}

fn system_of(number: u16) -> Result<OperatingSystem, Error>
    ensures { Gives (λ s. s) result (os_with_number number) }
{
    match number {
        0 => Ok(OperatingSystem::Win16),
        1 => Ok(OperatingSystem::Macintosh),
        2 => Ok(OperatingSystem::Win32),
        _ => Err(Error::new(ErrorKind::InvalidData, reasons::PROPERTY_SYSTEM)),
    }
}

/// The header in front.
#[tactic(auto, unfolding(crate::specs::Reading::header_at))]
pub fn header_at(bytes: &[u8]) -> Result<Head, Error>
    ensures { Gives view_head result (header_at bytes.now) }
{
    let (mark, rest) = u16_at(bytes, PROPERTY_CUT)?;
    let (version, rest) = u16_at(rest, PROPERTY_CUT)?;
    let (os_version, rest) = u16_at(rest, PROPERTY_CUT)?;
    let (number, rest) = u16_at(rest, PROPERTY_CUT)?;
    let (clsid, rest) = identifier_at(rest, PROPERTY_CUT)?;
    let (reserved, rest) = u32_at(rest, PROPERTY_CUT)?;
    let (format_identifier, rest) = identifier_at(rest, PROPERTY_CUT)?;
    let (section, _) = u32_at(rest, PROPERTY_CUT)?;
    let os = system_of(number)?;
    if mark != MARK {
        return Err(Error::new(ErrorKind::InvalidData, reasons::PROPERTY_MARK));
    }
    if version >= 2 {
        return Err(Error::new(ErrorKind::InvalidData, reasons::PROPERTY_VERSION));
    }
    if reserved == 0 {
        return Err(Error::new(ErrorKind::InvalidData, reasons::PROPERTY_SECTIONS));
    }
    Ok(Head {
        version,
        os_version,
        os,
        clsid,
        reserved,
        format_identifier,
        section,
    })
}

/// Reads `count` pairs of an id and a place, and stores each only once its bytes are there.
fn pairs_at(alloc: Global, count: u32, bytes: &[u8]) -> Result<Vec<(u32, u32)>, Error>
    ensures { Gives (λ v. v.items) result (pairs_at count bytes.now) }
{
    let mut pairs = Vec::new(alloc);
    let mut rest = bytes;
    for _ in 0..count {
        let (id, after_id) = u32_at(rest, PROPERTY_CUT)?;
        let (place, after) = u32_at(after_id, PROPERTY_CUT)?;
        pairs.push((id, place))?;
        rest = after;
    }
    Ok(pairs)
}

/// The ids of a section, and where their values stand in it. The section's size isn't looked at.
#[tactic(auto, unfolding(crate::specs::Reading::section_at))]
pub fn section_at(alloc: Global, bytes: &[u8]) -> Result<Vec<(u32, u32)>, Error>
    ensures { Gives (λ v. v.items) result (section_at bytes.now) }
{
    let (_, rest) = u32_at(bytes, PROPERTY_CUT)?;
    let (count, rest) = u32_at(rest, PROPERTY_CUT)?;
    pairs_at(alloc, count, rest)
}
