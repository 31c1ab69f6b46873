//! The pages that a package names for its texts.

use msi::compound::{Name, StreamMap};
use msi::{Error, SummaryProperty, streamname};
use msi_recode::TextPage;
use msipkg_format::Pages;
use std::alloc::Global;
use std::str;

/// Where the summary says where its section begins.
const SECTION: usize = 44;

/// Where a section lists its properties.
const LIST: usize = 8;

/// The pages that a package names: for its database, and for its summary. There is none where nothing names one.
#[derive(Clone, Copy, Debug)]
pub(crate) struct NamedPages {
    database: Option<i32>,
    summary: Option<i32>,
}

impl NamedPages {
    pub(crate) fn of(alloc: Global, streams: &StreamMap) -> Result<NamedPages, Error> {
        let pool = streamname::encode(alloc, "_StringPool", true)?;
        let pool = bytes_at(streams, pool.as_str())?;
        let summary = bytes_at(streams, streamname::SUMMARY_INFO_STREAM_NAME)?;
        Ok(NamedPages {
            database: pool_page(pool.unwrap_or(&[])),
            summary: summary_page(summary.unwrap_or(&[])),
        })
    }

    pub(crate) fn database(self) -> Option<i32> {
        self.database
    }

    /// Returns the pages that texts are recoded from: those that packages aren't read in, and `given` for page 0.
    pub(crate) fn recoded_from(self, given: Option<i32>) -> Pages {
        Pages {
            database: recoded_from(self.database, given),
            summary: recoded_from(self.summary, given),
        }
    }
}

pub(crate) fn database_page(alloc: Global, streams: &StreamMap) -> Result<Option<i32>, Error> {
    Ok(NamedPages::of(alloc, streams)?.database)
}

pub(crate) fn has_utf8_texts(alloc: Global, streams: &StreamMap) -> Result<bool, Error> {
    let name = streamname::encode(alloc, "_StringData", true)?;
    let texts = bytes_at(streams, name.as_str())?.unwrap_or(&[]);
    Ok(str::from_utf8(texts).is_ok())
}

fn recoded_from(named: Option<i32>, given: Option<i32>) -> Option<i32> {
    match named? {
        0 => given,
        page if is_tabled(page) => Some(page),
        _ => None,
    }
}

/// Returns whether packages aren't read in a page, except for ASCII, and it has a table to recode from.
fn is_tabled(page: i32) -> bool {
    matches!(TextPage::of(page), Some(TextPage::Tabled(_)))
}

fn bytes_at<'a>(streams: &'a StreamMap, name: &str) -> Result<Option<&'a [u8]>, Error> {
    match streams.get(&Name::new(name)?) {
        Some(bytes) => Ok(Some(bytes.as_slice())),
        None => Ok(None),
    }
}

/// Returns the page that the stream of the pool names in its first 31 bits.
pub fn pool_page(bytes: &[u8]) -> Option<i32> {
    i32::try_from(u32_at(bytes, 0)? & 0x7FFF_FFFF).ok()
}

/// Returns the page that the summary names: the 16 bits behind the type of its property 1.
fn summary_page(bytes: &[u8]) -> Option<i32> {
    let section = rest_at(bytes, u32_at(bytes, SECTION)?)?;
    let value = rest_at(section, place_of_page(section)?)?;
    i32::try_from(u32_at(value, 4)? & 0xFFFF).ok()
}

/// Returns the place of the property that names the page in a section, which begins with its length and the number of
/// its properties, and has a pair of numbers for each: its id and its place.
fn place_of_page(section: &[u8]) -> Option<u32> {
    let count = usize::try_from(u32_at(section, 4)?).ok()?;
    for pair in section.get(LIST..)?.chunks(8).take(count) {
        if u32_at(pair, 0)? == SummaryProperty::Codepage.id() {
            return u32_at(pair, 4);
        }
    }
    None
}

fn rest_at(bytes: &[u8], place: u32) -> Option<&[u8]> {
    bytes.get(usize::try_from(place).ok()?..)
}

fn u32_at(bytes: &[u8], place: usize) -> Option<u32> {
    let front = bytes.get(place..)?.first_chunk::<4>()?;
    Some(u32::from_le_bytes(*front))
}
