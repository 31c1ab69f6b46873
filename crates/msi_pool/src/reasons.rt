//! Why pools, places and references are refused: a sentence for each rule.

use msi_base::errors::Reason;
pub use msi_pool_places::reasons::{PLACE_FREE, PLACE_UNKNOWN, POOL_CUT, POOL_FULL};

pub const POOL_PAGE: Reason = Reason("the code page of the string pool is not known");

pub const POOL_PLACES: Reason = Reason("the string pool has too many places");

pub const POOL_DATA: Reason = Reason("the data of the string pool ends before its last text");

pub const REFERENCE_CUT: Reason = Reason("a reference to the string pool is cut");

pub const REFERENCE_WIDE: Reason = Reason("a reference does not fit two bytes");

pub const TEXT_LONG: Reason = Reason("a text is too long to be written");
