//! Why something is refused, for people to read.

use msi_base::Reason;

pub(crate) const NO_POOL: Reason = Reason("a stream of the string pool is missing");

pub(crate) const NO_SUMMARY: Reason = Reason("the summary information is missing");

pub(crate) const POOL_CUT: Reason = Reason("the string pool ends in the middle of an entry");

pub(crate) const POOL_DATA: Reason = Reason("the texts of the string pool end too early");

pub(crate) const POOL_PAGE: Reason = Reason("the code page of the string pool is unknown");

pub(crate) const POOL_PLACES: Reason = Reason("the string pool has too many texts");

pub(crate) const TEXT_LONG: Reason = Reason(
    "a text has too many bytes in UTF-8 for the string pool",
);

pub(crate) const PROPERTY_CUT: Reason = Reason("the summary ends in the middle of a property");

pub(crate) const PROPERTY_PAGE: Reason = Reason("the code page of the summary is unknown");

pub(crate) const PROPERTY_TWICE: Reason = Reason("the summary has a property twice");

pub(crate) const SUMMARY_LONG: Reason = Reason(
    "the summary's texts overlap, or it would have more than 2^31 bytes in UTF-8",
);
