//! Why a transform isn't applied to a package: a sentence for each rule.

use msi_base::errors::Reason;

pub(crate) const NO_TABLE: Reason = Reason(
    "the transform changes rows of a table that isn't there",
);

pub(crate) const TABLE_BROKEN: Reason = Reason(
    "the table has no key, or one of streams, or two rows with one key",
);

pub(crate) const STREAMS_DISAGREE: Reason = Reason(
    "two rows whose streams have one name would have other bytes",
);

pub(crate) const TEXT_NOT_IN_PAGE: Reason = Reason(
    "a text can't be written in the code page of the result",
);

pub(crate) const ODD_TABLE_NAME: Reason = Reason("the table has a name that none may have");
