//! Why the records of a transform are refused: a sentence for each rule.

use msi_base::errors::Reason;

pub(crate) const RECORD_CUT: Reason = Reason("a record of the transform is cut");

pub(crate) const MASK_UNKNOWN: Reason = Reason(
    "the mask of a record is odd and its low byte isn't 1",
);

pub(crate) const COLUMNS_MANY: Reason = Reason(
    "a record has more cells than the table has columns",
);

pub(crate) const KEY_MISSING: Reason = Reason(
    "a record adds a row without a cell for each key column",
);

pub(crate) const BIT_UNKNOWN: Reason = Reason("a record changes a column past the table's last");

pub(crate) const TEXT_UNKNOWN: Reason = Reason(
    "a record refers to a text past the end of the transform's string pool",
);

pub(crate) const TEXT_FREE: Reason = Reason(
    "a record refers to a free place of the transform's string pool",
);

pub(crate) const STREAM_CELL: Reason = Reason(
    "a record has a cell of a stream that is neither 0 nor 1",
);
