//! Why the records of a table aren't applied to its rows: a sentence for each rule.

use msi_base::errors::Reason;

pub(crate) const STREAM_MISSING: Reason = Reason(
    "the transform brings the stream of a row, and has no stream of its name",
);

pub(crate) const REMOVED_ROW_MISSING: Reason = Reason("a row that is to be removed isn't there");

pub(crate) const CHANGED_ROW_MISSING: Reason = Reason("a row that is to be changed isn't there");

pub(crate) const ADDED_ROW_EXISTS: Reason = Reason("a row that is to be added is there");

pub(crate) const TOO_MANY_ROWS: Reason = Reason("a table has at most 65536 rows");
