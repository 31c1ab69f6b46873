//! Why no transform is made: a sentence for each rule.

use msi_base::errors::Reason;

pub(crate) const OLD_UNFIT: Reason = Reason(
    "the old package has a table without a key of its own for each row, or under a name that none may have",
);

pub(crate) const NEW_UNFIT: Reason = Reason(
    "the new package has a table without a key of its own for each row, or under a name that none may have",
);

pub(crate) const PAGE_LOST: Reason = Reason(
    "a transform can't make the code page of a package neutral",
);

pub(crate) const TEXT_NOT_IN_PAGE: Reason = Reason(
    "the new package has a text that can't be written in its code page",
);

pub(crate) const STREAM_SHARED: Reason = Reason(
    "the streams of two rows have one name, so a transform can't say whose it is",
);

pub(crate) const COLUMNS_DIFFER: Reason = Reason(
    "a table's columns don't begin with those that it had, or a key column is added to it",
);

pub(crate) const COLUMNS_ODD: Reason = Reason(
    "a table gets columns, and has more than 32 then, or two of one name, or one without a name",
);
