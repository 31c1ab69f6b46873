//! Why a transform doesn't change tables and their columns: a sentence for each rule.

use msi_base::errors::Reason;

pub(crate) const NO_TABLE_NAME: Reason = Reason(
    "the transform lists a table under a name that none may have",
);

pub(crate) const LISTING_CHANGED: Reason = Reason("the transform changes a row of _Tables");

pub(crate) const TABLE_MISSING: Reason = Reason("the transform drops a table that isn't there");

pub(crate) const TABLE_THERE: Reason = Reason("the transform adds a table that is there");

pub(crate) const UNLISTED_ROWS: Reason = Reason(
    "the transform adds _Validation, whose stream has rows already",
);

pub(crate) const COLUMN_CHANGED: Reason = Reason("the transform changes a column");

pub(crate) const COLUMN_REMOVED: Reason = Reason(
    "the transform removes a column of a table that it doesn't drop",
);

pub(crate) const COLUMN_OF_NO_TABLE: Reason = Reason(
    "the transform adds a column to a table that isn't there",
);

pub(crate) const COLUMN_UNTOLD: Reason = Reason(
    "the transform adds a column without a name, or without a type",
);

pub(crate) const COLUMN_OTHER: Reason = Reason(
    "the transform adds a column whose number another one has",
);

pub(crate) const COLUMN_THERE: Reason = Reason("the transform adds a column that is there");

pub(crate) const COLUMN_NUMBER: Reason = Reason(
    "the transform adds a column whose number isn't the next one",
);

pub(crate) const COLUMN_NAME: Reason = Reason(
    "the transform adds a column whose name another one has",
);

pub(crate) const COLUMN_KEY: Reason = Reason(
    "the transform adds a key column to a table that it doesn't add",
);

pub(crate) const COLUMNS_MANY: Reason = Reason("the transform adds a column past the 32nd");

pub(crate) const OTHER_PAGE: Reason = Reason(
    "the transform's code page isn't the package's, and neither is neutral",
);

pub(crate) const SYSTEM_KEYS: Reason = Reason(
    "two rows of a table that describes tables have one key",
);

pub(crate) const TABLE_INCOMPLETE: Reason = Reason(
    "the transform adds a table without columns, or without a key",
);
