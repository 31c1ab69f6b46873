//! Why a change is refused: a sentence for each rule.

use msi_base::errors::Reason;

pub(crate) const NEW_VALUE: Reason = Reason(
    "a column that is to be set isn't there, or doesn't take its new value",
);

pub(crate) const CONDITION_COLUMN: Reason = Reason("a condition names a column that isn't there");

pub(crate) const KEY_COLLIDES: Reason = Reason("two rows would share a key");

pub(crate) const UNKNOWN_COLUMN: Reason = Reason("an insert names a column that isn't there");

pub(crate) const NAMED_TWICE: Reason = Reason("an insert names a column twice");

pub(crate) const VALUE_COUNT: Reason = Reason(
    "a row has more or fewer values than the insert names columns",
);

pub(crate) const ROW_MISFITS: Reason = Reason("a new row does not fit the table's columns");

pub(crate) const TOO_MANY_ROWS: Reason = Reason("a table has at most 65536 rows");

pub(crate) const TABLE_NAME: Reason = Reason("no table may have this name");

pub(crate) const COLUMN_COUNT: Reason = Reason("a new table has 1 to 32 columns");

pub(crate) const NO_KEY: Reason = Reason("a new table has a key column");

pub(crate) const NO_NULL: Reason = Reason(
    "a column that is added to a table is no key and takes null, as none of streams does",
);

pub(crate) const COLUMN_NAMES: Reason = Reason(
    "the columns of a new table are named by identifiers, no two alike",
);

pub(crate) const COLUMN_LENGTH: Reason = Reason(
    "a new column limits its texts to at most 255 characters",
);

pub(crate) const BINARY_MARKED: Reason = Reason(
    "a new column of streams is neither a key nor localizable",
);

pub(crate) const SEMICOLON: Reason = Reason("a listed text of a new column has no semicolon");

pub(crate) const KEY_SHARED: Reason = Reason("two rows of the table share a key");

pub(crate) const KEY_HELD: Reason = Reason("the table has a row with this key already");

pub(crate) const KEY_TWICE: Reason = Reason("two of the new rows share a key");
