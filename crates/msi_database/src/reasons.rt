//! Why a call is refused: a sentence for each rule.

use msi_base::errors::Reason;

pub(crate) const UNSOUND: Reason = Reason("the database isn't sound");

pub(crate) const OLD_UNSOUND: Reason = Reason("the old database isn't sound");

pub(crate) const NEW_UNSOUND: Reason = Reason("the new database isn't sound");

pub const NO_TABLE: Reason = Reason("there is no table of this name");

pub const UNREADABLE: Reason = Reason("a table has too many rows");

pub(crate) const BARRED: Reason = Reason("this change of a system table is barred");

pub(crate) const TABLE_NAME: Reason = Reason("no table may have this name");

pub(crate) const TABLE_EXISTS: Reason = Reason("there is a table of this name already");

pub(crate) const NO_VALIDATION: Reason = Reason(
    "a table is created, and a column added, only where _Validation is a table",
);

pub(crate) const ODD_TABLE: Reason = Reason(
    "a table has too many rows, or a name that no table may have",
);

pub(crate) const ODD_VALIDATION: Reason = Reason("_Validation has other columns than it must");

pub(crate) const PAST_POOL: Reason = Reason("a cell refers past the end of the string pool");

pub(crate) const PAST_REFERENCES: Reason = Reason(
    "the string pool has more texts than references of two bytes can name",
);

pub(crate) const PAST_COUNTS: Reason = Reason("more than 65535 cells refer to one text");
