//! Why texts and archives are refused: a sentence for each rule.

use msi_base::errors::Reason;

pub(crate) const LINES_FEW: Reason = Reason(
    "the names of the columns, their types and the name of the table were expected",
);

pub(crate) const TYPES_OTHER: Reason = Reason("a type for each column was expected");

pub(crate) const TEXT_FIELD: Reason = Reason(
    "a text was expected that isn't empty and has no control character that has to be replaced",
);

pub(crate) const TYPE_FIELD: Reason = Reason(
    "a type was expected: s or l with a width, i2, i4 or v0, in upper case where null is taken",
);

pub(crate) const TABLE_MISSING: Reason = Reason("a table's name was expected");

pub(crate) const NUMBER_FIELD: Reason = Reason("a number of 32 bits was expected");

pub(crate) const ROW_OTHER: Reason = Reason("a field for each column was expected");

pub(crate) const TEXT_UNWRITABLE: Reason = Reason(
    "no field stands for an empty text, or for one with a character 16, 17, 21, 24, 25 or 27",
);

pub(crate) const TYPE_UNWRITABLE: Reason = Reason(
    "no type has a width of 65536 or more, or is localizable but of texts",
);

pub(crate) const TABLE_UNWRITABLE: Reason = Reason(
    "no field stands for a table's name that is empty, has a character 16, 17, 21, 24, 25 or 27, or is read as a page",
);

pub(crate) const VALUES_OTHER: Reason = Reason("a row needs a value for each column, and a column");

pub(crate) const VALUE_UNWRITABLE: Reason = Reason(
    "no field stands for a value of another type, or for a text with none",
);
