//! Why the rows of the system tables are refused: a sentence for each rule.

use msi_base::errors::Reason;

pub(crate) const ODD_VALUE: Reason = Reason(
    "`_Tables` or `_Columns` has a value that its cells can't hold",
);

pub(crate) const FAULTY_ROWS: Reason = Reason(
    "the rows of the system tables break a rule: a missing value, a repeated key, an unlisted table",
);

pub(crate) const COLUMN_NUMBERS: Reason = Reason(
    "the columns of a listed table aren't numbered from 1 on",
);
