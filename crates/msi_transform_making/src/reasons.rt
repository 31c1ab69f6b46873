//! Why no transform is made of records: a sentence for each rule.

use msi_base::errors::Reason;

pub(crate) const ADDED_CELLS_MANY: Reason = Reason(
    "a row of more than 255 columns would have to be added",
);
