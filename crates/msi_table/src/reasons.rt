//! Why the bytes of a table are refused: a sentence for each rule.

use msi_base::errors::Reason;

pub(crate) const ROWS_MANY: Reason = Reason("a table has too many rows");
