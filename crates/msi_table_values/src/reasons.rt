//! Why the bits of a column are refused: a sentence for each rule.

use msi_base::errors::Reason;

pub(crate) const TYPE_BITS: Reason = Reason("the bits name no type of a column");
