//! Why summaries are refused: a sentence for each rule.

use msi_base::errors::Reason;

pub(crate) const SUMMARY_FORMAT: Reason = Reason("the property set is not a summary");
