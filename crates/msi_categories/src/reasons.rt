//! Why names of categories and stored times are refused: a sentence for each rule.

use msi_base::errors::Reason;

pub const CATEGORY_NAME: Reason = Reason("the text names no category");

pub const MOMENT_CUT: Reason = Reason("a moment in time is cut");
