//! Why a call is refused: a sentence for each rule.

use msi_base::errors::Reason;

pub(crate) const OUTSIDE: &str = "a seek before a stream's first byte, or past its end";

pub(crate) const STREAM_NAME: Reason = Reason("no stream may have this name");
