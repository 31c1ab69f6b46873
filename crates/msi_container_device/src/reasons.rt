//! Why reading and writing fail: a sentence for each rule.

use msi_base::Reason;

pub const FAULT: Reason = Reason("a call of the reader or the device failed");

pub const NOTHING_TAKEN: Reason = Reason("the device took no byte of what it was to write");
