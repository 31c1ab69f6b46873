//! Why a text isn't taken, or a place isn't given back.

use msi_base::errors::Reason;

pub const POOL_FULL: Reason = Reason("the string pool is full");

pub const PLACE_UNKNOWN: Reason = Reason("a reference leads past the end of the string pool");

pub const PLACE_FREE: Reason = Reason(
    "a place of the string pool that nothing names is given back",
);

pub const POOL_CUT: Reason = Reason("the string pool ends in the middle of an entry");
