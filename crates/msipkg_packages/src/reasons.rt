//! Why no bytes are written: a sentence for each rule.

use msi::Reason;

pub(crate) const LOST_TEXT: Reason = Reason("a text has a character that its code page hasn't");

pub(crate) const UNOPENED: &str =
    "the bytes to be written don't open as a package, so it stays as it was; \
please report this (--no-verify writes them)";
