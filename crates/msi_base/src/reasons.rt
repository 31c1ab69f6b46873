//! Why bytes and texts are refused: a sentence for each rule.

use crate::errors::Reason;

pub const MEMORY: Reason = Reason("memory was refused");

pub const DEVICE: Reason = Reason("a file, reader or writer failed");

pub const PAGE_BYTE: Reason = Reason("a byte stands for no character in the code page");

pub const PAGE_CHARACTER: Reason = Reason("a character has no byte in the code page");
