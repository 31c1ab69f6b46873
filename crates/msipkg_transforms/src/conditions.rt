//! The words for errors that may be ignored where a transform is applied.

use msi_transform::{ErrorConditions, Fault};
use msipkg_format::Failure;
use std::alloc::{AllocError, Global};

/// The refusal of another word.
const NO_WORD: &str = "no error has this name";

/// The errors that may be ignored, with the words for them.
static WORDS: [(Fault, &str); 6] = [
    (Fault::AddedRowExists, "add-row"),
    (Fault::RemovedRowMissing, "delete-row"),
    (Fault::AddedTableExists, "add-table"),
    (Fault::RemovedTableMissing, "delete-table"),
    (Fault::ChangedRowMissing, "change-row"),
    (Fault::OtherPage, "page"),
];

/// Returns the words for conditions, with commas between them.
///
/// # Errors
/// Fails if memory is refused.
pub fn words_of(alloc: Global, conditions: ErrorConditions) -> Result<String, AllocError> {
    let mut text = String::new(alloc);
    for (fault, word) in &WORDS {
        if conditions.passes(*fault) {
            if !text.is_empty() {
                text.push(',')?;
            }
            text.push_str(word)?;
        }
    }
    Ok(text)
}

/// Returns the conditions that words name: `add-row`, `delete-row`, `add-table`, `delete-table`, `change-row` and
/// `page`, or letters for these, `a` to `f`.
///
/// # Errors
/// Fails at a word that names no error.
pub fn conditions_of(words: &[&str]) -> Result<ErrorConditions, Failure> {
    let mut conditions = ErrorConditions::default();
    for word in words {
        match fault_of(word) {
            Some(fault) => conditions.pass(fault),
            None => return Err(Failure::rule(NO_WORD)),
        }
    }
    Ok(conditions)
}

fn fault_of(word: &str) -> Option<Fault> {
    match word {
        "a" | "add-row" => Some(Fault::AddedRowExists),
        "b" | "delete-row" => Some(Fault::RemovedRowMissing),
        "c" | "add-table" => Some(Fault::AddedTableExists),
        "d" | "delete-table" => Some(Fault::RemovedTableMissing),
        "e" | "change-row" => Some(Fault::ChangedRowMissing),
        "f" | "page" => Some(Fault::OtherPage),
        _ => None,
    }
}
