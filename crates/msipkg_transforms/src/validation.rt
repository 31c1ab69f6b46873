//! The words for what an installation validates before it applies a transform.

use msipkg_format::Failure;
use std::alloc::{AllocError, Global};

/// What is validated: its flag in the upper half of the summary's property 16, and the word for it.
struct Word {
    flag: u32,
    word: &'static str,
}

/// The first six name what the package has to share with the one that the transform was made from; the next five how
/// their versions compare.
static WORDS: [Word; 12] = [
    Word {
        flag: 0x1,
        word: "language",
    },
    Word {
        flag: 0x2,
        word: "product",
    },
    Word {
        flag: 0x4,
        word: "platform",
    },
    Word {
        flag: 0x8,
        word: "major",
    },
    Word {
        flag: 0x10,
        word: "minor",
    },
    Word {
        flag: 0x20,
        word: "update",
    },
    Word {
        flag: 0x40,
        word: "below",
    },
    Word {
        flag: 0x80,
        word: "at-most",
    },
    Word {
        flag: 0x100,
        word: "equal",
    },
    Word {
        flag: 0x200,
        word: "at-least",
    },
    Word {
        flag: 0x400,
        word: "above",
    },
    Word {
        flag: 0x800,
        word: "upgrade",
    },
];

/// Returns the words for flags, with commas between them.
///
/// # Errors
/// Fails if memory is refused.
pub fn validation_words(alloc: Global, flags: u32) -> Result<String, AllocError> {
    let mut text = String::new(alloc);
    for word in &WORDS {
        if flags & word.flag != 0 {
            if !text.is_empty() {
                text.push(',')?;
            }
            text.push_str(word.word)?;
        }
    }
    Ok(text)
}

/// Returns the sum of the flags that words name.
///
/// # Errors
/// Fails at a word that names no flag.
pub fn validation_of(words: &[&str]) -> Result<u32, Failure> {
    let mut flags = 0;
    for word in words {
        match flag_of(word) {
            Some(flag) => flags |= flag,
            None => return Err(Failure::rule("nothing that is validated has this name")),
        }
    }
    Ok(flags)
}

fn flag_of(name: &str) -> Option<u32> {
    for word in &WORDS {
        if word.word == name {
            return Some(word.flag);
        }
    }
    None
}
