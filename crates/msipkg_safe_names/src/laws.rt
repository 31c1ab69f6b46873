//! Laws of the definitions themselves: each is the contract of a function that does nothing.

ghost use Rattle.msipkg_safe_names.specs.SafeNames.{FilesDiffer, SpellingsDiffer};

/// No two names have the same spelling, be it the safe or the full one.
pub fn spellings_differ()
    ensures { SpellingsDiffer }
{}

/// Streams of different names are given different files, one after the other, also where case is ignored.
pub fn files_differ()
    ensures { FilesDiffer }
{}
