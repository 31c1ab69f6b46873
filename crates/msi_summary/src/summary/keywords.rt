//! The keywords (Keywords of the Windows Installer SDK, property 5): one text, in which a semicolon and a space
//! separate them.

ghost use Rattle.std.specs.Prelude.{◌≡◌, [], IfOk, OnOk, OnErr, codes, map, string_bytes};
ghost use Rattle.std.specs.List.{join_by};
ghost use Rattle.std.specs.Str.{trim_end};
ghost use Rattle.msi_base.specs.Results.{OnlyMemory};
ghost use Rattle.msi_summary.specs.Summary.{keyword_pieces, keywords_in, keywords_of, with_keywords};

use crate::property::KEYWORDS;
use crate::summary::SummaryInfo;
use msi_base::errors::Error;
use std::alloc::Global;

/// Cuts a text at each `; ` and trims white space at the right ends of the pieces.
fn trimmed_pieces(alloc: Global, text: &str) -> Result<Vec<String>, Error>
    ensures ok { IfOk result (λ words. map string_bytes words.items ≡ map trim_end (keyword_pieces text.now)) }
    ensures kind { OnlyMemory result }
{
    let mut words = Vec::new(alloc);
    for piece in text.split("; ") {
        words.push(String::from_str(alloc, piece.trim_end())?)?;
    }
    Ok(words)
}

fn keywords_in(alloc: Global, text: &str) -> Result<Vec<String>, Error>
    ensures ok { IfOk result (λ words. map string_bytes words.items ≡ keywords_in text.now) }
    ensures kind { OnlyMemory result }
{
    if text.is_empty() {
        return Ok(Vec::new(alloc));
    }
    trimmed_pieces(alloc, text)
}

fn joined(alloc: Global, words: &[String]) -> Result<String, Error>
    ensures ok { IfOk result (λ text. string_bytes text ≡ join_by string_bytes (codes "; ") words.now) }
    ensures kind { OnlyMemory result }
{
    let Some((first, others)) = words.split_first() else {
        return Ok(String::new(alloc));
    };
    let mut text = String::from_str(alloc, first.as_str())?;
    for word in others {
        text.push_str("; ")?;
        text.push_str(word.as_str())?;
    }
    Ok(text)
}

impl SummaryInfo {
    /// Returns the keywords (property 5), in order: the pieces of their text between each two `; `, without the white
    /// space at their right ends. Between two `; ` in a row there is an empty one. There is none if the property is
    /// missing, of another type or the empty text.
    ///
    /// # Errors
    /// Fails with `OutOfMemory` if the keywords can't be copied.
    pub fn keywords(&self) -> Result<Vec<String>, Error>
        ensures ok { IfOk result (λ words. map string_bytes words.items ≡ keywords_of self.now) }
        ensures kind { OnlyMemory result }
    {
        keywords_in(self.allocator(), self.text(KEYWORDS).unwrap_or(""))
    }

    /// Sets the keywords (property 5): their text is the keywords with `; ` between each two. A keyword that holds `;
    /// ` reads back as several, a lone empty one as none, and white space at a right end doesn't come back. If it
    /// fails, the summary is as before.
    ///
    /// # Errors
    /// Fails with `OutOfMemory` if the text can't be made or stored.
    pub fn set_keywords(&mut self, keywords: &[String]) -> Result<(), Error>
        ensures ok { OnOk result (self.new ≡ with_keywords (map string_bytes keywords.now) self.old) }
        ensures kind { OnlyMemory result }
        ensures err { OnErr result (self.new ≡ self.old) }
    {
        let text = joined(self.allocator(), keywords)?;
        self.set_text(KEYWORDS, text)
    }

    /// Sets the keywords (property 5) to the empty text, which reads as no keyword. If it fails, the summary is as
    /// before.
    ///
    /// # Errors
    /// Fails with `OutOfMemory` if the property can't be stored.
    pub fn clear_keywords(&mut self) -> Result<(), Error>
        ensures ok { OnOk result (self.new ≡ with_keywords [] self.old) }
        ensures kind { OnlyMemory result }
        ensures err { OnErr result (self.new ≡ self.old) }
    {
        self.set_keywords(&[])
    }
}
