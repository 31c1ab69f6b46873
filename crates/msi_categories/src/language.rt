//! Languages, by their ids and tags.

ghost use Rattle.std.specs.Prelude.{◌≡◌, Some, bytes_eq, false, find, option_map, true};
ghost use Rattle.std.specs.Fmt.{WritesOnOk, decimal, digits, styled_decimal};
ghost use Rattle.msi_categories.specs.LanguageRows.{rows_told};
ghost use Rattle.msi_categories.specs.Languages.{id_of_lcid, id_of_tag, language_id, primary_language};
ghost use Rattle.msi_categories.specs.Languages.{sub_language, tag_of};

mod rows;

use rows::{rows_of_sub_language, tables};
use std::fmt;
use std::marker::Model;

/// A language: an id of 16 bits, the low 10 of a primary language and the other 6 of a sub-language, mostly a
/// region's (MS-LCID 2.2). Each id is one, also where no row knows it. A contract sees the id.
#[derive(Clone, Copy, PartialEq, Eq, Hash, Debug, Drop)]
pub struct LanguageId {
    id: u16,
}

impl Model for LanguageId {
    ghost use Rattle.std.specs.Prelude.{ℕ};

    ghost Value = { ℕ };

    ghost view = { λ t. t.id };

    ghost inverse = { λ n. record { id = n } };
}

impl LanguageId {
    /// Returns the language of a primary language and a sub-language. Numbers of more than 10 and 6 bits are taken
    /// too: `primary` is or'ed with the low 16 bits of `sub` * 1024.
    pub fn new(primary: u16, sub: u16) -> LanguageId
        ensures { result ≡ language_id primary sub }
    {
        LanguageId {
            id: primary | (sub << 10),
        }
    }

    /// Returns the language of an id.
    pub fn from_id(id: u16) -> LanguageId
        ensures { result ≡ id }
    {
        LanguageId { id }
    }

    /// Returns the language of a locale's id: its low 16 bits. The others, of a sort order, are dropped.
    pub fn from_lcid(lcid: u32) -> LanguageId
        ensures { result ≡ id_of_lcid lcid }
    {
        LanguageId {
            id: (lcid & 0xFFFF) as u16,
        }
    }

    /// Returns the language of a tag, as `en-US` (BCP 47), by the first row with that very tag: letters' case counts.
    /// If no row has it, the id is 0.
    pub fn from_tag(tag: &str) -> LanguageId
        ensures { result ≡ id_of_tag tag.now }
    {
        for rows in &tables() {
            if let Some(id) = id_in(rows, tag) {
                return LanguageId { id };
            }
        }
        LanguageId::default()
    }

    /// Returns the id.
    pub fn id(self) -> u16
        ensures { result ≡ self }
    {
        self.id
    }

    /// Returns the primary language: the low 10 bits of the id.
    pub fn primary_language_id(self) -> u16
        ensures { result ≡ primary_language self }
    {
        self.id & 0x3FF
    }

    /// Returns the sub-language: the high 6 bits of the id.
    pub fn sub_language_id(self) -> u8
        ensures { result ≡ sub_language self }
    {
        (self.id >> 10) as u8
    }

    /// Returns the tag in the row of the id. Where it has none, the tag is `und`, for an undetermined language (BCP
    /// 47).
    pub fn tag(self) -> &'static str
        ensures { result.now ≡ tag_of self }
    {
        let rows = rows_of_sub_language(self.sub_language_id());
        match rows.binary_search_by_key(&self.id, |row| row.0) {
            Ok(place) => rows[place].1,
            Err(_) => "und",
        }
    }
}

fn id_in(rows: &[(u16, &str)], tag: &str) -> Option<u16>
    ensures { result ≡ option_map (λ row. row.0) (find (λ row. bytes_eq row.1 tag.now) (rows_told rows.now)) }
{
    for row in rows {
        if row.1 == tag {
            return Some(row.0);
        }
    }
    None
}

/// The language whose id is 0.
impl Default for LanguageId {
    ghost is_default = { λ id. id ≡ 0 };

    fn default() -> LanguageId {
        LanguageId { id: 0 }
    }
}

/// Writes the id in decimal.
impl fmt::Display for LanguageId {
    ghost output = { λ id. Some (decimal id) };

    ghost styled_output = { λ id spec. Some (styled_decimal spec id) };

    fn fmt<W: fmt::Write>(&self, f: &mut fmt::Formatter<W>) -> fmt::Result {
        fmt::Display::fmt(&self.id, f)
    }
}

/// Writes the id in hexadecimal, with small letters.
impl fmt::LowerHex for LanguageId {
    fn fmt<W: fmt::Write>(&self, f: &mut fmt::Formatter<W>) -> fmt::Result
        ensures { WritesOnOk W.write_str_gives f.old result (digits 16 false self.now) f.new }
    {
        fmt::LowerHex::fmt(&self.id, f)
    }
}

/// Writes the id in hexadecimal, with capital letters.
impl fmt::UpperHex for LanguageId {
    fn fmt<W: fmt::Write>(&self, f: &mut fmt::Formatter<W>) -> fmt::Result
        ensures { WritesOnOk W.write_str_gives f.old result (digits 16 true self.now) f.new }
    {
        fmt::UpperHex::fmt(&self.id, f)
    }
}

/// What `{:x}` and `{:X}` write in a format string: the id's digits.
impl fmt::HasDigits for LanguageId {
    ghost word = { λ id. Some id };

    fn bits(self) -> (u64, u64) {
        (0, self.id as u64)
    }
}

/// The language of an id.
impl From<u16> for LanguageId {
    ghost from_gives = { λ id language. language ≡ id };

    fn from(id: u16) -> LanguageId {
        LanguageId { id }
    }
}

/// A language's id.
impl From<LanguageId> for u16 {
    ghost from_gives = { λ language id. id ≡ language };

    fn from(language: LanguageId) -> u16 {
        language.id
    }
}
