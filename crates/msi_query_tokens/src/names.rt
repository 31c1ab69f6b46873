//! How names of tables and columns print.

ghost use Rattle.std.specs.Prelude.{◌≡◌, Some};
ghost use Rattle.std.specs.Fmt.{DisplaysOnOk};
ghost use Rattle.msi_query_tokens.specs.Names.{doubled, is_plain_name, name_text};

use crate::lex::{kind_of_word, same_kind};
use crate::token::Kind;
use msi_categories::category::Category;
use std::fmt;

/// Whether a name is read as a name when it is written as it is.
fn is_plain_name(name: &str) -> bool
    ensures { result ≡ is_plain_name name.now }
{
    Category::Identifier.validate(name) && same_kind(kind_of_word(name.as_bytes()), Kind::Name)
}

/// Writes a text with each of its back quotes doubled.
fn write_doubled<W: fmt::Write>(f: &mut fmt::Formatter<W>, text: &str) -> fmt::Result
    ensures { DisplaysOnOk W.write_str_gives f.old result (Some (doubled text.now)) f.new }
{
    let mut rest = text;
    while let Some((front, behind)) = rest.split_once('`') {
        f.write_str(front)?;
        f.write_str("``")?;
        rest = behind;
    }
    f.write_str(rest)
}

/// Writes a name so that it is read back: as it is, or in back quotes if it is a key word or no Identifier.
pub fn write_name<W: fmt::Write>(f: &mut fmt::Formatter<W>, name: &str) -> fmt::Result
    ensures { DisplaysOnOk W.write_str_gives f.old result (Some (name_text name.now)) f.new }
{
    if is_plain_name(name) {
        return f.write_str(name);
    }
    f.write_str("`")?;
    write_doubled(f, name)?;
    f.write_str("`")
}
