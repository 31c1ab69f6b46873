//! The packing of names: from their front, one packed character after the other.

ghost use Rattle.std.specs.Prelude.{◌≡◌, ◌∷◌, ◌<◌, [], IfSome, MatchOption, chars, is_some, length, nat_le};
ghost use Rattle.msi_container_format.specs.Names.{named, utf16_units};
ghost use Rattle.msi_container_format.specs.StreamNames.{encoded_name, encoded_units, packed, packed_pair};
ghost use Rattle.msi_container_format.specs.StreamNames.{packed_single, value_of};

use crate::name::Name;
use crate::units::Units;

/// In front of an encoded name: the stream holds a table.
pub(crate) const TABLE_MARK: char = '\u{4840}';

/// Returns the name of the entry of a stream, or of a table's stream: its packed name, if that isn't too long for one.
/// It takes no memory.
pub fn packed_name(name: &str, is_table: bool) -> Option<Name>
    ensures { result ≡ named (utf16_units (encoded_name is_table (chars name.now))) }
{
    let units = packed_units(name, is_table)?;
    Name::from_units(units.as_slice())
}

/// Returns `None` where the name has more UTF-16 units than an entry's name may have.
pub(crate) fn packed_units(name: &str, is_table: bool) -> Option<Units>
    ensures units { IfSome result (λ units. units ≡ utf16_units (encoded_name is_table (chars name.now))) }
    ensures few { is_some result ≡ nat_le (encoded_units is_table (chars name.now)) 31 }
{
    let mut units = Units::new();
    if is_table {
        units.push(TABLE_MARK)?;
    }
    let mut rest = name;
    while let Some((c, left)) = next_packed(rest) {
        units.push(c)?;
        rest = left;
    }
    Some(units)
}

/// Returns the first character of a packed name, and the text from which the other characters are packed.
pub(crate) fn next_packed(name: &str) -> Option<(char, &str)>
    ensures { MatchOption result (packed (chars name.now) ≡ [])
        (λ (c, rest). (packed (chars name.now) ≡ c ∷ packed (chars rest.now)) × (length rest.now < length name.now)) }
{
    let Some((first, rest)) = split_first(name) else {
        return None;
    };
    let Some(value) = value_of(first) else {
        return Some((first, rest));
    };
    let Some((second, behind)) = split_first(rest) else {
        return Some((packed_single(value), rest));
    };
    match value_of(second) {
        Some(partner) => Some((packed_pair(value, partner), behind)),
        None => Some((packed_single(value), rest)),
    }
}

fn split_first(text: &str) -> Option<(char, &str)>
    ensures { MatchOption result (chars text.now ≡ [])
        (λ (c, rest). (chars text.now ≡ c ∷ chars rest.now) × (length rest.now < length text.now)) }
{
    let mut chars = text.chars();
    match chars.next() {
        Some(c) => Some((c, chars.as_str())),
        None => None,
    }
}

fn value_of(c: char) -> Option<u32>
    ensures value { result ≡ value_of c }
    ensures below { IfSome result (λ value. value < 64) }
{
    match c {
        '0'..='9' => Some(c as u32 - '0' as u32),
        'A'..='Z' => Some(c as u32 - 'A' as u32 + 10),
        'a'..='z' => Some(c as u32 - 'a' as u32 + 36),
        '.' => Some(62),
        '_' => Some(63),
        _ => None,
    }
}

fn packed_pair(first: u32, second: u32) -> char
    requires first_below { first < 64 }
    requires second_below { second < 64 }
    ensures { result ≡ packed_pair first second }
{
    char::from_u32(0x3800 + 64 * second + first).unwrap()
}

fn packed_single(value: u32) -> char
    requires { value < 64 }
    ensures { result ≡ packed_single value }
{
    char::from_u32(0x4800 + value).unwrap()
}
