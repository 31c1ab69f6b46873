//! The names of streams, packed two characters to one.
//!
//! A container's name has at most 31 UTF-16 units. So that longer names fit, each pair of digits, ASCII letters, `.`
//! and `_` is packed into one character of U+3800 to U+47FF, and a single one of them into one of U+4800 to U+483F.

ghost use Rattle.std.specs.Prelude.{◌≡◌, ◌++◌, ◌<◌, IfOk, OnOk, encode_utf8_all, IsErr, IsErrOf, IsTrue, chars, length};
ghost use Rattle.std.specs.Prelude.{string_bytes};
ghost use Rattle.std.specs.List.{flat_map, list_any};
ghost use Rattle.msi_base.specs.declared.errors.ErrorKind.TheVariants.{OutOfMemory};
ghost use Rattle.msi_container_format.specs.Names.{is_name_length, utf16_units};
ghost use Rattle.msi_container_format.specs.StreamNames.{character_with, decoded_name, encoded_name, is_forbidden};
ghost use Rattle.msi_container_format.specs.StreamNames.{is_marked, is_valid_name, unpacked};

use crate::packing::{TABLE_MARK, next_packed, packed_units};
use msi_base::Error;
use std::alloc::Global;

/// The stream of a package's digital signature. It isn't packed.
pub const DIGITAL_SIGNATURE_STREAM_NAME: &str = "\u{5}DigitalSignature";

/// The stream that extends a digital signature over a package's metadata. It isn't packed.
pub const MSI_DIGITAL_SIGNATURE_EX_STREAM_NAME: &str = "\u{5}MsiDigitalSignatureEx";

/// The stream of the summary information. It isn't packed.
pub const SUMMARY_INFO_STREAM_NAME: &str = "\u{5}SummaryInformation";

/// The stream of a document's summary information. It isn't packed.
pub const DOCUMENT_SUMMARY_INFO_STREAM_NAME: &str = "\u{5}DocumentSummaryInformation";

/// Returns the container's name of a stream, or of a table's stream, which has U+4840 in front.
///
/// From the left, two neighbours among the packed characters become one character, and so does a single one; all else
/// stays. It takes any text, also one that [`is_valid`] refuses.
///
/// # Errors
/// Fails with `OutOfMemory`.
pub fn encode(alloc: Global, name: &str, is_table: bool) -> Result<String, Error>
    ensures ok { IfOk result (λ encoded. chars (string_bytes encoded) ≡ encoded_name is_table (chars name.now)) }
    ensures memory { IsErr result → IsErrOf result OutOfMemory }
{
    let mut encoded = String::new(alloc);
    if is_table {
        encoded.push(TABLE_MARK)?;
    }
    let mut rest = name;
    while let Some((c, left)) = next_packed(rest) {
        encoded.push(c)?;
        rest = left;
    }
    Ok(encoded)
}

/// Returns the name that a container's name stands for, and whether the stream is that of a table.
///
/// It takes any text: U+4840 in front is taken off and stands for a table, each packed character gives the one or two
/// that it stands for, and all else stays.
///
/// # Errors
/// Fails with `OutOfMemory`.
pub fn decode(alloc: Global, name: &str) -> Result<(String, bool), Error>
    ensures ok { IfOk result (λ decoded. (chars (string_bytes decoded.0), decoded.1) ≡ decoded_name (chars name.now)) }
    ensures memory { IsErr result → IsErrOf result OutOfMemory }
{
    match name.strip_prefix(TABLE_MARK) {
        Some(rest) => Ok((unpack(alloc, rest)?, true)),
        None => Ok((unpack(alloc, name)?, false)),
    }
}

fn unpack(alloc: Global, name: &str) -> Result<String, Error>
    ensures ok { IfOk result (λ text. chars (string_bytes text) ≡ flat_map unpacked (chars name.now)) }
    ensures memory { IsErr result → IsErrOf result OutOfMemory }
{
    let mut text = String::new(alloc);
    for c in name.chars() {
        push_unpacked(&mut text, c)?;
    }
    Ok(text)
}

fn push_unpacked(text: &mut String, c: char) -> Result<(), Error>
    ensures ok { OnOk result (string_bytes text.new ≡ string_bytes text.old ++ encode_utf8_all (unpacked c)) }
    ensures memory { IsErr result → IsErrOf result OutOfMemory }
{
    let code = c as u32;
    match code {
        0x3800..=0x47FF => {
            text.push(character_with((code - 0x3800) % 64))?;
            text.push(character_with((code - 0x3800) / 64))?;
        }
        0x4800..=0x483F => text.push(character_with(code - 0x4800))?,
        _ => text.push(c)?,
    }
    Ok(())
}

/// Returns whether a stream may have this name. It takes no memory.
///
/// A name isn't empty, holds none of U+3800 to U+483F, `/`, `\`, `:`, `!` and U+0000, doesn't begin with U+4840, and
/// has at most 31 UTF-16 units once it is encoded.
pub fn is_valid(name: &str, is_table: bool) -> bool
    ensures value { result ≡ is_valid_name is_table (chars name.now) }
    ensures fits { IsTrue result
        → IsTrue (is_name_length (length (utf16_units (encoded_name is_table (chars name.now))))) }
{
    !name.is_empty()
        && !has_forbidden(name)
        && !is_marked(name)
        && packed_units(name, is_table).is_some()
}

fn is_marked(name: &str) -> bool
    ensures { result ≡ is_marked (chars name.now) }
{
    name.starts_with(TABLE_MARK)
}

fn has_forbidden(name: &str) -> bool
    ensures { result ≡ list_any is_forbidden (chars name.now) }
{
    name.chars().any(is_forbidden)
}

fn is_forbidden(c: char) -> bool
    ensures { result ≡ is_forbidden c }
{
    matches!(c, '/' | '\\' | ':' | '!' | '\0' | '\u{3800}'..='\u{483F}')
}

fn character_with(value: u32) -> char
    requires { value < 64 }
    ensures { result ≡ character_with value }
{
    let code = match value {
        0..=9 => '0' as u32 + value,
        10..=35 => 'A' as u32 + (value - 10),
        36..=61 => 'a' as u32 + (value - 36),
        62 => '.' as u32,
        _ => '_' as u32,
    };
    char::from_u32(code).unwrap()
}
