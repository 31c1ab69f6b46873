//! Control characters, and the characters that stand for them in a text archive.

ghost use Rattle.std.specs.Prelude.{◌≡◌, ◌++◌, ◌||◌, IfOk, OnOk, length, map, string_bytes, take};
ghost use Rattle.std.specs.List.{list_any};
ghost use Rattle.msi_exchange.specs.Characters.{is_control as is_control_of, is_stand_in as is_stand_in_of};
ghost use Rattle.msi_exchange.specs.Characters.{swapped as swapped_of};

use std::alloc::{AllocError, Global};

/// No byte from this one on changes places. Most bytes of texts are such, so this is asked first: it takes less time.
const PLAIN: u8 = 28;

/// Whether a byte is a control character that has to be replaced.
fn is_control(byte: u8) -> bool
    ensures { result ≡ is_control_of byte }
{
    matches!(byte, 0 | 8 | 9 | 10 | 12 | 13)
}

/// Whether a byte is a character that replaces a control character.
fn is_stand_in(byte: u8) -> bool
    ensures { result ≡ is_stand_in_of byte }
{
    byte < PLAIN && matches!(byte, 16 | 17 | 21 | 24 | 25 | 27)
}

pub(crate) fn has_control(text: &str) -> bool
    ensures { result ≡ list_any is_control_of text.now }
{
    text.as_bytes().iter().any(|byte| is_control(*byte))
}

pub(crate) fn has_stand_in(text: &str) -> bool
    ensures { result ≡ list_any is_stand_in_of text.now }
{
    text.as_bytes().iter().any(|byte| is_stand_in(*byte))
}

fn is_moved(byte: u8) -> bool
    ensures { result ≡ (is_control_of byte || is_stand_in_of byte) }
{
    byte < PLAIN && (is_control(byte) || is_stand_in(byte))
}

fn has_moved(text: &str) -> bool
    ensures { result ≡ list_any (λ c. is_control_of c || is_stand_in_of c) text.now }
{
    text.as_bytes().iter().any(|byte| is_moved(*byte))
}

fn swapped(character: char) -> char
    ensures { result ≡ swapped_of character }
{
    match character {
        '\0' => '\u{15}',
        '\u{15}' => '\0',
        '\u{8}' => '\u{1B}',
        '\u{1B}' => '\u{8}',
        '\t' => '\u{10}',
        '\u{10}' => '\t',
        '\n' => '\u{19}',
        '\u{19}' => '\n',
        '\u{C}' => '\u{18}',
        '\u{18}' => '\u{C}',
        '\r' => '\u{11}',
        '\u{11}' => '\r',
        _ => character,
    }
}

/// Appends a text in which control characters and those that replace them have changed places.
pub(crate) fn push_swapped(text: &mut String, plain: &str) -> Result<(), AllocError>
    ensures ok { OnOk result (string_bytes text.new ≡ string_bytes text.old ++ map swapped_of plain.now) }
    ensures begins { take (length (string_bytes text.old)) (string_bytes text.new) ≡ string_bytes text.old }
{
    if has_moved(plain) {
        push_each_swapped(text, plain)
    } else {
        text.push_str(plain)
    }
}

fn push_each_swapped(text: &mut String, plain: &str) -> Result<(), AllocError>
    ensures ok { OnOk result (string_bytes text.new ≡ string_bytes text.old ++ map swapped_of plain.now) }
    ensures begins { take (length (string_bytes text.old)) (string_bytes text.new) ≡ string_bytes text.old }
{
    for character in plain.chars() {
        text.push(swapped(character))?;
    }
    Ok(())
}

pub(crate) fn swapped_text(alloc: Global, plain: &str) -> Result<String, AllocError>
    ensures { IfOk result (λ swapped. string_bytes swapped ≡ map swapped_of plain.now) }
{
    let mut text = String::with_capacity(alloc, plain.len())?;
    push_swapped(&mut text, plain)?;
    Ok(text)
}
