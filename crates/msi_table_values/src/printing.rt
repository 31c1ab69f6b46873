//! How values print.

ghost use Rattle.std.specs.Prelude.{◌≡◌, ◌-◌, ◌<◌, ◌≤◌, take};
ghost use Rattle.std.specs.Fmt.{DisplaysOnOk, HasWrittenStyled, IsFlush, WritesStyledOnOk, char_count, debug_str};
ghost use Rattle.std.specs.Fmt.{fill_text, formatter_spec, is_char_start, padding_before, take_chars};
ghost use Rattle.msi_table_values.specs.Values.{value_text};

use crate::value::Value;
use std::fmt::{self, Alignment, Debug, Display, Write};

/// Writes `NULL`, a number in decimal, a text in its debug form, or `BINARY_STREAM`: each with width, fill and
/// alignment.
impl fmt::Display for Value {
    ghost output = { value_text };

    fn fmt<W: fmt::Write>(&self, f: &mut fmt::Formatter<W>) -> fmt::Result {
        match self {
            Value::Null => f.pad("NULL"),
            Value::Int(number) => Display::fmt(number, f),
            Value::Str(text) => write_debug_form(text.as_str(), f),
            Value::Binary => f.pad("BINARY_STREAM"),
        }
    }
}

/// Writes the debug form of a text as `Formatter::pad` would, if it were in memory: its characters are counted first.
fn write_debug_form<W: fmt::Write>(text: &str, f: &mut fmt::Formatter<W>) -> fmt::Result
    ensures { DisplaysOnOk W.write_str_gives f.old result (debug_str text.now) f.new }
{
    if f.width().is_none() && f.precision().is_none() {
        return Debug::fmt(&text, f);
    }
    let padding = padding_of(text, f)?;
    let before = padding_in_front(f, padding);
    write_fill(f, before)?;
    write_cut(text, f)?;
    write_fill(f, padding - before)
}

/// Returns how many characters the debug form of a text, cut to the precision, falls short of the width.
fn padding_of<W: fmt::Write>(text: &str, f: &fmt::Formatter<W>) -> Result<usize, fmt::Error> {
    let width = f.width().unwrap_or(0);
    let most = f.precision().unwrap_or(usize::MAX);
    let mut counted = Counted { short: width };
    write!(counted, "{text:?}")?;
    Ok(counted.short.max(width.saturating_sub(most)))
}

fn padding_in_front<W: fmt::Write>(f: &fmt::Formatter<W>, padding: usize) -> usize
    ensures side { (formatter_spec f.now).align < 4 → result ≡ padding_before (formatter_spec f.now) padding 1 }
    ensures most { result ≤ padding }
{
    match f.align() {
        Some(Alignment::Right) => padding,
        Some(Alignment::Center) => padding / 2,
        _ => 0,
    }
}

fn write_fill<W: fmt::Write>(f: &mut fmt::Formatter<W>, count: usize) -> fmt::Result
    ensures { WritesStyledOnOk W.write_str_gives f.old result (fill_text (formatter_spec f.old) count) f.new }
{
    let fill = f.fill();
    let mut bytes = [0; 4];
    f.write_repeated(fill.encode_utf8(&mut bytes), count)
}

fn write_cut<W: fmt::Write>(text: &str, f: &mut fmt::Formatter<W>) -> fmt::Result {
    let most = f.precision().unwrap_or(usize::MAX);
    let mut cut = Cut { f, left: most };
    write!(cut, "{text:?}")
}

/// Counts what is written: how many characters are still wanted.
#[derive(Drop)]
struct Counted {
    short: usize,
}

impl fmt::Write for Counted {
    ghost write_str_gives = { λ old text new. new.short ≡ old.short - char_count text };

    fn write_str(&mut self, text: &str) -> fmt::Result {
        self.short = short_of(text.as_bytes(), self.short);
        Ok(())
    }
}

/// Writes on what is written, but no more than so many characters.
#[derive(Drop)]
struct Cut<'a, W> {
    f: &'a mut fmt::Formatter<W>,
    left: usize,
}

impl<W: fmt::Write> fmt::Write for Cut<'_, W> {
    ghost write_str_gives = { λ old text new. (new.f.ghost_name ≡ old.f.ghost_name)
        × (new.left ≡ old.left - char_count text)
        × (IsFlush old.f.now → HasWrittenStyled W.write_str_gives old.f.now (take_chars old.left text) new.f.now) };

    fn write_str(&mut self, text: &str) -> fmt::Result {
        let Some(shown) = text.get(..end_of(text.as_bytes(), self.left)) else {
            return Err(fmt::Error);
        };
        self.f.write_str(shown)?;
        self.left = short_of(text.as_bytes(), self.left);
        Ok(())
    }
}

fn short_of(text: &[u8], count: usize) -> usize
    ensures { result ≡ count - char_count text.now }
{
    let mut short = count;
    for byte in text {
        if is_first(*byte) {
            short = short.saturating_sub(1);
        }
    }
    short
}

/// Returns where the first `count` characters of a text end, in bytes.
fn end_of(text: &[u8], count: usize) -> usize
    ensures { take result text.now ≡ take_chars count text.now }
{
    let mut left = count;
    for (at, byte) in text.iter().enumerate() {
        if is_first(*byte) {
            if left == 0 {
                return at;
            }
            left -= 1;
        }
    }
    text.len()
}

fn is_first(byte: u8) -> bool
    ensures { result ≡ is_char_start byte }
{
    byte < 0x80 || byte >= 0xC0
}
