//! The values of rows as they are printed: null as nothing, and a stream as `[stream]`.

use crate::Style;
use itoa::Buffer;
use msi_table::ValueView;
use msipkg_system::Output;

/// What stands for a value of a stream: its bytes stand in a stream of the package.
pub(crate) const STREAM: &str = "[stream]";

/// Writes a value.
pub fn write_value(style: Style, value: ValueView<'_>, output: &mut Output) {
    match value {
        ValueView::Null => {}
        ValueView::Int(number) => write_number(number, output),
        ValueView::Str(text) => style.print(text, output),
        ValueView::Binary => output.push_str(STREAM),
    }
}

fn write_number(number: i32, output: &mut Output) {
    let mut buffer = Buffer::new();
    output.push_str(buffer.format(number));
}

/// Returns how many columns of a terminal a value takes.
pub fn value_width(style: Style, value: ValueView<'_>) -> usize {
    match value {
        ValueView::Null => 0,
        ValueView::Int(number) => number_width(number),
        ValueView::Str(text) => style.width(text),
        ValueView::Binary => STREAM.len(),
    }
}

fn number_width(number: i32) -> usize {
    let sign = usize::from(number < 0);
    match number.unsigned_abs().checked_ilog10() {
        Some(log) => 1 + sign + log as usize,
        None => 1,
    }
}
