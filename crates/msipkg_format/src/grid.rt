//! Tables whose columns are aligned with spaces.

use crate::escape::{columns_of, is_plain};
use crate::style::Style;
use crate::widths::Widths;
use msipkg_system::Output;
use std::alloc::{AllocError, Global};
use std::fmt::Display;

/// Rows of texts under a head. Where memory is refused for one, that is kept, and the output gets it once the grid is
/// printed.
pub struct Grid {
    alloc: Global,
    /// How many texts a row has: at least one.
    width: usize,
    /// The texts, row by row, those of the head first.
    texts: String,
    /// Where each text ends.
    cells: Vec<Cell>,
    /// Whether memory was refused for a text.
    is_cut: bool,
}

/// A text of a grid.
#[derive(Clone, Copy)]
struct Cell {
    /// Where it ends.
    end: usize,
    /// How many columns of a terminal it takes.
    width: usize,
}

/// Written out, so that a function that owns one calls one drop, and its proof doesn't go through those of the parts.
impl Drop for Grid {
    fn drop(self) {
        let Grid {
            alloc: _,
            width: _,
            texts: _,
            cells: _,
            is_cut: _,
        } = self;
    }
}

impl Grid {
    /// Returns a grid whose rows have so many texts, or one. The first row that is put is its head.
    pub fn new(alloc: Global, width: usize) -> Grid {
        Grid {
            alloc,
            width: width.max(1),
            texts: String::new(alloc),
            cells: Vec::new(alloc),
            is_cut: false,
        }
    }

    /// Returns a grid with these texts as its head.
    pub fn headed(alloc: Global, names: &[&str]) -> Grid {
        let mut grid = Grid::new(alloc, names.len());
        for name in names {
            grid.push(name);
        }
        grid
    }

    /// Puts what a value prints as the next text of a row.
    pub fn put<D: Display>(&mut self, value: &D) {
        let done = write!(self.texts, "{value}");
        self.end_text(done);
    }

    /// Puts a text, as the style has it, as the next one of a row.
    pub fn put_text(&mut self, style: Style, text: &str) {
        if is_plain(style.escapes, text) {
            self.push(text);
        } else {
            self.put(&style.show(text));
        }
    }

    /// Puts the next text of a row.
    pub fn push(&mut self, text: &str) {
        let done = self.texts.push_str(text);
        self.end_text(done);
    }

    /// Notes that the next text of a row ends at the current end of the texts.
    fn end_text(&mut self, done: Result<(), AllocError>) {
        let start = end_of(self.cells.as_slice());
        let end = self.texts.len();
        let width = columns_of(self.text_of(start, end));
        if done.is_err() || self.cells.push(Cell { end, width }).is_err() {
            self.is_cut = true;
        }
    }

    /// Writes the grid as the style has it: aligned on a terminal, and else a line for each row, its texts parted by
    /// tabs, without the head. Where memory was refused, the output gets that in its place.
    pub fn print(&self, style: Style, output: &mut Output) {
        if style.is_terminal {
            self.write(output);
        } else if self.is_cut {
            output.refuse_memory(AllocError);
        } else {
            self.write_parted(output);
        }
    }

    /// Writes the head, a line of dashes and the rows. The last column isn't filled up. Where memory was refused, the
    /// output gets that in their place.
    fn write(&self, output: &mut Output) {
        match self.widths() {
            Ok(widths) => self.write_aligned(&widths, output),
            Err(error) => output.refuse_memory(error),
        }
    }

    fn widths(&self) -> Result<Widths, AllocError> {
        if self.is_cut {
            return Err(AllocError);
        }
        let mut widths = Widths::new(self.alloc, self.width)?;
        for row in self.cells.as_slice().chunks(self.width.max(1)) {
            widen(&mut widths, row);
        }
        Ok(widths)
    }

    fn text_of(&self, start: usize, end: usize) -> &str {
        self.texts.as_str().get(start..end).unwrap_or("")
    }

    fn write_aligned(&self, widths: &Widths, output: &mut Output) {
        let mut start = 0;
        for (number, row) in self.cells.as_slice().chunks(self.width.max(1)).enumerate() {
            self.write_row(start, row, widths, output);
            if number == 0 {
                widths.write_dashes(output);
            }
            start = end_of(row);
        }
    }

    fn write_row(&self, start: usize, row: &[Cell], widths: &Widths, output: &mut Output) {
        let mut start = start;
        for (column, cell) in row.iter().enumerate() {
            output.push_str(self.text_of(start, cell.end));
            start = cell.end;
            widths.fill_up(column, cell.width, output);
        }
        output.push_str("\n");
    }

    /// Writes the rows without the head, their texts separated by tabs.
    fn write_parted(&self, output: &mut Output) {
        let mut start = 0;
        for (number, row) in self.cells.as_slice().chunks(self.width.max(1)).enumerate() {
            if number > 0 {
                self.write_parted_row(start, row, output);
            }
            start = end_of(row);
        }
    }

    fn write_parted_row(&self, start: usize, row: &[Cell], output: &mut Output) {
        let (mut start, mut before) = (start, "");
        for cell in row {
            output.push_str(before);
            output.push_str(self.text_of(start, cell.end));
            start = cell.end;
            before = "\t";
        }
        output.push_str("\n");
    }
}

fn end_of(cells: &[Cell]) -> usize {
    match cells.last() {
        Some(cell) => cell.end,
        None => 0,
    }
}

fn widen(widths: &mut Widths, row: &[Cell]) {
    for (column, cell) in row.iter().enumerate() {
        widths.widen(column, cell.width);
    }
}
