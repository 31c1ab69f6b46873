//! What a change did, which is said once the file is written.

use msipkg_format::{JsonObject, Shown, Style};
use msipkg_import::Added;
use msipkg_packages::output::Output;
use std::alloc::{AllocError, Global};

/// What a statement did, and to how many rows.
#[derive(Clone, Copy, Debug)]
pub(crate) enum Carried {
    Inserted(usize),
    Changed(usize),
    Deleted(usize),
    Created,
    /// A column was added.
    Added,
    Dropped,
}

impl Carried {
    fn count(self) -> usize {
        match self {
            Carried::Inserted(count) | Carried::Changed(count) | Carried::Deleted(count) => count,
            Carried::Created | Carried::Added | Carried::Dropped => 0,
        }
    }

    fn word(self) -> &'static str {
        match self {
            Carried::Inserted(_) => "inserted",
            Carried::Changed(_) => "changed",
            Carried::Deleted(_) => "deleted",
            Carried::Created => "created",
            Carried::Added => "added",
            Carried::Dropped => "dropped",
        }
    }

    /// Writes what was done, as `1 row changed`.
    fn write(self, output: &mut Output) {
        let (count, word) = (self.count(), self.word());
        match self {
            Carried::Created | Carried::Dropped => writeln!(output, "table {word}"),
            Carried::Added => writeln!(output, "column {word}"),
            Carried::Inserted(_) | Carried::Changed(_) | Carried::Deleted(_) => {
                let rows = if count == 1 { "row" } else { "rows" };
                writeln!(output, "{count} {rows} {word}");
            }
        }
    }
}

/// What a change did.
pub(crate) struct Outcome {
    /// What adding `_Validation` did, if it was added.
    added: Option<Added>,
    /// Whether the package was made anew, for other rows of `_Validation`.
    is_anew: bool,
    /// How many reference counts were mended first.
    mended: u32,
    /// What each statement did.
    carried: Vec<Carried>,
}

/// Written out, so that a function that owns one calls one drop, and its proof doesn't go through those of the parts.
impl Drop for Outcome {
    fn drop(self) {
        let Outcome {
            added: _,
            is_anew: _,
            mended: _,
            carried: _,
        } = self;
    }
}

impl Outcome {
    pub(crate) fn new(alloc: Global) -> Outcome {
        Outcome {
            added: None,
            is_anew: false,
            mended: 0,
            carried: Vec::new(alloc),
        }
    }

    /// Adds that `_Validation` was added.
    pub(crate) fn add_validation(&mut self, added: Added) {
        self.added = Some(added);
    }

    /// Writes lines about the file if `_Validation` was added.
    pub(crate) fn note_added(&self, file: &str, notes: &mut Output) {
        if let Some(added) = self.added {
            added.note(file, notes);
        }
    }

    /// Notes that the package was made anew.
    pub(crate) fn note_anew(&mut self) {
        self.is_anew = true;
    }

    pub(crate) fn is_anew(&self) -> bool {
        self.is_anew
    }

    pub(crate) fn add_mended(&mut self, count: u32) {
        self.mended = self.mended.saturating_add(count);
    }

    pub(crate) fn add_carried(&mut self, carried: Carried) -> Result<(), AllocError> {
        Ok(self.carried.push(carried)?)
    }

    pub(crate) fn note_mended(&self, file: &str, notes: &mut Output) {
        note_mended(file, self.mended, notes);
    }

    pub(crate) fn note_carried(&self, file: &str, notes: &mut Output) {
        for carried in &self.carried {
            write!(notes, "msipkg: {}: ", Shown::escaped(file));
            carried.write(notes);
        }
    }

    pub(crate) fn print(&self, alloc: Global, style: Style, file: &str, output: &mut Output) {
        let mut object = JsonObject::new(alloc);
        object.put_text("file", Some(file));
        object.open_list("rows");
        for carried in &self.carried {
            object.put_number_item(i64::try_from(carried.count()).unwrap_or(i64::MAX));
        }
        object.close_list();
        object.print_line(style, output);
    }
}

pub(crate) fn note_mended(file: &str, count: u32, notes: &mut Output) {
    if count > 0 {
        let (file, counts) = (
            Shown::escaped(file),
            if count == 1 { "count is" } else { "counts are" },
        );
        writeln!(notes, "msipkg: {file}: {count} reference {counts} mended");
    }
}
