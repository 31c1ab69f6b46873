//! What is kept of a place beside its text.

ghost use Rattle.std.specs.Prelude.{◌≡◌, ◌==◌, ◌&&◌, ◌||◌, not, false};

/// How many cells name a place, and whether it lost its text, which then still stands among the others.
#[derive(Clone, Copy)]
pub(crate) struct Count {
    cells: u16,
    is_forgotten: bool,
}

impl Count {
    pub(crate) fn new(cells: u16) -> Count
        ensures { result ≡ record { cells = cells; is_forgotten = false } }
    {
        Count {
            cells,
            is_forgotten: false,
        }
    }

    pub(crate) fn cells(self) -> u16
        ensures { result ≡ self.cells }
    {
        self.cells
    }

    pub(crate) fn is_forgotten(self) -> bool
        ensures { result ≡ self.is_forgotten }
    {
        self.is_forgotten
    }

    /// Sets the count, and returns whether there was another one. Without cells the text is lost.
    pub(crate) fn set_count(&mut self, cells: u16) -> bool
        ensures count { self.new
            ≡ record self.old { cells = cells; is_forgotten = (cells == 0) || self.old.is_forgotten } }
        ensures changed { result ≡ not (cells == self.old.cells) }
    {
        let is_changed = cells != self.cells;
        self.is_forgotten = cells == 0 || self.is_forgotten;
        self.cells = cells;
        is_changed
    }

    /// Forgets the text of a free place unless the place is named.
    pub(crate) fn forget_text(&mut self, named: bool)
        ensures { self.new
            ≡ record self.old { is_forgotten = ((self.old.cells == 0) && not named) || self.old.is_forgotten } }
    {
        self.is_forgotten = (self.cells == 0 && !named) || self.is_forgotten;
    }
}
