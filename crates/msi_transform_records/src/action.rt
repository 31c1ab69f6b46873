//! What a record does with a row, as its mask says.

ghost use Rattle.std.specs.Prelude.{◌≡◌};
ghost use Rattle.msi_transform_records.specs.Actions.{action_of_mask, mask_of};

/// What a record does with a row (the format of transforms, as FORMATS has it).
#[derive(Clone, Copy, PartialEq, Eq, Debug, Drop)]
pub enum Action {
    /// Adds a row. The cells of so many columns follow, from the first on; the others are null.
    Add(u8),
    /// Removes the row whose key's cells follow.
    Remove,
    /// Changes a row. The cells of the key and those of the columns follow whose bits are set, from bit 0 for the first
    /// on. The bits are an even number that isn't 0.
    Change(u16),
}

impl Action {
    /// Returns the action that a mask of 16 bits says: 0 removes a row, any other even number changes one by its bits,
    /// and a low byte of 1 adds one, of as many columns as the high byte says. No other mask says anything.
    pub fn of_mask(mask: u16) -> Option<Action>
        ensures { result ≡ action_of_mask mask }
    {
        if mask == 0 {
            return Some(Action::Remove);
        }
        if mask % 2 == 0 {
            return Some(Action::Change(mask));
        }
        if mask % 256 == 1 {
            return Some(Action::Add((mask / 256) as u8));
        }
        None
    }

    /// Returns the mask of the action.
    pub fn mask(self) -> u16
        ensures { result ≡ mask_of self }
    {
        match self {
            Action::Add(count) => 256 * count as u16 + 1,
            Action::Remove => 0,
            Action::Change(mask) => mask,
        }
    }
}
