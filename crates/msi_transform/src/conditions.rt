//! Which faults of a transform pass.

ghost use Rattle.std.specs.Prelude.{◌≡◌, ◌<◌, ◌≤◌};
ghost use Rattle.msi_transform.specs.ConditionBits.{bit_if as bit_of, bits_of, conditions_of_bits};
ghost use Rattle.msi_transform.specs.ConditionBits.{has_bit as is_set, passes as is_passing, with_passing};

/// A fault of a transform's records that may pass, where the transform is applied to a package that it wasn't made from
/// (MSI SDK, "MsiDatabaseApplyTransform").
#[derive(Clone, Copy, PartialEq, Eq, Debug, Drop)]
pub enum Fault {
    /// A row that is added is there.
    AddedRowExists,
    /// A row that is removed isn't there.
    RemovedRowMissing,
    /// A table that is added is there, or a column of it.
    AddedTableExists,
    /// A table that is removed isn't there.
    RemovedTableMissing,
    /// A row that is changed isn't there.
    ChangedRowMissing,
    /// The pages differ, and neither is neutral.
    OtherPage,
}

/// Which faults of a transform's records pass. What passes does nothing, but for an added row that is there: its values
/// are replaced.
#[derive(Clone, Copy, Default, PartialEq, Eq, Debug, Drop)]
pub struct ErrorConditions {
    /// A row that is added is there.
    pub added_row_exists: bool,
    /// A row that is removed isn't there.
    pub removed_row_missing: bool,
    /// A table that is added is there, or a column of it.
    pub added_table_exists: bool,
    /// A table that is removed isn't there.
    pub removed_table_missing: bool,
    /// A row that is changed isn't there.
    pub changed_row_missing: bool,
    /// The pages differ, and neither is neutral.
    pub other_page: bool,
}

impl ErrorConditions {
    /// Returns the conditions of a number's lowest six bits, as the summary of a transform stores them: 1 for a row to
    /// add that is there, 2 for a row to remove that isn't, 4 and 8 likewise for tables, 16 for a row to change that
    /// isn't there, and 32 for another page. Further bits mean nothing here.
    pub fn of_bits(bits: u32) -> ErrorConditions
        ensures { result ≡ conditions_of_bits bits }
    {
        ErrorConditions {
            added_row_exists: has_bit(bits, 1),
            removed_row_missing: has_bit(bits, 2),
            added_table_exists: has_bit(bits, 4),
            removed_table_missing: has_bit(bits, 8),
            changed_row_missing: has_bit(bits, 16),
            other_page: has_bit(bits, 32),
        }
    }

    /// Returns the number that `of_bits` reads as these conditions, whose other bits are 0.
    pub fn bits(self) -> u32
        ensures { result ≡ bits_of self }
    {
        bit_if(1, self.added_row_exists)
            + bit_if(2, self.removed_row_missing)
            + bit_if(4, self.added_table_exists)
            + bit_if(8, self.removed_table_missing)
            + bit_if(16, self.changed_row_missing)
            + bit_if(32, self.other_page)
    }

    /// Returns whether a fault passes.
    pub fn passes(self, fault: Fault) -> bool
        ensures { result ≡ is_passing self fault }
    {
        match fault {
            Fault::AddedRowExists => self.added_row_exists,
            Fault::RemovedRowMissing => self.removed_row_missing,
            Fault::AddedTableExists => self.added_table_exists,
            Fault::RemovedTableMissing => self.removed_table_missing,
            Fault::ChangedRowMissing => self.changed_row_missing,
            Fault::OtherPage => self.other_page,
        }
    }

    /// Lets a fault pass.
    pub fn pass(&mut self, fault: Fault)
        ensures { self.new ≡ with_passing fault self.old }
    {
        match fault {
            Fault::AddedRowExists => self.added_row_exists = true,
            Fault::RemovedRowMissing => self.removed_row_missing = true,
            Fault::AddedTableExists => self.added_table_exists = true,
            Fault::RemovedTableMissing => self.removed_table_missing = true,
            Fault::ChangedRowMissing => self.changed_row_missing = true,
            Fault::OtherPage => self.other_page = true,
        }
    }
}

fn has_bit(bits: u32, value: u32) -> bool
    requires { 0 < value }
    ensures { result ≡ is_set value bits }
{
    bits / value % 2 == 1
}

fn bit_if(value: u32, is_set: bool) -> u32
    ensures value { result ≡ bit_of value is_set }
    ensures most { result ≤ value }
{
    if is_set { value } else { 0 }
}
