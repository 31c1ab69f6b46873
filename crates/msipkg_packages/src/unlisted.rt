//! Tables whose rows a file has in a stream, although `_Tables` doesn't list them.

use crate::tables::PackageTables;
use msi::compound::Name;
use msi::{Error, streamname};
use std::alloc::{AllocError, Global};
use std::collections::BTreeSet;

/// The names of tables.
pub struct TableNames {
    names: BTreeSet<String>,
}

/// Written out, so that a function that owns one calls one drop, and its proof doesn't go through those of the parts.
impl Drop for TableNames {
    fn drop(self) {
        let TableNames { names: _ } = self;
    }
}

impl TableNames {
    /// Returns no names.
    pub fn none(alloc: Global) -> TableNames {
        TableNames {
            names: BTreeSet::new(alloc),
        }
    }

    /// Returns the names of the tables that a package lists.
    ///
    /// # Errors
    /// Fails if memory is refused.
    pub fn listed<P: PackageTables>(alloc: Global, package: &P) -> Result<TableNames, AllocError> {
        let mut names = BTreeSet::new(alloc);
        for table in package.tables() {
            names.insert(String::from_str(alloc, table.name())?)?;
        }
        Ok(TableNames { names })
    }

    /// Adds the name of the table that a stream is of, by the container's name of the stream, unless it is of none.
    ///
    /// # Errors
    /// Fails if memory is refused.
    pub fn add_stored(&mut self, alloc: Global, stream: &Name) -> Result<(), Error> {
        let (text, is_table) = streamname::decode(alloc, stream.to_text(alloc)?.as_str())?;
        if is_table && !is_pool(text.as_str()) {
            self.names.insert(text)?;
        }
        Ok(())
    }

    /// Returns the first of the names, by their bytes, that isn't among others.
    pub fn first_beside(&self, others: &TableNames) -> Option<&str> {
        for name in self.names.iter() {
            if !others.names.contains(name) {
                return Some(name.as_str());
            }
        }
        None
    }
}

/// Whether a stream named as a table's holds texts and no rows.
fn is_pool(name: &str) -> bool {
    matches!(name, "_StringData" | "_StringPool")
}
