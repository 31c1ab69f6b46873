//! What files give, before a package takes it.

use crate::places::{at_part, part_of};
use msi_base::CodePage;
use msi_table::{ColumnType, Value};
use msipkg_format::{Failure, StoredProperty};
use std::alloc::{AllocError, Global};

/// A column.
pub struct GivenColumn {
    /// The name.
    pub name: String,
    /// The type of its values.
    pub coltype: ColumnType,
    /// Whether it is of the key.
    pub is_key: bool,
    /// Whether it takes null.
    pub is_nullable: bool,
    /// Whether its texts can be localized.
    pub is_localizable: bool,
}

/// Written out, so that a function that owns one calls one drop, and its proof doesn't go through those of the parts.
impl Drop for GivenColumn {
    fn drop(self) {
        let GivenColumn {
            name: _,
            coltype: _,
            is_key: _,
            is_nullable: _,
            is_localizable: _,
        } = self;
    }
}

impl GivenColumn {
    pub(crate) fn new(
        alloc: Global,
        name: &str,
        coltype: ColumnType,
    ) -> Result<GivenColumn, AllocError> {
        Ok(GivenColumn {
            name: String::from_str(alloc, name)?,
            coltype,
            is_key: false,
            is_nullable: false,
            is_localizable: false,
        })
    }
}

/// A table.
pub struct GivenTable {
    /// The file and the name, as messages have them.
    place: String,
    /// The name.
    pub name: String,
    /// The columns.
    pub columns: Vec<GivenColumn>,
    /// The rows, each with a value for each column.
    pub rows: Vec<Vec<Value>>,
}

/// Written out, so that a function that owns one calls one drop, and its proof doesn't go through those of the parts.
impl Drop for GivenTable {
    fn drop(self) {
        let GivenTable {
            place: _,
            name: _,
            columns: _,
            rows: _,
        } = self;
    }
}

impl GivenTable {
    pub(crate) fn new(alloc: Global, file: &str, name: &str) -> Result<GivenTable, AllocError> {
        let place = part_of(alloc, file, "table", name)?;
        Ok(GivenTable {
            place,
            name: String::from_str(alloc, name)?,
            columns: Vec::new(alloc),
            rows: Vec::new(alloc),
        })
    }

    pub(crate) fn add_row(&mut self, alloc: Global, row: Vec<Value>) -> Result<(), Failure> {
        if row.len() != self.columns.len() {
            let failure = Failure::rule("it has another number of values than there are columns");
            return Err(self.at_row(alloc, failure, self.rows.len(), ""));
        }
        Ok(self.rows.push(row)?)
    }

    pub(crate) fn column_at(&self, place: usize) -> &str {
        match self.columns.get(place) {
            Some(column) => column.name.as_str(),
            None => "",
        }
    }

    /// Returns the place of the column of a name.
    pub fn place_of(&self, name: &str) -> Option<usize> {
        self.columns
            .iter()
            .position(|column| column.name.as_str() == name)
    }

    /// Returns a failure at the table.
    pub fn at_table(&self, alloc: Global, failure: Failure) -> Failure {
        failure.at(alloc, "file", self.place.as_str())
    }

    /// Returns a failure at a column.
    pub fn at_column(&self, alloc: Global, failure: Failure, column: &str) -> Failure {
        at_part(alloc, failure, self.place.as_str(), "column", column)
    }

    /// Returns a failure at the row of a place, which people count from 1 on, and at a column of it, unless that is the
    /// empty text.
    pub fn at_row(&self, alloc: Global, failure: Failure, place: usize, column: &str) -> Failure {
        let number = place.saturating_add(1);
        let between = if column.is_empty() { "" } else { ", column " };
        match format!(in alloc; "{number}{between}{column}") {
            Ok(row) => at_part(alloc, failure, self.place.as_str(), "row", row.as_str()),
            Err(_) => failure,
        }
    }
}

/// A stream.
pub struct GivenStream {
    /// The name.
    pub name: String,
    /// The bytes.
    pub bytes: Vec<u8>,
}

/// Written out, so that a function that owns one calls one drop, and its proof doesn't go through those of the parts.
impl Drop for GivenStream {
    fn drop(self) {
        let GivenStream { name: _, bytes: _ } = self;
    }
}

/// A property of a summary.
pub struct GivenProperty {
    /// Which it is.
    pub property: StoredProperty,
    /// The text that stands for its value.
    pub text: String,
}

/// Written out, so that a function that owns one calls one drop, and its proof doesn't go through those of the parts.
impl Drop for GivenProperty {
    fn drop(self) {
        let GivenProperty {
            property: _,
            text: _,
        } = self;
    }
}

/// What files give.
pub struct Given {
    /// The code page of the database.
    pub page: Option<CodePage>,
    /// Whether there is a summary.
    pub has_summary: bool,
    /// The properties of the summary.
    pub summary: Vec<GivenProperty>,
    /// The tables, `_Validation` among them.
    pub tables: Vec<GivenTable>,
    /// The streams.
    pub streams: Vec<GivenStream>,
}

/// Written out, so that a function that owns one calls one drop, and its proof doesn't go through those of the parts.
impl Drop for Given {
    fn drop(self) {
        let Given {
            page: _,
            has_summary: _,
            summary: _,
            tables: _,
            streams: _,
        } = self;
    }
}

impl Given {
    pub(crate) fn new(alloc: Global) -> Given {
        Given {
            page: None,
            has_summary: false,
            summary: Vec::new(alloc),
            tables: Vec::new(alloc),
            streams: Vec::new(alloc),
        }
    }

    pub(crate) fn add_property(
        &mut self,
        alloc: Global,
        property: StoredProperty,
        text: &str,
    ) -> Result<(), AllocError> {
        let text = String::from_str(alloc, text)?;
        Ok(self.summary.push(GivenProperty { property, text })?)
    }
}

pub(crate) fn page_of(number: i32) -> Result<CodePage, Failure> {
    match CodePage::from_id(number) {
        Some(page) => Ok(page),
        None => Err(Failure::rule("it names a code page that isn't known")),
    }
}
