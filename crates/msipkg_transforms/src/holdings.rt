//! How much a transform holds: how many tables, columns and rows it adds, removes and changes.

use crate::records::{COLUMNS, TABLES, TableRecords, added_column, records_of};
use msi_transform::Transform;
use msi_transform_records::Action;
use msipkg_format::{Failure, JsonObject, Opened, Output};
use msipkg_packages::msi::Package;
use std::alloc::Global;

/// How many there are of a kind.
#[derive(Clone, Copy, Default)]
pub(crate) struct Counts {
    added: usize,
    removed: usize,
    changed: usize,
}

impl Counts {
    fn count(&mut self, action: Action) {
        let counted = match action {
            Action::Add(_) => &mut self.added,
            Action::Remove => &mut self.removed,
            Action::Change(_) => &mut self.changed,
        };
        *counted = counted.saturating_add(1);
    }
}

/// What a transform holds. The columns of tables that it adds aren't counted.
#[derive(Clone, Copy, Default)]
pub(crate) struct Holdings {
    tables: Counts,
    columns: Counts,
    rows: Counts,
    /// Whether it changes the code page.
    has_page: bool,
}

impl Holdings {
    /// Returns what a transform of a package holds.
    ///
    /// # Errors
    /// Fails at a malformed record, and if memory is refused.
    pub(crate) fn of(
        alloc: Global,
        base: &Package<Opened>,
        transform: &Transform,
        has_page: bool,
    ) -> Result<Holdings, Failure> {
        let mut holdings = Holdings {
            has_page,
            ..Holdings::default()
        };
        for (name, _) in transform.tables() {
            if let Some(records) = records_of(alloc, Some(base), transform, name.as_str())? {
                holdings.count(alloc, base, transform, name.as_str(), &records)?;
            }
        }
        Ok(holdings)
    }

    fn count(
        &mut self,
        alloc: Global,
        base: &Package<Opened>,
        transform: &Transform,
        table: &str,
        records: &TableRecords,
    ) -> Result<(), Failure> {
        for record in &records.records {
            match table {
                TABLES => self.tables.count(record.action),
                COLUMNS => {
                    if let Some(added) = added_column(alloc, transform, records, record)?
                        && base.has_table(added.table)
                    {
                        self.columns.count(record.action);
                    }
                }
                _ => self.rows.count(record.action),
            }
        }
        Ok(())
    }

    /// Writes it as `1 table added, 2 rows changed`, without what there is none of.
    pub(crate) fn write(&self, output: &mut Output) {
        let mut is_first = true;
        for (nouns, counts) in self.kinds() {
            for (verb, count) in verbs(counts) {
                if count > 0 {
                    let (comma, noun) = (
                        comma(is_first),
                        if count == 1 { nouns.0 } else { nouns.1 },
                    );
                    write!(output, "{comma}{count} {noun} {verb}");
                    is_first = false;
                }
            }
        }
        if self.has_page {
            write!(output, "{}code page changed", comma(is_first));
        }
    }

    /// Puts it as members of an object.
    pub(crate) fn put(&self, object: &mut JsonObject) {
        for (nouns, counts) in self.kinds() {
            object.open_object(nouns.1);
            for (verb, count) in verbs(counts) {
                object.put_number(verb, i64::try_from(count).ok());
            }
            object.close_item();
        }
        object.put_truth("codepage", self.has_page);
    }

    fn kinds(&self) -> [((&'static str, &'static str), Counts); 3] {
        [
            (("table", "tables"), self.tables),
            (("column", "columns"), self.columns),
            (("row", "rows"), self.rows),
        ]
    }
}

fn verbs(counts: Counts) -> [(&'static str, usize); 3] {
    [
        ("added", counts.added),
        ("removed", counts.removed),
        ("changed", counts.changed),
    ]
}

fn comma(is_first: bool) -> &'static str {
    if is_first { "" } else { ", " }
}
