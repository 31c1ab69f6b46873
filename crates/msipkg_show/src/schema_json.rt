//! The columns of tables as JSON.

use msipkg_format::JsonObject;
use msipkg_packages::msi::Table;
use msipkg_packages::output::put_columns;
use std::alloc::Global;

/// Returns the tables of a file as JSON. What a column doesn't have is left out.
pub(crate) fn schema_json(alloc: Global, file: &str, tables: &[&Table]) -> JsonObject {
    let mut object = JsonObject::new(alloc);
    put_tables(file, tables, &mut object);
    object
}

fn put_tables(file: &str, tables: &[&Table], object: &mut JsonObject) {
    object.put_text("file", Some(file));
    object.open_list("tables");
    for table in tables {
        object.open_item();
        put_columns(table.name(), table.columns(), object);
        object.close_item();
    }
    object.close_list();
}
