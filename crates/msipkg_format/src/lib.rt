//! What packages have as `msipkg` prints it: rows and their values, columns, times, and why a command failed, with the
//! name that was meant. It knows no package.
#![tactic(auto)]

pub mod columns;
pub mod escape;
pub mod failure;
pub mod grid;
pub mod json;
pub mod json_rows;
pub mod near;
pub mod nulls;
pub mod pages;
pub mod properties;
mod repeated;
pub mod rows;
pub mod showing;
pub mod style;
pub mod texts;
pub mod values;
pub mod widths;

pub use columns::{ColumnTypeText, put_columns};
pub use escape::{Escapes, Shown};
pub use failure::{Cause, Failure, at_file, failure_json};
pub use grid::Grid;
pub use json::{JsonObject, quoted, write_quoted, write_text};
pub use json_rows::JsonRow;
pub use msipkg_system::{Carrier, Identity, Opened, Origin, Output, System, SystemFile, path_in};
pub use near::near_text;
pub use nulls::NullCells;
pub use pages::Pages;
pub use properties::StoredProperty;
pub use rows::{RowFormat, RowPrinting, write_rows};
pub use showing::{said, shown_value};
pub use style::Style;
pub use texts::{TimeText, push_key, stream_name, stream_name_by};
pub use values::{value_width, write_value};
pub use widths::Widths;
