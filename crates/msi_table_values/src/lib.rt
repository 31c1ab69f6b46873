//! Values and columns: which values a column takes, and how its type is stored.
#![tactic(auto)]

pub mod column;
mod columns;
mod conversions;
pub mod laws;
pub mod parts;
mod printing;
mod reasons;
pub mod row;
mod shared_texts;
mod texts;
mod valid_values;
pub mod value;
mod views;

pub use column::{Column, ColumnBuilder, ColumnType};
pub use value::Value;
