//! Property sets (MS-OLEPS): reads and writes values by their ids.
#![tactic(auto)]

mod header;
pub mod laws;
pub mod parts;
mod piece;
pub mod propset;
mod reading;
mod reasons;
mod shared;
pub mod texts;
mod values;
mod writable;
mod writing;

pub use propset::{OperatingSystem, PropertySet, PropertyValue};
pub use texts::PropertyText;
