//! The summary information of a package: its properties by their names, stored as a property set.
#![tactic(auto)]

pub mod laws;
pub mod parts;
pub mod property;
mod reasons;
pub mod summary;

pub use msi_summary_properties::{
    OperatingSystem, PropertySet, PropertyText, PropertyValue, propset,
};
pub use property::{NumberProperty, SummaryProperty, TextProperty, TimeProperty};
pub use summary::SummaryInfo;
