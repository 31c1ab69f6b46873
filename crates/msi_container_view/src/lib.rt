//! Looks at a compound file (MS-CFB) over a source that can be read from any place on: its tables are read at once,
//! each stream when it is asked for.
#![tactic(auto)]

mod counted;
mod extents;
mod listing;
pub mod located;
mod looking;
mod outline;
pub mod pieces;
mod reasons;
mod tables;
pub mod view;

pub use extents::Extent;
pub use located::Located;
pub use pieces::byte_count;
pub use view::ContainerView;
