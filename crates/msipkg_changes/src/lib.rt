//! How `msipkg` makes packages and changes their files: by statements, by what `import` reads, by transforms, by
//! streams, properties and counts.
#![tactic(auto)]

mod applied;
pub mod change;
pub mod create;
mod describing;
mod emptying;
mod lost_texts;
mod outcome;
mod pages;
pub mod recounting;
pub mod script;
pub mod statements;
pub mod storing;
mod stream_rows;
mod streams;
pub mod transforming;

pub use change::{Change, Import, Manner, change_file, change_into};
pub use create::create_file;
pub use msipkg_import::Merging;
pub use recounting::mend_counts;
pub use script::read_script;
pub use statements::{PreparedStatement, prepare_statements};
pub use storing::Destination;
pub use transforming::Transforms;
