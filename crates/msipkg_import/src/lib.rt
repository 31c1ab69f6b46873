//! The command `import`: gives a package what files have, as `msipkg_import_files` reads them.
#![tactic(auto)]

mod columns;
mod descriptions;
pub mod importing;
pub mod losses;
mod merger;
mod null_streams;
pub mod rows;
pub mod rules;
mod summary;
mod tables;
pub mod validation;

pub use importing::{Merging, import_given};
pub use losses::{Losses, note_losses};
pub use validation::{Added, Before, VALIDATION, add_validation};
