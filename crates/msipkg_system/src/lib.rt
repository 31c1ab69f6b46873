//! What `msipkg` runs on: the system's files, what packages lie on, and where it prints.
#![tactic(auto)]

pub mod carrier;
pub mod identity;
mod meter;
pub mod output;
pub mod system;

pub use carrier::{Carrier, Opened, Origin};
pub use identity::Identity;
pub use output::Output;
pub use system::{System, SystemFile, path_in};
