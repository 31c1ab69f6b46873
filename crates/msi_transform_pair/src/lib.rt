//! The two databases of which a transform is made: their rows by their keys, and whether one can be made of them.
#![tactic(auto)]

pub mod base;
pub mod described;
mod fingerprints;
mod fitness;
pub mod reading;
mod reasons;
mod refusal;
pub mod seen;
mod stream_names;
pub mod told;

pub use base::Base;
pub use fitness::check_pair;
pub use refusal::MakingRefusal;
