//! Makes a list of calls on a package, new or opened; its contract says what the resulting bytes mean. Its laws say
//! what recoding leaves alike of whole packages.
#![tactic(auto)]

pub mod answer;
pub mod call;
mod changing;
mod device;
pub mod laws;
mod looking;
pub mod replaying;
mod stream;
mod streaming;
mod summary;

pub use answer::{Answer, StreamAnswer, SummaryAnswer};
pub use call::{Call, Change, LookUp, ReaderCall, Setting, SummaryCall, WriterCall};
pub use msi::{NumberProperty, SummaryProperty, TextProperty, TimeProperty};
pub use replaying::{Replayed, replay, replay_over};
