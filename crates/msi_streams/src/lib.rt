//! The binary streams of a package: their names, listed, and a stream as a reader and a writer.
#![tactic(auto)]

pub mod faults;
pub mod keys;
pub mod names;
pub mod reader;
mod reasons;
mod seeking;
pub mod writer;

pub use names::Streams;
pub use reader::StreamReader;
pub use writer::{OpenStream, StreamWriter};
