//! The code pages beside UTF-8 and the Western ones: which one or two bytes stand for which character.
#![tactic(auto)]

pub mod decoder;
pub mod encoder;
pub mod laws;
pub mod page;
mod sequences;
mod tables;

pub use decoder::Decoder;
pub use encoder::Encoder;
pub use page::Page;
