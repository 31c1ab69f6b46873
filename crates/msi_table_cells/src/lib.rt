//! The cells that stand for values, with their texts in a string pool; which cells a table can store; and the orders of
//! rows: the one in which a table stores them, and the one of their keys.
#![tactic(auto)]

pub mod cell;
mod fitting;
pub mod laws;
pub mod order;
pub mod parts;
mod views;
