//! Changes of tables: what each does to rows and to the string pool, and when it is refused.
#![tactic(auto)]

mod conditions;
pub mod counting;
pub mod create;
pub mod delete;
pub mod drop;
pub mod insert;
pub mod keys;
pub mod laws;
pub mod lengthening;
mod naming;
mod reasons;
pub mod setting;
mod storing;
pub mod texts;
pub mod update;
pub mod views;

pub use storing::{Stored, store_all};
