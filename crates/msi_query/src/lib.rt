//! Queries as values (select, insert, update, delete), and the expressions that are their conditions.
#![tactic(auto)]

pub mod laws;
pub mod parts;
pub mod query;

pub use msi_query_expressions::{Expr, expr};
pub use query::{Delete, Insert, Select, Update};
