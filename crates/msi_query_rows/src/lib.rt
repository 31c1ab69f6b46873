//! Selects rows: carries out a query for rows (filters, projections, joins) over any tables.
#![tactic(auto)]

mod columns;
mod combining;
mod distinct;
mod index;
mod joining;
mod joins;
pub mod laws;
mod links;
mod narrowing;
mod numbers;
mod ordering;
mod picking;
mod product;
mod reasons;
mod relation;
mod rows;
pub mod selection;
mod sides;

pub use selection::{Tables, select_rows};
