//! Expressions as values: builds, evaluates and prints conditions on rows.
#![tactic(auto)]

mod assignment;
pub mod expr;
pub mod joins;
pub mod laws;
pub mod meaning;
mod operands;
pub mod operators;
pub mod parts;
mod printing;
mod results;

pub use expr::Expr;
pub use joins::JoinKind;
pub use operators::{BinaryOp, UnaryOp};
