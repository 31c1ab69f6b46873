//! Queries as values: how they are built, and how they print.

ghost use Rattle.std.specs.Prelude.{◌≡◌, IfOk, IfErr, Some};
ghost use Rattle.msi_base.specs.declared.errors.ErrorKind.TheVariants.{OutOfMemory};
ghost use Rattle.msi_query.specs.Queries.{narrowed as narrowed_by};

pub(crate) mod clauses;
pub(crate) mod delete;
pub(crate) mod insert;
mod printing;
pub(crate) mod product;
pub(crate) mod select;
mod texts;
pub(crate) mod update;

pub use delete::Delete;
pub use insert::Insert;
use msi_base::errors::Error;
use msi_query_expressions::Expr;
pub use msi_query_expressions::joins::JoinKind;
pub use select::Select;
use std::alloc::Global;
pub use update::Update;

pub(crate) fn narrowed(alloc: Global, first: Option<Expr>, condition: Expr) -> Result<Expr, Error>
    ensures ok { IfOk result (λ both. Some both ≡ narrowed_by first condition) }
    ensures kind { IfErr result (λ kind. kind ≡ OutOfMemory) }
{
    match first {
        Some(first) => first.and(alloc, condition),
        None => Ok(condition),
    }
}
