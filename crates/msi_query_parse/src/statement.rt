//! A query of any kind.

use msi_query::{Delete, Insert, Select, Update};
use std::fmt;

/// A query of any kind.
#[derive(Drop)]
pub enum Statement {
    Select(Select),
    Insert(Insert),
    Update(Update),
    Delete(Delete),
}

/// Writes the query as SQL, as its own type writes it. Literal texts past ASCII, and formats with a width or other
/// options, are promised nothing.
impl fmt::Display for Statement {
    ghost use Rattle.msi_query_parse.specs.Printed.{statement_text};

    ghost output = { statement_text };

    fn fmt<W: fmt::Write>(&self, f: &mut fmt::Formatter<W>) -> fmt::Result {
        match self {
            Statement::Select(query) => write!(f, "{query}"),
            Statement::Insert(query) => write!(f, "{query}"),
            Statement::Update(query) => write!(f, "{query}"),
            Statement::Delete(query) => write!(f, "{query}"),
        }
    }
}
