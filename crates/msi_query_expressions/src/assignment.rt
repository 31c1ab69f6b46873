//! What an update sets.

ghost use Rattle.std.specs.Prelude.{◌≡◌};
ghost use Rattle.msi_query_expressions.specs.Assignments.{set_text};

use msi_base::text::Text;
use msi_query_tokens::names::write_name;
use msi_table_values::value::Value;
use std::fmt;
use std::marker::Model;

/// A column and its new value.
#[derive(Drop)]
pub struct Assignment {
    column: Text,
    value: Value,
}

impl Model for Assignment {
    ghost use Rattle.std.specs.Prelude.{List, ℕ};
    ghost use Rattle.msi_table_values.specs.declared.value.Value.{Value as ValueOf};

    ghost Value = { List ℕ × ValueOf };

    ghost view = { λ s. (s.column, s.value) };
}

impl Assignment {
    /// Returns the assignment of a value to the column of a name.
    pub fn new(column: Text, value: Value) -> Assignment
        ensures { result ≡ (column, value) }
    {
        Assignment { column, value }
    }

    /// Returns the column's name.
    pub fn column(&self) -> &str
        ensures { result.now ≡ self.now.0 }
    {
        self.column.as_str()
    }

    /// Returns the new value.
    pub fn value(&self) -> &Value
        ensures { result.now ≡ self.now.1 }
    {
        &self.value
    }
}

/// Writes the column, in back quotes if it is named as a key word or by no Identifier, and the new value.
impl fmt::Display for Assignment {
    ghost output = { set_text };

    fn fmt<W: fmt::Write>(&self, f: &mut fmt::Formatter<W>) -> fmt::Result {
        write_name(f, self.column.as_str())?;
        write!(f, " = {}", self.value)
    }
}
