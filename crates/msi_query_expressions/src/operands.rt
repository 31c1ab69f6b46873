//! Operands: values that stand in a tree or a row, or that were computed.

ghost use Rattle.std.specs.Prelude.{◌≡◌, IfOk, IfErr, IsErr, IsTrue};
ghost use Rattle.msi_base.specs.declared.errors.ErrorKind.TheVariants.{OutOfMemory};
ghost use Rattle.msi_table_values.specs.Values.{is_text};
ghost use Rattle.msi_query_expressions.specs.Operands.{operand_value};
ghost use Rattle.msi_table_values.specs.Views.{seen_value};

use msi_base::errors::Error;
use msi_table_values::parts::ValueView;
use msi_table_values::value::Value;
use std::alloc::Global;

/// A value of a tree or a row, borrowed so that no text is copied, or one that was computed.
#[derive(Drop)]
pub enum Operand<'a> {
    Borrowed(ValueView<'a>),
    Computed(Value),
}

impl<'a> Operand<'a> {
    /// Returns the value, borrowed.
    pub fn as_view(&self) -> ValueView<'_>
        ensures { seen_value result ≡ operand_value self.now }
    {
        match self {
            Operand::Borrowed(view) => *view,
            Operand::Computed(value) => ValueView::of(value),
        }
    }

    /// Returns the value, copied where it was borrowed.
    ///
    /// # Errors
    /// Fails with `OutOfMemory`, and only for a text.
    pub fn into_value(self, alloc: Global) -> Result<Value, Error>
        ensures ok { IfOk result (λ value. value ≡ operand_value self.entry) }
        ensures kind { IfErr result (λ kind. kind ≡ OutOfMemory) }
        ensures memory { IsErr result → IsTrue (is_text (operand_value self.entry)) }
    {
        match self {
            Operand::Borrowed(view) => view.into_value(alloc),
            Operand::Computed(value) => Ok(value),
        }
    }
}
