//! Expressions on rows: how they are built, their values, and which columns they name.

ghost use Rattle.std.specs.Prelude.{◌≡◌, ◌||◌, IfOk, IfErr, IsErr, IsTrue, ◌↔◌, Contains, ℕ, List};
ghost use Rattle.msi_base.specs.declared.errors.ErrorKind.TheVariants.{OutOfMemory};
ghost use Rattle.msi_table_values.specs.declared.value.Value.TheVariants.{Null, Int, Str};
ghost use Rattle.msi_query_expressions.specs.Expressions.{literal, column, both, either, names_in};
ghost use Rattle.msi_table_values.specs.Values.{is_text};
ghost use Rattle.msi_query_expressions.specs.Conditions.{has_sum};
ghost use Rattle.msi_query_expressions.specs.Equated.{equated as equated_in, equations as equations_in};
ghost use Rattle.msi_query_expressions.specs.OperatorValues.{truth};
ghost use Rattle.msi_query_expressions.specs.Evaluation.{knows_names as knows_each, value_of, value_at};
ghost use Rattle.msi_query_expressions.specs.Evaluation.{HasColumnsOf};
ghost use Rattle.msi_query_expressions.specs.Folding.{folded_unary, folded_binary};
ghost use Rattle.msi_query_expressions.specs.Meaning.{meant, renamed};
ghost use Rattle.msi_query_expressions.specs.Names.{has_name};

mod column_values;
mod copying;
mod equated;
mod evaluation;
pub(crate) mod filter;
mod folding;
mod names;
mod printing;
mod renaming;
mod texts;

use crate::meaning::Scope;
pub use crate::operators::{BinaryOp, UnaryOp};
use copying::copied;
use equated::{add_equations, equated_places};
use evaluation::operand_of;
use folding::{fold_binary, fold_unary};
use msi_base::errors::Error;
use msi_base::text::{IntoText, Text};
use msi_table_values::column::Column;
use msi_table_values::row::Row;
use msi_table_values::value::Value;
use names::{collect_names, knows_meant_names, knows_names};
use renaming::renamed_tree;
use std::alloc::Global;
use std::collections::HashSet;
use std::marker::Model;

/// The tree of an expression, in which columns stand as their names, or as their places in rows.
#[derive(Drop)]
pub(crate) enum Tree<C> {
    Literal(Value),
    Column(C),
    Unary(UnaryOp, Box<Tree<C>>),
    Binary(BinaryOp, Box<Tree<C>>, Box<Tree<C>>),
    And(Box<Tree<C>>, Box<Tree<C>>),
    Or(Box<Tree<C>>, Box<Tree<C>>),
}

/// An expression on rows. A contract sees its tree, without where the parts lie in memory. No operator but `and` and
/// `or` stands over literals alone, numbers have 32 bits, and no literal stands for a stream.
///
/// Evaluation, printing, `clone`, `column_names` and the drop go down the tree by recursion, so its depth is bounded by
/// the stack alone.
pub struct Expr {
    tree: Tree<Text>,
}

/// Written out, so that a function that owns one calls one drop, and its proof doesn't go through that of the tree.
impl Drop for Expr {
    fn drop(self) {
        let Expr { tree: _ } = self;
    }
}

impl Model for Expr {
    ghost use Rattle.std.specs.Prelude.{IsTrue};
    ghost use Rattle.std.specs.Coded.{codes};
    ghost use Rattle.msi_query_expressions.specs.Expressions.{Expression};
    ghost use Rattle.msi_query_expressions.specs.ExpressionCode.{expression_code};
    ghost use Rattle.msi_query_expressions.specs.Folding.{is_built};

    ghost Value = { Expression };

    ghost coded = { expression_code (Prim.hlevel codes) };

    ghost use Rattle.msi_query_expressions.specs.Trees.{expression_of};

    ghost view = { λ e. expression_of e.tree };

    ghost invariant = { λ e. IsTrue (is_built (expression_of e.tree)) };
}

impl Expr {
    /// Returns an expression for the value of the column of this name.
    ///
    /// # Errors
    /// Fails with `OutOfMemory`.
    pub fn col<S: IntoText>(alloc: Global, name: S) -> Result<Expr, Error>
        ensures ok { IfOk result (λ expression. expression ≡ column (S.text name)) }
        ensures kind { IfErr result (λ kind. kind ≡ OutOfMemory) }
    {
        let name = name.into_text(alloc)?;
        Ok(Expr {
            tree: Tree::Column(name),
        })
    }

    /// Returns the literal Null.
    pub fn null() -> Expr
        ensures { result ≡ literal Null }
    {
        Expr {
            tree: Tree::Literal(Value::Null),
        }
    }

    /// Returns the literal 1 for true, and 0 for false.
    pub fn boolean(boolean: bool) -> Expr
        ensures { result ≡ literal (truth boolean) }
    {
        Expr {
            tree: Tree::Literal(Value::from(boolean)),
        }
    }

    /// Returns a literal number.
    pub fn integer(integer: i32) -> Expr
        ensures { result ≡ literal (Int integer) }
    {
        Expr {
            tree: Tree::Literal(Value::Int(integer)),
        }
    }

    /// Returns a literal text.
    ///
    /// # Errors
    /// Fails with `OutOfMemory`.
    pub fn string<S: IntoText>(alloc: Global, text: S) -> Result<Expr, Error>
        ensures ok { IfOk result (λ expression. expression ≡ literal (Str (S.text text))) }
        ensures kind { IfErr result (λ kind. kind ≡ OutOfMemory) }
    {
        let text = text.into_text(alloc)?;
        Ok(Expr {
            tree: Tree::Literal(Value::Str(text)),
        })
    }

    fn unary(self, alloc: Global, op: UnaryOp) -> Result<Expr, Error>
        ensures ok { IfOk result (λ expression. expression ≡ folded_unary op self) }
        ensures kind { IfErr result (λ kind. kind ≡ OutOfMemory) }
    {
        let Expr { tree } = self;
        let tree = fold_unary(alloc, op, tree)?;
        Ok(Expr { tree })
    }

    fn binary(self, alloc: Global, op: BinaryOp, rhs: Expr) -> Result<Expr, Error>
        ensures ok { IfOk result (λ expression. expression ≡ folded_binary op self rhs) }
        ensures kind { IfErr result (λ kind. kind ≡ OutOfMemory) }
    {
        let Expr { tree: left } = self;
        let Expr { tree: right } = rhs;
        let tree = fold_binary(alloc, op, left, right)?;
        Ok(Expr { tree })
    }

    /// Returns an expression that is 1 if the two values are equal, and otherwise 0. Null equals Null.
    ///
    /// # Errors
    /// Fails with `OutOfMemory`.
    pub fn eq(self, alloc: Global, rhs: Expr) -> Result<Expr, Error>
        ensures ok { IfOk result (λ expression. expression ≡ folded_binary BinaryOp.Eq self rhs) }
        ensures kind { IfErr result (λ kind. kind ≡ OutOfMemory) }
    {
        self.binary(alloc, BinaryOp::Eq, rhs)
    }

    /// Returns an expression that is 1 if the two values differ, and otherwise 0.
    ///
    /// # Errors
    /// Fails with `OutOfMemory`.
    pub fn ne(self, alloc: Global, rhs: Expr) -> Result<Expr, Error>
        ensures ok { IfOk result (λ expression. expression ≡ folded_binary BinaryOp.Ne self rhs) }
        ensures kind { IfErr result (λ kind. kind ≡ OutOfMemory) }
    {
        self.binary(alloc, BinaryOp::Ne, rhs)
    }

    /// Returns an expression that is 1 if the value comes before the other's in the order of values, and otherwise 0.
    ///
    /// # Errors
    /// Fails with `OutOfMemory`.
    pub fn lt(self, alloc: Global, rhs: Expr) -> Result<Expr, Error>
        ensures ok { IfOk result (λ expression. expression ≡ folded_binary BinaryOp.Lt self rhs) }
        ensures kind { IfErr result (λ kind. kind ≡ OutOfMemory) }
    {
        self.binary(alloc, BinaryOp::Lt, rhs)
    }

    /// Returns an expression that is 1 if the value comes before the other's in the order of values or equals it, and
    /// otherwise 0.
    ///
    /// # Errors
    /// Fails with `OutOfMemory`.
    pub fn le(self, alloc: Global, rhs: Expr) -> Result<Expr, Error>
        ensures ok { IfOk result (λ expression. expression ≡ folded_binary BinaryOp.Le self rhs) }
        ensures kind { IfErr result (λ kind. kind ≡ OutOfMemory) }
    {
        self.binary(alloc, BinaryOp::Le, rhs)
    }

    /// Returns an expression that is 1 if the value comes after the other's in the order of values, and otherwise 0.
    ///
    /// # Errors
    /// Fails with `OutOfMemory`.
    pub fn gt(self, alloc: Global, rhs: Expr) -> Result<Expr, Error>
        ensures ok { IfOk result (λ expression. expression ≡ folded_binary BinaryOp.Gt self rhs) }
        ensures kind { IfErr result (λ kind. kind ≡ OutOfMemory) }
    {
        self.binary(alloc, BinaryOp::Gt, rhs)
    }

    /// Returns an expression that is 1 if the value comes after the other's in the order of values or equals it, and
    /// otherwise 0.
    ///
    /// # Errors
    /// Fails with `OutOfMemory`.
    pub fn ge(self, alloc: Global, rhs: Expr) -> Result<Expr, Error>
        ensures ok { IfOk result (λ expression. expression ≡ folded_binary BinaryOp.Ge self rhs) }
        ensures kind { IfErr result (λ kind. kind ≡ OutOfMemory) }
    {
        self.binary(alloc, BinaryOp::Ge, rhs)
    }

    /// Returns an expression for the inverted bits of a number; it is Null for anything else.
    ///
    /// # Errors
    /// Fails with `OutOfMemory`.
    pub fn bitinv(self, alloc: Global) -> Result<Expr, Error>
        ensures ok { IfOk result (λ expression. expression ≡ folded_unary UnaryOp.BitNot self) }
        ensures kind { IfErr result (λ kind. kind ≡ OutOfMemory) }
    {
        self.unary(alloc, UnaryOp::BitNot)
    }

    /// Returns an expression that is 1 if both values count as true, and otherwise 0. Literals don't fold.
    ///
    /// # Errors
    /// Fails with `OutOfMemory`.
    pub fn and(self, alloc: Global, rhs: Expr) -> Result<Expr, Error>
        ensures ok { IfOk result (λ expression. expression ≡ both self rhs) }
        ensures kind { IfErr result (λ kind. kind ≡ OutOfMemory) }
    {
        let Expr { tree: left } = self;
        let Expr { tree: right } = rhs;
        let left = Box::new(alloc, left)?;
        let right = Box::new(alloc, right)?;
        Ok(Expr {
            tree: Tree::And(left, right),
        })
    }

    /// Returns an expression that is 1 if one of the values counts as true, and otherwise 0. Literals don't fold.
    ///
    /// # Errors
    /// Fails with `OutOfMemory`.
    pub fn or(self, alloc: Global, rhs: Expr) -> Result<Expr, Error>
        ensures ok { IfOk result (λ expression. expression ≡ either self rhs) }
        ensures kind { IfErr result (λ kind. kind ≡ OutOfMemory) }
    {
        let Expr { tree: left } = self;
        let Expr { tree: right } = rhs;
        let left = Box::new(alloc, left)?;
        let right = Box::new(alloc, right)?;
        Ok(Expr {
            tree: Tree::Or(left, right),
        })
    }

    /// Returns an expression that is 1 if the value counts as false, and otherwise 0. Null, 0 and the empty text
    /// count as false, all else as true.
    ///
    /// # Errors
    /// Fails with `OutOfMemory`.
    pub fn not(self, alloc: Global) -> Result<Expr, Error>
        ensures ok { IfOk result (λ expression. expression ≡ folded_unary UnaryOp.BoolNot self) }
        ensures kind { IfErr result (λ kind. kind ≡ OutOfMemory) }
    {
        self.unary(alloc, UnaryOp::BoolNot)
    }

    /// Returns an expression for a negated number; it is Null for -2147483648 and for anything but a number.
    ///
    /// # Errors
    /// Fails with `OutOfMemory`.
    pub fn neg(self, alloc: Global) -> Result<Expr, Error>
        ensures ok { IfOk result (λ expression. expression ≡ folded_unary UnaryOp.Neg self) }
        ensures kind { IfErr result (λ kind. kind ≡ OutOfMemory) }
    {
        self.unary(alloc, UnaryOp::Neg)
    }

    /// Returns an expression for the sum of two numbers, or for two texts joined; it is Null if the sum doesn't fit
    /// 32 bits, and for anything else.
    ///
    /// # Errors
    /// Fails with `OutOfMemory`.
    pub fn add(self, alloc: Global, rhs: Expr) -> Result<Expr, Error>
        ensures ok { IfOk result (λ expression. expression ≡ folded_binary BinaryOp.Add self rhs) }
        ensures kind { IfErr result (λ kind. kind ≡ OutOfMemory) }
    {
        self.binary(alloc, BinaryOp::Add, rhs)
    }

    /// Returns an expression for the difference of two numbers; it is Null if that doesn't fit 32 bits, and for
    /// anything else.
    ///
    /// # Errors
    /// Fails with `OutOfMemory`.
    pub fn sub(self, alloc: Global, rhs: Expr) -> Result<Expr, Error>
        ensures ok { IfOk result (λ expression. expression ≡ folded_binary BinaryOp.Sub self rhs) }
        ensures kind { IfErr result (λ kind. kind ≡ OutOfMemory) }
    {
        self.binary(alloc, BinaryOp::Sub, rhs)
    }

    /// Returns an expression for the product of two numbers; it is Null if that doesn't fit 32 bits, and for anything
    /// else.
    ///
    /// # Errors
    /// Fails with `OutOfMemory`.
    pub fn mul(self, alloc: Global, rhs: Expr) -> Result<Expr, Error>
        ensures ok { IfOk result (λ expression. expression ≡ folded_binary BinaryOp.Mul self rhs) }
        ensures kind { IfErr result (λ kind. kind ≡ OutOfMemory) }
    {
        self.binary(alloc, BinaryOp::Mul, rhs)
    }

    /// Returns an expression for the quotient of two numbers, cut towards zero; it is Null if the divisor is 0 or the
    /// quotient doesn't fit 32 bits, and for anything else.
    ///
    /// # Errors
    /// Fails with `OutOfMemory`.
    pub fn div(self, alloc: Global, rhs: Expr) -> Result<Expr, Error>
        ensures ok { IfOk result (λ expression. expression ≡ folded_binary BinaryOp.Div self rhs) }
        ensures kind { IfErr result (λ kind. kind ≡ OutOfMemory) }
    {
        self.binary(alloc, BinaryOp::Div, rhs)
    }

    /// Returns an expression for the bits that two numbers share; it is Null for anything else.
    ///
    /// # Errors
    /// Fails with `OutOfMemory`.
    pub fn bitand(self, alloc: Global, rhs: Expr) -> Result<Expr, Error>
        ensures ok { IfOk result (λ expression. expression ≡ folded_binary BinaryOp.BitAnd self rhs) }
        ensures kind { IfErr result (λ kind. kind ≡ OutOfMemory) }
    {
        self.binary(alloc, BinaryOp::BitAnd, rhs)
    }

    /// Returns an expression for the bits that one of two numbers has; it is Null for anything else.
    ///
    /// # Errors
    /// Fails with `OutOfMemory`.
    pub fn bitor(self, alloc: Global, rhs: Expr) -> Result<Expr, Error>
        ensures ok { IfOk result (λ expression. expression ≡ folded_binary BinaryOp.BitOr self rhs) }
        ensures kind { IfErr result (λ kind. kind ≡ OutOfMemory) }
    {
        self.binary(alloc, BinaryOp::BitOr, rhs)
    }

    /// Returns an expression for the bits that exactly one of two numbers has; it is Null for anything else.
    ///
    /// # Errors
    /// Fails with `OutOfMemory`.
    pub fn bitxor(self, alloc: Global, rhs: Expr) -> Result<Expr, Error>
        ensures ok { IfOk result (λ expression. expression ≡ folded_binary BinaryOp.BitXor self rhs) }
        ensures kind { IfErr result (λ kind. kind ≡ OutOfMemory) }
    {
        self.binary(alloc, BinaryOp::BitXor, rhs)
    }

    /// Returns an expression for a number shifted left by 0 to 31 bits, of which the low 32 stay; it is Null for
    /// another distance, and for anything but numbers.
    ///
    /// # Errors
    /// Fails with `OutOfMemory`.
    pub fn shl(self, alloc: Global, rhs: Expr) -> Result<Expr, Error>
        ensures ok { IfOk result (λ expression. expression ≡ folded_binary BinaryOp.Shl self rhs) }
        ensures kind { IfErr result (λ kind. kind ≡ OutOfMemory) }
    {
        self.binary(alloc, BinaryOp::Shl, rhs)
    }

    /// Returns an expression for a number shifted right by 0 to 31 bits, with copies of its sign; it is Null for
    /// another distance, and for anything but numbers.
    ///
    /// # Errors
    /// Fails with `OutOfMemory`.
    pub fn shr(self, alloc: Global, rhs: Expr) -> Result<Expr, Error>
        ensures ok { IfOk result (λ expression. expression ≡ folded_binary BinaryOp.Shr self rhs) }
        ensures kind { IfErr result (λ kind. kind ≡ OutOfMemory) }
    {
        self.binary(alloc, BinaryOp::Shr, rhs)
    }

    /// Returns the value of the expression on a row, which must have a column of each name in it (`column_names`,
    /// `Row::has_column`).
    ///
    /// # Errors
    /// Fails with `OutOfMemory`, and only if the expression has a sum or its value is a text.
    pub fn eval(&self, alloc: Global, row: &Row) -> Result<Value, Error>
        requires { HasColumnsOf row.now self.now }
        ensures ok { IfOk result (λ value. value ≡ value_of (value_at row.now) self.now) }
        ensures kind { IfErr result (λ kind. kind ≡ OutOfMemory) }
        ensures memory { IsErr result → IsTrue (has_sum self.now || is_text (value_of (value_at row.now) self.now)) }
    {
        operand_of(alloc, &self.tree, row)?.into_value(alloc)
    }

    /// Returns a copy of the expression.
    ///
    /// # Errors
    /// Fails with `OutOfMemory`.
    pub fn clone(&self, alloc: Global) -> Result<Expr, Error>
        ensures ok { IfOk result (λ expression. expression ≡ self.now) }
        ensures kind { IfErr result (λ kind. kind ≡ OutOfMemory) }
    {
        let tree = copied(alloc, &self.tree)?;
        Ok(Expr { tree })
    }

    /// Returns a copy of the expression whose names are those of the columns that they mean, as `meant_name` has it.
    ///
    /// # Errors
    /// Fails with `OutOfMemory`.
    #[tactic(auto, using(crate::proofs::MeaningLemmas::renamed_is_built))]
    pub fn with_meant_names(&self, alloc: Global, scope: Scope<'_>) -> Result<Expr, Error>
        ensures ok { IfOk result (λ expression. expression
            ≡ renamed (meant scope.entry.table.now scope.entry.columns.now) self.now) }
        ensures kind { IfErr result (λ kind. kind ≡ OutOfMemory) }
    {
        let tree = renamed_tree(alloc, scope, &self.tree)?;
        Ok(Expr { tree })
    }

    /// Returns the names of the columns in the expression, each once.
    ///
    /// # Errors
    /// Fails with `OutOfMemory`.
    pub fn column_names(&self, alloc: Global) -> Result<HashSet<&str>, Error>
        ensures ok { IfOk result (λ names. (name : List ℕ)
            → IsTrue (has_name names name) ↔ Contains (names_in self.now) name) }
        ensures kind { IfErr result (λ kind. kind ≡ OutOfMemory) }
    {
        let mut names = HashSet::new(alloc);
        collect_names(&self.tree, &mut names)?;
        Ok(names)
    }

    pub(crate) fn equated_places(&self, columns: &[Column], width: usize) -> Option<(usize, usize)>
        ensures { result ≡ equated_in columns.now width self.now }
    {
        equated_places(&self.tree, columns, width)
    }

    pub(crate) fn equations(
        &self,
        alloc: Global,
        columns: &[Column],
    ) -> Result<Vec<(usize, usize)>, Error>
        ensures ok { IfOk result (λ equations. equations.items ≡ equations_in columns.now self.now) }
        ensures kind { IfErr result (λ kind. kind ≡ OutOfMemory) }
    {
        let mut equations = Vec::new(alloc);
        add_equations(&self.tree, columns, &mut equations)?;
        Ok(equations)
    }

    pub(crate) fn knows_names(&self, columns: &[Column]) -> bool
        ensures { result ≡ knows_each columns.now self.now }
    {
        knows_names(&self.tree, columns)
    }

    pub(crate) fn knows_meant_names(&self, scope: Scope<'_>) -> bool
        ensures { result ≡ knows_each scope.entry.columns.now
            (renamed (meant scope.entry.table.now scope.entry.columns.now) self.now) }
    {
        knows_meant_names(&self.tree, scope)
    }
}
