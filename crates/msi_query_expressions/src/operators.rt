//! The operators that fold: with one operand, and with two.

/// An operator with one operand.
#[derive(Clone, Copy, PartialEq, Eq, Debug, Drop)]
pub enum UnaryOp {
    /// `-`
    Neg,
    /// `~`
    BitNot,
    /// `NOT`
    BoolNot,
}

/// An operator with two operands that folds.
#[derive(Clone, Copy, PartialEq, Eq, Debug, Drop)]
pub enum BinaryOp {
    /// `=`
    Eq,
    /// `!=`
    Ne,
    /// `<`
    Lt,
    /// `<=`
    Le,
    /// `>`
    Gt,
    /// `>=`
    Ge,
    /// `+`
    Add,
    /// `-`
    Sub,
    /// `*`
    Mul,
    /// `/`
    Div,
    /// `&`
    BitAnd,
    /// `|`
    BitOr,
    /// `^`
    BitXor,
    /// `<<`
    Shl,
    /// `>>`
    Shr,
}
