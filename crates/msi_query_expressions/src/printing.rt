//! How operators print: the text of each, and how tightly it binds.

ghost use Rattle.std.specs.Prelude.{◌≡◌, ◌<◌};
ghost use Rattle.msi_query_expressions.specs.OperatorTexts.{op_level, op_text, right_level, unary_text};

use crate::operators::{BinaryOp, UnaryOp};

/// Returns the text that stands in front of the operand.
pub fn prefix_text(op: UnaryOp) -> &'static str
    ensures { result.now ≡ unary_text op }
{
    match op {
        UnaryOp::Neg => "-",
        UnaryOp::BitNot => "~",
        UnaryOp::BoolNot => "NOT ",
    }
}

/// Returns the text that stands between the operands.
pub fn operator_text(op: BinaryOp) -> &'static str
    ensures { result.now ≡ op_text op }
{
    match op {
        BinaryOp::Eq => " = ",
        BinaryOp::Ne => " != ",
        BinaryOp::Lt => " < ",
        BinaryOp::Le => " <= ",
        BinaryOp::Gt => " > ",
        BinaryOp::Ge => " >= ",
        BinaryOp::Add => " + ",
        BinaryOp::Sub => " - ",
        BinaryOp::Mul => " * ",
        BinaryOp::Div => " / ",
        BinaryOp::BitAnd => " & ",
        BinaryOp::BitOr => " | ",
        BinaryOp::BitXor => " ^ ",
        BinaryOp::Shl => " << ",
        BinaryOp::Shr => " >> ",
    }
}

/// Returns how tightly the operator binds, where `OR` has 1 and what needs no brackets 10. A left operand of this
/// level or above stands without brackets.
pub fn operator_level(op: BinaryOp) -> u8
    ensures level { result ≡ op_level op }
    ensures below { result < 10 }
{
    match op {
        BinaryOp::Eq | BinaryOp::Ne | BinaryOp::Lt | BinaryOp::Le | BinaryOp::Gt | BinaryOp::Ge =>
            3,
        BinaryOp::BitOr => 4,
        BinaryOp::BitXor => 5,
        BinaryOp::BitAnd => 6,
        BinaryOp::Shl | BinaryOp::Shr => 7,
        BinaryOp::Add | BinaryOp::Sub => 8,
        BinaryOp::Mul | BinaryOp::Div => 9,
    }
}

/// Returns the level from which a right operand stands without brackets. Equal levels group to the left, so it is one
/// above the operator's own.
pub fn right_operand_level(op: BinaryOp) -> u8
    ensures { result ≡ right_level op }
{
    operator_level(op) + 1
}
