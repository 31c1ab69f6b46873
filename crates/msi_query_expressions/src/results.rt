//! What operators return.

ghost use Rattle.std.specs.Prelude.{◌≡◌, ◌++◌, IfOk, IfErr, IfSome, IsErr, IsTrue, None};
ghost use Rattle.msi_base.specs.declared.errors.ErrorKind.TheVariants.{OutOfMemory};
ghost use Rattle.msi_table_values.specs.Values.{int_of};
ghost use Rattle.msi_table_values.specs.declared.value.Value.TheVariants.{Str};
ghost use Rattle.msi_query_expressions.specs.declared.operators.BinaryOp.TheVariants.{Add, Shl, Shr};
ghost use Rattle.msi_query_expressions.specs.OperatorValues.{is_sum, of_numbers, of_operands, truth};
ghost use Rattle.msi_query_expressions.specs.OperatorValues.{unary_value as value_of_one, binary_value as value_of_two};
ghost use Rattle.msi_query_expressions.specs.Operands.{operand_value, number_or_null as value_or_null};
ghost use Rattle.msi_table_values.specs.Views.{seen_value};

use crate::operands::Operand;
use crate::operators::{BinaryOp, UnaryOp};
use msi_base::errors::Error;
use msi_base::text::Text;
use msi_table_values::parts::ValueView;
use msi_table_values::value::Value;
use std::alloc::Global;

fn number_or_null(number: Option<i32>) -> Value
    ensures { result ≡ value_or_null number }
{
    match number {
        Some(number) => Value::Int(number),
        None => Value::Null,
    }
}

/// Returns what an operator gives of one value.
pub fn unary_value(op: UnaryOp, value: ValueView) -> Value
    ensures { result ≡ value_of_one op (seen_value value.entry) }
{
    match op {
        UnaryOp::Neg => match value {
            ValueView::Int(number) => number_or_null(number.checked_neg()),
            _ => Value::Null,
        },
        UnaryOp::BitNot => match value {
            ValueView::Int(number) => Value::Int(!number),
            _ => Value::Null,
        },
        UnaryOp::BoolNot => Value::from(!value.is_true()),
    }
}

/// Shifts by 0 to 31 bits; Null for another distance.
fn shifted_left(number: i32, distance: i32) -> Value
    ensures { result ≡ of_numbers Shl number distance }
{
    if distance < 0 || distance > 31 {
        return Value::Null;
    }
    Value::Int(number << distance)
}

/// Shifts by 0 to 31 bits; Null for another distance.
fn shifted_right(number: i32, distance: i32) -> Value
    ensures { result ≡ of_numbers Shr number distance }
{
    if distance < 0 || distance > 31 {
        return Value::Null;
    }
    Value::Int(number >> distance)
}

fn value_of_numbers(op: BinaryOp, left: i32, right: i32) -> Value
    ensures { result ≡ of_numbers op left right }
{
    match op {
        BinaryOp::Add => number_or_null(left.checked_add(right)),
        BinaryOp::Sub => number_or_null(left.checked_sub(right)),
        BinaryOp::Mul => number_or_null(left.checked_mul(right)),
        BinaryOp::Div => number_or_null(left.checked_div(right)),
        BinaryOp::BitAnd => Value::Int(left & right),
        BinaryOp::BitOr => Value::Int(left | right),
        BinaryOp::BitXor => Value::Int(left ^ right),
        BinaryOp::Shl => shifted_left(left, right),
        BinaryOp::Shr => shifted_right(left, right),
        _ => Value::Null,
    }
}

/// A text that was computed keeps its memory.
fn joined(text: Text, rest: &str) -> Result<Text, Error>
    ensures ok { IfOk result (λ whole. whole ≡ text ++ rest.now) }
    ensures kind { IfErr result (λ kind. kind ≡ OutOfMemory) }
{
    let mut whole = text.into_string();
    whole.push_str(rest)?;
    Ok(Text::from_string(whole))
}

fn joined_copy(alloc: Global, text: &str, rest: &str) -> Result<Text, Error>
    ensures ok { IfOk result (λ whole. whole ≡ text.now ++ rest.now) }
    ensures kind { IfErr result (λ kind. kind ≡ OutOfMemory) }
{
    let mut whole = String::with_capacity(alloc, text.len().saturating_add(rest.len()))?;
    whole.push_str(text)?;
    whole.push_str(rest)?;
    Ok(Text::from_string(whole))
}

fn joined_view(alloc: Global, left: ValueView, rest: &str) -> Result<Value, Error>
    ensures ok { IfOk result (λ value. value ≡ of_operands Add (seen_value left.entry) (Str rest.now)) }
    ensures kind { IfErr result (λ kind. kind ≡ OutOfMemory) }
{
    match left {
        ValueView::Str(text) => Ok(Value::Str(joined_copy(alloc, text, rest)?)),
        _ => Ok(Value::Null),
    }
}

fn joined_value(left: Value, rest: &str) -> Result<Value, Error>
    ensures ok { IfOk result (λ value. value ≡ of_operands Add left (Str rest.now)) }
    ensures kind { IfErr result (λ kind. kind ≡ OutOfMemory) }
{
    match left {
        Value::Str(text) => Ok(Value::Str(joined(text, rest)?)),
        _ => Ok(Value::Null),
    }
}

fn joined_texts(alloc: Global, left: Operand, right: ValueView) -> Result<Value, Error>
    ensures ok { IfOk result (λ value. int_of (operand_value left.entry) ≡ None
        → value ≡ of_operands Add (operand_value left.entry) (seen_value right.entry)) }
    ensures kind { IfErr result (λ kind. kind ≡ OutOfMemory) }
{
    match right {
        ValueView::Str(rest) => match left {
            Operand::Borrowed(view) => joined_view(alloc, view, rest),
            Operand::Computed(value) => joined_value(value, rest),
        },
        _ => Ok(Value::Null),
    }
}

/// Serves the operators that compare nothing. Only a sum may fail.
fn arithmetic(alloc: Global, op: BinaryOp, left: Operand, right: ValueView) -> Result<Value, Error>
    ensures ok { IfOk result (λ value. value ≡ of_operands op (operand_value left.entry) (seen_value right.entry)) }
    ensures kind { IfErr result (λ kind. kind ≡ OutOfMemory) }
    ensures memory { IsErr result → IsTrue (is_sum op) }
{
    match left.as_view() {
        ValueView::Int(number) => match right {
            ValueView::Int(other) => Ok(value_of_numbers(op, number, other)),
            _ => Ok(Value::Null),
        },
        _ => match op {
            BinaryOp::Add => joined_texts(alloc, left, right),
            _ => Ok(Value::Null),
        },
    }
}

fn compared(op: BinaryOp, left: ValueView, right: ValueView) -> Option<bool>
    ensures says { let value = value_of_two op (seen_value left.entry) (seen_value right.entry) in
        IfSome result (λ holds. value ≡ truth holds) }
    ensures other { let value = value_of_two op (seen_value left.entry) (seen_value right.entry) in
        result ≡ None → value ≡ of_operands op (seen_value left.entry) (seen_value right.entry) }
{
    match op {
        BinaryOp::Eq => Some(left.compare(right).is_eq()),
        BinaryOp::Ne => Some(left.compare(right).is_ne()),
        BinaryOp::Lt => Some(left.compare(right).is_lt()),
        BinaryOp::Le => Some(left.compare(right).is_le()),
        BinaryOp::Gt => Some(left.compare(right).is_gt()),
        BinaryOp::Ge => Some(left.compare(right).is_ge()),
        _ => None,
    }
}

/// Returns what an operator gives of two operands.
///
/// # Errors
/// Fails with `OutOfMemory`, and only for a sum.
pub fn binary_value(
    alloc: Global,
    op: BinaryOp,
    left: Operand,
    right: ValueView,
) -> Result<Value, Error>
    ensures ok { IfOk result (λ value. value ≡ value_of_two op (operand_value left.entry) (seen_value right.entry)) }
    ensures kind { IfErr result (λ kind. kind ≡ OutOfMemory) }
    ensures memory { IsErr result → IsTrue (is_sum op) }
{
    match compared(op, left.as_view(), right) {
        Some(holds) => Ok(Value::from(holds)),
        None => arithmetic(alloc, op, left, right),
    }
}
