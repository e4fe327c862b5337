ghost use Rattle.std.specs.Prelude.{◌≡◌, [], ◌∷◌, IfOk};
ghost use Rattle.operations.specs.Applied as spec;

use crate::numbers::{is_true, of_two_numbers, truth};
use crate::operation::Operation;
use crate::texts::{cut, number_in, of_two_texts, spelling};
use hal_base::{Memory, Text, Value};
use std::alloc::Global;

/// What an operation gives for one argument, or `None` where it takes others. docs/LANGUAGE.md,
/// "Operations".
pub fn apply_to_one(alloc: Global, operation: Operation, a: Value) -> Result<Option<Value>, Memory>
    ensures { IfOk result (λ value. value ≡ spec.applied operation (a ∷ [])) }
{
    match (operation, a) {
        (Operation::Not, Value::Int(a)) => Ok(Some(Value::Int(truth(!is_true(a))))),
        (Operation::Txt, Value::Int(a)) => {
            let text = spelling(alloc, a)?;
            Ok(Some(Value::Text(text)))
        }
        (Operation::Len, Value::Text(a)) => Ok(Some(Value::Int(a.len() as i64))),
        (Operation::Num, Value::Text(a)) => Ok(Some(Value::Int(number_in(&a)))),
        _ => Ok(None),
    }
}

/// What an operation gives for two arguments, or `None` where it takes others. docs/LANGUAGE.md,
/// "Operations".
pub fn apply_to_two(operation: Operation, a: Value, b: Value) -> Result<Option<Value>, Memory>
    ensures { IfOk result (λ value. value ≡ spec.applied operation (a ∷ b ∷ [])) }
{
    match (a, b) {
        (Value::Int(a), Value::Int(b)) => Ok(of_two_numbers(operation, a, b)),
        (Value::Text(a), Value::Text(b)) => of_two_texts(operation, a, b),
        _ => Ok(None),
    }
}

/// What an operation gives for three arguments, or `None` where it takes others. docs/LANGUAGE.md,
/// "Operations".
pub fn apply_to_three(
    alloc: Global,
    operation: Operation,
    a: Value,
    b: Value,
    c: Value,
) -> Result<Option<Value>, Memory>
    ensures { IfOk result (λ value. value ≡ spec.applied operation (a ∷ b ∷ c ∷ [])) }
{
    match operation {
        Operation::Cut => cut_value(alloc, a, b, c),
        Operation::Pick => Ok(pick(a, b, c)),
        _ => Ok(None),
    }
}

/// A part of a text.
fn cut_value(alloc: Global, a: Value, b: Value, c: Value) -> Result<Option<Value>, Memory>
    ensures { IfOk result (λ value. value ≡ spec.of_cut (a ∷ b ∷ c ∷ [])) }
{
    match (a, b, c) {
        (Value::Text(text), Value::Int(from), Value::Int(count)) => {
            let part = cut(alloc, &text, from, count)?;
            Ok(Some(Value::Text(part)))
        }
        _ => Ok(None),
    }
}

/// One of two values of one kind.
fn pick(test: Value, a: Value, b: Value) -> Option<Value>
    ensures { result ≡ spec.of_choice (test ∷ a ∷ b ∷ []) }
{
    match (test, a, b) {
        (Value::Int(test), Value::Int(a), Value::Int(b)) => {
            Some(Value::Int(if is_true(test) { a } else { b }))
        }
        (Value::Int(test), Value::Text(a), Value::Text(b)) => {
            Some(Value::Text(if is_true(test) { a } else { b }))
        }
        _ => None,
    }
}
