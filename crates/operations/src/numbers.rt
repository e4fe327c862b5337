ghost use Rattle.std.specs.Prelude.{◌≡◌, [], ◌∷◌, option_map};
ghost use Rattle.hal_base.specs.declared.value.Value.TheVariants as value;
ghost use Rattle.operations.specs.Applied as spec;

use crate::operation::Operation;
use hal_base::Value;

/// Whether a number counts as true. docs/LANGUAGE.md, "Operations".
pub fn is_true(n: i64) -> bool
    ensures { result ≡ spec.is_true n }
{
    n != 0
}

/// The number of a truth.
pub(crate) fn truth(holds: bool) -> i64
    ensures { result ≡ spec.truth holds }
{
    if holds { 1 } else { 0 }
}

/// What an operation gives for two numbers.
pub(crate) fn of_two_numbers(operation: Operation, a: i64, b: i64) -> Option<Value>
    ensures { result ≡ spec.applied operation (value.Int a ∷ value.Int b ∷ []) }
{
    let number = number_of_two(operation, a, b)?;
    Some(Value::Int(number))
}

/// The number that an operation gives for two numbers, or `None` where it takes others.
#[inline(always)]
pub fn number_of_two(operation: Operation, a: i64, b: i64) -> Option<i64>
    ensures { option_map value.Int result ≡ spec.applied operation (value.Int a ∷ value.Int b ∷ []) }
{
    let order = a.cmp(&b);
    let number = match operation {
        Operation::Add => a.saturating_add(b),
        Operation::Sub => a.saturating_sub(b),
        Operation::Mul => a.saturating_mul(b),
        Operation::Div => quotient(a, b),
        Operation::Rem => remainder(a, b),
        Operation::Min => a.min(b),
        Operation::Max => a.max(b),
        Operation::Eq => truth(order.is_eq()),
        Operation::Ne => truth(order.is_ne()),
        Operation::Lt => truth(order.is_lt()),
        Operation::Le => truth(order.is_le()),
        Operation::Gt => truth(order.is_gt()),
        Operation::Ge => truth(order.is_ge()),
        Operation::And => truth(is_true(a) && is_true(b)),
        Operation::Or => truth(is_true(a) || is_true(b)),
        _ => return None,
    };
    Some(number)
}

/// Rounded towards 0, and 0 where the divisor is 0.
fn quotient(a: i64, b: i64) -> i64
    ensures { result ≡ spec.quotient a b }
{
    if b == 0 { 0 } else { a.saturating_div(b) }
}

/// With the sign of the first, and 0 where the divisor is 0.
fn remainder(a: i64, b: i64) -> i64
    ensures { result ≡ spec.remainder a b }
{
    if b == 0 { 0 } else { a.wrapping_rem(b) }
}
