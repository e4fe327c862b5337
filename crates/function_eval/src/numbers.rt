ghost use Rattle.std.specs.Prelude.{◌≡◌, Some, IfSome, option_map, slice_get};
ghost use Rattle.hal_base.specs.declared.value.Value.TheVariants as a_value;
ghost use Rattle.function_meaning.specs.Expressions.{round_value};
ghost use Rattle.function_eval.specs.steps.Machine.{slot_call};
ghost use Rattle.function_eval.specs.steps.Slots.{slot_value};

use crate::resolved::ResolvedExpr;
use crate::running::Frame;
use hal_base::Value;
use operations::{Operation, number_of_two};

/// The number that an expression comes to, where it is made of numbers alone. `None` says nothing of its value.
/// Most expressions are so made, and of them no value is moved: numbers stay in registers.
#[cycle(plain_number)]
#[inline(always)]
pub(crate) fn plain_number(frame: &Frame, slots: &[Value], expr: &ResolvedExpr) -> Option<i64>
    ensures { IfSome result (λ n. slot_value frame.now.round slots.now expr.now ≡ Some (a_value.Int n)) }
{
    match expr {
        ResolvedExpr::Int(n) => Some(*n),
        ResolvedExpr::Slot(at) => number_in_slot(slots, *at),
        ResolvedExpr::Round => round_number(frame.round),
        ResolvedExpr::Call(operation, args) => plain_call(
            frame,
            slots,
            *operation,
            args.as_slice(),
        ),
        _ => None,
    }
}

/// The number that a call of two such arguments comes to.
#[cycle(plain_number)]
#[inline(never)]
fn plain_call(
    frame: &Frame,
    slots: &[Value],
    operation: Operation,
    args: &[ResolvedExpr],
) -> Option<i64>
    ensures { IfSome result (λ n. slot_call frame.now.round slots.now operation args.now ≡ Some (a_value.Int n)) }
{
    let [a, b] = args else {
        return None;
    };
    let a = plain_number(frame, slots, a)?;
    let b = plain_number(frame, slots, b)?;
    number_of_two(operation, a, b)
}

/// The round as a number, if there is one.
fn round_number(round: Option<u32>) -> Option<i64>
    ensures { option_map a_value.Int result ≡ option_map round_value round }
{
    match round {
        Some(round) => Some(i64::from(round)),
        None => None,
    }
}

/// The number in a slot.
fn number_in_slot(slots: &[Value], at: usize) -> Option<i64>
    ensures { IfSome result (λ n. slice_get slots.now at ≡ Some (a_value.Int n)) }
{
    match slots.get(at) {
        Some(Value::Int(n)) => Some(*n),
        _ => None,
    }
}
