ghost use Rattle.std.specs.Prelude.{◌≡◌, ◌≢◌, [], ◌∷◌, IfOk, min};
ghost use Rattle.std.specs.Fmt.{signed_decimal};
ghost use Rattle.hal_base.specs.declared.value.Value.TheVariants as value;
ghost use Rattle.operations.specs.Applied as spec;
ghost use Rattle.operations.specs.declared.operation.Operation.TheVariants as an_operation;

use crate::numbers::truth;
use crate::operation::Operation;
use hal_base::{Memory, Text, Value, read_number};
use itoa::Buffer;
use std::alloc::Global;

/// The most bytes of a text.
const MOST_BYTES: usize = 255;

/// What an operation gives for two texts.
pub(crate) fn of_two_texts(operation: Operation, a: Text, b: Text) -> Result<Option<Value>, Memory>
    ensures { IfOk result (λ found. found ≡ spec.applied operation (value.Text a ∷ value.Text b ∷ [])) }
{
    match operation {
        Operation::Cat => {
            let joined = join(a, &b)?;
            Ok(Some(Value::Text(joined)))
        }
        _ => Ok(compared(operation, &a, &b)),
    }
}

/// What an operation other than `Cat` gives for two texts.
fn compared(operation: Operation, a: &Text, b: &Text) -> Option<Value>
    requires { operation ≢ an_operation.Cat }
    ensures { result ≡ spec.applied operation (value.Text a.now ∷ value.Text b.now ∷ []) }
{
    let order = a.compare(b);
    let holds = match operation {
        Operation::Eq => order.is_eq(),
        Operation::Ne => order.is_ne(),
        Operation::Lt => order.is_lt(),
        Operation::Le => order.is_le(),
        Operation::Gt => order.is_gt(),
        Operation::Ge => order.is_ge(),
        _ => return None,
    };
    Some(Value::Int(truth(holds)))
}

/// The text with the other after it, as far as there is room.
fn join(mut text: Text, more: &Text) -> Result<Text, Memory>
    ensures { IfOk result (λ joined. joined ≡ spec.joined text more.now) }
{
    let room = MOST_BYTES - text.len();
    let bytes = more.as_slice();
    let added = &bytes[..bytes.len().min(room)];
    'added: for byte in added {
        text.push(*byte)?;
    }
    Ok(text)
}

/// The bytes from one on, and no more than so many.
pub(crate) fn cut(alloc: Global, text: &Text, from: i64, count: i64) -> Result<Text, Memory>
    ensures { IfOk result (λ part. part ≡ spec.cut text.now from count) }
{
    let bytes = text.as_slice();
    let start = count_of(from, bytes.len());
    let rest = &bytes[start..];
    let end = count_of(count, rest.len());
    Text::from_bytes(alloc, &rest[..end])
}

/// A number as a count of what there is; a negative one counts as 0.
fn count_of(number: i64, most: usize) -> usize
    ensures { result ≡ min (spec.at_least_zero number) most }
{
    if number < 0 {
        0
    } else {
        (number as usize).min(most)
    }
}

/// The number of which the text is the spelling, or 0.
pub(crate) fn number_in(text: &Text) -> i64
    ensures { result ≡ spec.number_in text.now }
{
    read_number(text.as_slice()).unwrap_or(0)
}

/// The spelling of a number.
#[tactic(auto, using(crate::proofs::Joining::spelling_is_text))]
pub(crate) fn spelling(alloc: Global, number: i64) -> Result<Text, Memory>
    ensures { IfOk result (λ text. text ≡ signed_decimal number) }
{
    let mut digits = Buffer::new();
    Text::from_bytes(alloc, digits.format(number).as_bytes())
}
