ghost use Rattle.std.specs.Prelude.{◌≡◌, ◌≤◌};
ghost use Rattle.hal_base.specs.Parts as parts_of;
ghost use Rattle.hal_base.specs.declared.value.Value.TheVariants as a_value;
ghost use Rattle.operations.specs.Applied.{at_least_zero};

use hal_base::{Value, default_part};

/// The distance that a body gives by this number: a negative one counts as 0.
/// docs/LANGUAGE.md, "What functions mean".
pub fn distance_given(number: i64) -> u64
    ensures { result ≡ at_least_zero number }
{
    if number < 0 { 0 } else { number as u64 }
}

/// The part that a body gives by this number, of so many: the number modulo them, never negative.
/// docs/LANGUAGE.md, "What functions mean".
pub fn part_given(number: i64, parts: u32) -> u32
    requires { 1 ≤ parts }
    ensures { result ≡ parts_of.default_part (a_value.Int number) parts }
{
    default_part(&Value::Int(number), parts)
}
