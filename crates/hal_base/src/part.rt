ghost use Rattle.std.specs.Prelude.{◌≡◌, ◌<◌, ◌≤◌};
ghost use Rattle.hal_base.specs.Parts as spec;

use crate::value::Value;

/// The number of the part, of so many, that a key belongs to where a program names no partition.
/// docs/SEMANTICS.md, "Parts".
pub fn default_part(key: &Value, parts: u32) -> u32
    requires { 1 ≤ parts }
    ensures part { result ≡ spec.default_part key.now parts }
    ensures within { result < parts }
{
    match key {
        Value::Int(n) => n.rem_euclid(parts as i64) as u32,
        Value::Text(text) => text_number(text.as_slice()) % parts,
    }
}

fn text_number(bytes: &[u8]) -> u32
    ensures { result ≡ spec.text_number 0 bytes.now }
{
    let mut number: u32 = 0;
    'bytes: for byte in bytes {
        number = number.wrapping_mul(31).wrapping_add(*byte as u32);
    }
    number
}
