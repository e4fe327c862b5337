ghost use Rattle.std.specs.Prelude.{◌≡◌, ◌++◌, decimal, ℤ, OnOk, IfSome, IfNone, IsTrue, ◌↔◌, ◌≢◌, FitsSigned};
ghost use Rattle.std.specs.Int.{w64};
ghost use Rattle.std.specs.Fmt.{signed_decimal};
ghost use Rattle.hal_base.specs.steps.Numbers.{canonical_front};

use crate::memory::Memory;
use itoa::Buffer;

/// Adds these words, and the digits of a number.
pub fn append_number(out: &mut Vec<u8>, words: &[u8], number: u64) -> Result<(), Memory>
    ensures { OnOk result (out.new.items ≡ out.old.items ++ (words.now ++ decimal number)) }
{
    let mut digits = Buffer::new();
    out.extend_from_slice(words)?;
    out.extend_from_slice(digits.format(number).as_bytes())?;
    Ok(())
}

/// The number that is spelled so: `0`, or an optional `-` and digits that do not begin with 0.
pub fn read_number(piece: &[u8]) -> Option<i64>
    ensures found { IfSome result (λ n. piece.now ≡ signed_decimal n) }
    ensures only { IfNone result ((n : ℤ) → FitsSigned w64 n → piece.now ≡ signed_decimal n → ⊥) }
{
    if !may_be_canonical(piece) {
        return None;
    }
    match str::from_utf8(piece) {
        Ok(text) => match text.parse::<i64>() {
            Ok(n) => Some(n),
            Err(_) => None,
        },
        Err(_) => None,
    }
}

/// Whether the piece has neither a `+` nor a 0 in front that the spelling of a number has not.
fn may_be_canonical(piece: &[u8]) -> bool
    ensures { result ≡ canonical_front piece.now }
{
    match piece {
        [b'0'] => true,
        [b'0', ..] | [b'+', ..] | [b'-', b'0', ..] => false,
        _ => true,
    }
}
