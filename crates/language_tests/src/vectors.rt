ghost use Rattle.std.specs.Prelude.{◌≡◌, Some};
ghost use Rattle.language_tests.specs.Vectors.{IsKeyPart, small_tokens};
ghost use Rattle.language_tests.specs.Worked.{WorkedVectors, greatest};
ghost use Rattle.program_tokens.specs.Tokens.{AreTokensOf};

use operations::{Operation, number_of_two};

/// A text with a comment, whose tokens were written down by hand.
pub fn small_text() -> &'static [u8]
    ensures { AreTokensOf result.now small_tokens }
{
    b"a->b_1\n# b\n\"c\\\"\\\\\""
}

/// A text of one function, whose tree was written down by hand.
pub fn key_part() -> &'static [u8]
    ensures { IsKeyPart result.now }
{
    b"partition f(k: int) {\n  give(k); }"
}

/// The definitions give what was computed by hand: for operations, at the ends of 64 bits among others, and
/// for a reduce that counts.
pub fn worked_vectors()
    ensures { WorkedVectors }
{}

/// The sum of the greatest number of 64 bits and 1, which is the greatest.
#[tactic(auto, using(crate::proofs::Numbers::number_found))]
pub fn greatest_and_one() -> Option<i64>
    ensures { result ≡ Some greatest }
{
    number_of_two(Operation::Add, i64::MAX, 1)
}
