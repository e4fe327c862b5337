ghost use Rattle.std.specs.Prelude.{◌≡◌, ◌≤◌, ◌↔◌, ℕ, List, Some, IsTrue};
ghost use Rattle.hal_outside.specs.Told.{Rose};
ghost use Rattle.hal_outside.specs.DiskCalls as call;
ghost use Rattle.hal_outside.specs.DiskCalls.{answer_of};
ghost use Rattle.hal_outside.specs.DiskTold.{IsAnswer, IsWanted, OnMiss};
ghost use Rattle.sha2.specs.Sha256.{sha256};

use crate::got::Got;
use node_names::Digest;
use sha2::{Digest as Hasher, Sha256};

/// Whether the SHA-256 of the bytes is this one.
pub(crate) fn has_digest(bytes: &[u8], digest: &Digest) -> bool
    ensures { IsTrue result ↔ (sha256 bytes.now ≡ digest.now.0) }
{
    let own: [u8; 32] = Sha256::digest(bytes);
    own.as_slice() == digest.0.as_slice()
}

/// What a read is answered where the file has these bytes.
pub fn answer_with(bytes: Vec<u8>, want: &Digest) -> Got
    ensures answer { IsAnswer (Some bytes.items) want.now.0 (answer_of result) }
    ensures wanted { IsWanted want.now.0 (answer_of result) }
{
    if has_digest(bytes.as_slice(), want) {
        Got::Same(bytes)
    } else {
        Got::Other
    }
}

/// The count of misses after a read that is answered so. It stops at its last value.
pub fn misses_after(misses: u64, got: &Got) -> u64
    ensures stay { misses ≤ result }
    ensures missed { OnMiss (answer_of got.now) (Rose misses result) }
    ensures found { (bytes : List ℕ) → answer_of got.now ≡ call.Same bytes → result ≡ misses }
{
    match got {
        Got::Same(_) => misses,
        Got::Gone | Got::Other => misses.saturating_add(1),
    }
}
