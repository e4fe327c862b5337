ghost use Rattle.std.specs.Prelude.{◌≡◌, ℕ, ◌<◌, ◌≤◌, ◌↔◌, IsTrue, List, [], ◌∷◌, ◌++◌, length, slice_get, IfOk, OnErr, OnOk};
ghost use Rattle.std.specs.Option.{option_copied};
ghost use Rattle.std.specs.Cmp.Lexicographic.{slice_cmp};
ghost use Rattle.std.specs.Ordering.{nat_cmp};
ghost use Rattle.hal_base.specs.Text.{IsText};

use crate::items::CopyIn;
use crate::memory::Memory;
use smallvec::SmallVec;
use std::alloc::Global;
use std::cmp::Ordering;
use std::marker::Model;

/// At most 255 bytes from 0x20 to 0x7E, of which the first sixteen need no allocation.
#[derive(Drop)]
pub struct Text {
    bytes: SmallVec<u8, 16>,
}

impl Model for Text {
    ghost use Rattle.std.specs.Prelude.{ℕ, List};
    ghost use Rattle.hal_base.specs.Text.{IsText};

    ghost Value = { List ℕ };

    ghost view = { λ t. t.bytes.items };

    ghost invariant = { λ t. IsText t.bytes.items };
}

impl Text {
    pub fn new(alloc: Global) -> Text
        ensures { result ≡ [] }
    {
        Text {
            bytes: SmallVec::new(alloc),
        }
    }

    pub fn from_bytes(alloc: Global, bytes: &[u8]) -> Result<Text, Memory>
        requires { IsText bytes.now }
        ensures { IfOk result (λ text. text ≡ bytes.now) }
    {
        Ok(Text {
            bytes: SmallVec::from_slice(alloc, bytes)?,
        })
    }

    #[tactic(auto, using(crate::proofs::TextLaws::text_is_utf8))]
    pub fn as_str(&self) -> &str
        ensures { result.now ≡ self.now }
    {
        match str::from_utf8(self.bytes.as_slice()) {
            Ok(text) => text,
            Err(_) => unreachable!(),
        }
    }

    pub fn len(&self) -> usize
        ensures len { result ≡ length self.now }
        ensures text { IsText self.now }
    {
        self.bytes.len()
    }

    pub fn get(&self, at: usize) -> Option<&u8>
        ensures { option_copied result ≡ slice_get self.now at }
    {
        self.bytes.as_slice().get(at)
    }

    /// Adds a byte at the end. After `Memory` the text is as before.
    pub fn push(&mut self, byte: u8) -> Result<(), Memory>
        requires room { length self.old < 255 }
        requires low { 32 ≤ byte }
        requires high { byte ≤ 126 }
        ensures pushed { OnOk result (self.new ≡ self.old ++ byte ∷ []) }
        ensures unchanged { OnErr result (self.new ≡ self.old) }
    {
        self.bytes.push(byte).map_err(|_| Memory)
    }

    pub fn as_slice(&self) -> &[u8]
        ensures value { result.now ≡ self.now }
        ensures text { IsText self.now }
    {
        self.bytes.as_slice()
    }

    /// By bytes.
    pub fn compare(&self, other: &Text) -> Ordering
        ensures { result ≡ slice_cmp nat_cmp self.now other.now }
    {
        self.bytes.as_slice().cmp(other.bytes.as_slice())
    }
}

impl CopyIn for Text {
    fn copy(&self, alloc: Global) -> Result<Text, Memory> {
        Ok(Text {
            bytes: SmallVec::from_slice(alloc, self.bytes.as_slice())?,
        })
    }
}

/// Whether these bytes can be a text.
pub(crate) fn is_text(bytes: &[u8]) -> bool
    ensures { IsTrue result ↔ IsText bytes.now }
{
    bytes.len() <= 255 && bytes.iter().all(|byte| 32 <= *byte && *byte <= 126)
}
