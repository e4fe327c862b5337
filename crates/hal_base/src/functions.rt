ghost use Rattle.std.specs.Prelude.{◌≡◌, ℕ, ◌∷◌, [], ◌++◌, true, IfOk, OnOk, OnErr};
ghost use Rattle.hal_base.specs.declared.record.Record.{Record as Row};
ghost use Rattle.hal_base.specs.Meaning.{Meaning, RoundLaw, KeyLaw, ValueLaw};

use crate::memory::Memory;
use crate::record::{Group, Groups, Record, Records};
use crate::value::Value;
use std::alloc::Global;

/// The functions of a program. Rounds, steps and the sources of a step count from 1.
/// docs/SEMANTICS.md, "Functions".
pub trait Functions {
    /// What each function means on values.
    ghost meaning: { Self → Meaning };

    /// Adds to `out` what the map of this source emits for a record. After `Memory` `out` is as before.
    fn map(
        &self,
        alloc: Global,
        round: u32,
        step: u32,
        source: u32,
        row: &Record,
        out: &mut Records,
    ) -> Result<(), Memory>
        ensures appended { OnOk result (out.new ≡ out.old ++ (meaning self.now).map round step source row.now) }
        ensures unchanged { OnErr result (out.new ≡ out.old) };

    /// Adds to `out` what the reduce of this step emits for a key and its groups, one group for each
    /// source. After `Memory` `out` is as before.
    fn reduce(
        &self,
        alloc: Global,
        round: u32,
        step: u32,
        key: &Value,
        groups: &Groups,
        out: &mut Records,
    ) -> Result<(), Memory>
        ensures appended { OnOk result (out.new ≡ out.old ++ (meaning self.now).reduce round step key.now groups.now) }
        ensures unchanged { OnErr result (out.new ≡ out.old) };

    /// The number of the part that a key belongs to.
    fn partition(&self, alloc: Global, round: u32, step: u32, key: &Value) -> Result<u32, Memory>
        ensures { IfOk result (λ part. part ≡ (meaning self.now).partition round step key.now) };

    /// How far the field lists of a key are from those of the round before.
    fn distance(&self, alloc: Global, key: &Value, old: &Group, new: &Group) -> Result<u64, Memory>
        ensures { IfOk result (λ distance. distance ≡ (meaning self.now).distance key.now old.now new.now) };

    /// Whether the map of this source may mean something else in another round.
    fn map_uses_round(&self, step: u32, source: u32) -> bool
        ensures { result ≡ (meaning self.now).map_uses_round step source };

    /// Whether the map of this source emits each record as it is. `false` says nothing.
    fn map_is_same(&self, step: u32, source: u32) -> bool
        ensures { result ≡ true → (round : ℕ) (row : Row) → (meaning self.now).map round step source row ≡ row ∷ [] };

    /// Whether the partition of this step may mean something else in another round.
    fn partition_uses_round(&self, step: u32) -> bool
        ensures { result ≡ (meaning self.now).partition_uses_round step };

    /// Whether each record that the reduce of this step emits has its group's key.
    fn keeps_key(&self, step: u32) -> bool
        ensures { result ≡ (meaning self.now).keeps_key step };

    ghost round_law: { (f : Self) → RoundLaw (meaning f) };

    ghost key_law: { (f : Self) → KeyLaw (meaning f) };

    ghost value_law: { (f : Self) → ValueLaw (meaning f) };
}
