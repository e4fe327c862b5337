ghost use Rattle.std.specs.Prelude.{◌≡◌, ◌≤◌, ◌++◌, IfOk, OnErr, OnOk, option_map, map, slice_get};
ghost use Rattle.std.specs.Option.{option_copied};
ghost use Rattle.type_checker.specs.declared.uses.Use.TheVariants as a_use;
ghost use Rattle.function_eval.specs.Evaluated.{evaluated};
ghost use Rattle.function_meaning.specs.Meanings.{distance_used, map_used, partition_used, reduce_used};
ghost use Rattle.function_meaning.specs.Optional.{or_none, or_zero};
ghost use Rattle.function_eval.specs.steps.Resolved.{function_resolved};

use crate::calls::{run_distance, run_map, run_partition, run_reduce};
use crate::resolve::resolve_function;
use crate::resolved::ResolvedFunction;
use hal_base::{Functions, Group, Groups, Items, Memory, Record, Records, Value, default_part};
use predefined_functions::{differ, every, hop, least, same};
use std::alloc::Global;
use std::marker::Model;
use type_checker::{Typed, Use, Uses};

/// The functions of a program, ready to run: each name has become a slot. docs/LANGUAGE.md, "What functions
/// mean".
#[derive(Drop)]
pub struct Evaluator {
    typed: Typed,
    functions: Items<ResolvedFunction>,
    uses: Uses,
    parts: u32,
}

impl Model for Evaluator {
    ghost use Rattle.std.specs.Prelude.{◌≡◌, ◌≤◌, map};
    ghost use Rattle.std.specs.Coded.{codes};
    ghost use Rattle.function_language.specs.contracts.tree.Expr as expr;
    ghost use Rattle.function_language.specs.contracts.tree.Statement as statement;
    ghost use Rattle.function_eval.specs.Evaluated.{Evaluated, evaluated};
    ghost use Rattle.function_eval.specs.steps.Resolved.{function_resolved};

    ghost Value = { Evaluated };

    ghost coded = { Prim.hlevel (codes, expr.the_row.coded, statement.the_row.coded) };

    ghost view = { λ e. evaluated e.typed e.uses e.parts };

    ghost invariant = { λ e. (e.functions ≡ map function_resolved e.typed) × (1 ≤ e.parts) };
}

impl Evaluator {
    /// The functions of these uses over so many parts.
    pub fn new(alloc: Global, typed: Typed, uses: Uses, parts: u32) -> Result<Evaluator, Memory>
        requires { 1 ≤ parts }
        ensures { IfOk result (λ made. made ≡ evaluated typed uses parts) }
    {
        let functions = resolve_functions(alloc, &typed)?;
        Ok(Evaluator {
            typed,
            functions,
            uses,
            parts,
        })
    }
}

/// Each function with slots in place of names.
fn resolve_functions(alloc: Global, typed: &Typed) -> Result<Items<ResolvedFunction>, Memory>
    ensures { IfOk result (λ made. made ≡ map function_resolved typed.now) }
{
    let mut made = Items::new(alloc);
    'functions: for function in typed.tree().as_slice() {
        made.push(resolve_function(alloc, function)?)?;
    }
    Ok(made)
}

impl Evaluator {
    /// Into how many parts records are dealt.
    fn parts(&self) -> u32
        ensures value { result ≡ self.now.parts }
        ensures some { 1 ≤ result }
    {
        self.parts
    }

    /// The function of this number, with slots.
    fn resolved(&self, number: u32) -> Option<&ResolvedFunction>
        ensures { option_copied result ≡ option_map function_resolved (slice_get self.now.functions number) }
    {
        self.functions.get(number as usize)
    }
}

impl Functions for Evaluator {
    ghost use Rattle.function_meaning.specs.Meanings.{meaning_of};
    ghost use Rattle.function_meaning.specs.steps.MeaningLaws.{key_law, round_law, value_law};

    ghost meaning = { λ e. meaning_of e.functions e.uses e.parts };

    fn map(
        &self,
        alloc: Global,
        round: u32,
        step: u32,
        source: u32,
        row: &Record,
        out: &mut Records,
    ) -> Result<(), Memory> {
        match self.uses.map_at(step, source) {
            Some(Use::Same) => same(alloc, row, out),
            Some(Use::Function(number)) => self.map_by(alloc, number, round, row, out),
            _ => Ok(()),
        }
    }

    fn reduce(
        &self,
        alloc: Global,
        round: u32,
        step: u32,
        key: &Value,
        groups: &Groups,
        out: &mut Records,
    ) -> Result<(), Memory> {
        match self.uses.reduce_at(step) {
            Some(Use::Least) => least(alloc, key, groups, out),
            Some(Use::Every) => every(alloc, key, groups, out),
            Some(Use::Hop) => hop(alloc, key, groups, out),
            Some(Use::Function(number)) => self.reduce_by(alloc, number, round, key, groups, out),
            _ => Ok(()),
        }
    }

    fn partition(&self, alloc: Global, round: u32, step: u32, key: &Value) -> Result<u32, Memory> {
        match self.uses.partition_at(step) {
            Some(Use::Default) => Ok(default_part(key, self.parts())),
            Some(Use::Function(number)) => self.partition_by(alloc, number, round, key),
            _ => Ok(0),
        }
    }

    fn distance(
        &self,
        alloc: Global,
        key: &Value,
        old: &Group,
        new: &Group,
    ) -> Result<u64, Memory> {
        match self.uses.distance {
            Use::Default => Ok(differ(old, new)),
            Use::Function(number) => self.distance_by(alloc, number, key, old, new),
            _ => Ok(0),
        }
    }

    fn map_uses_round(&self, step: u32, source: u32) -> bool {
        self.typed.round_used(self.uses.map_at(step, source))
    }

    fn map_is_same(&self, step: u32, source: u32) -> bool {
        matches!(self.uses.map_at(step, source), Some(Use::Same))
    }

    fn partition_uses_round(&self, step: u32) -> bool {
        self.typed.round_used(self.uses.partition_at(step))
    }

    fn keeps_key(&self, step: u32) -> bool {
        self.typed.key_kept(self.uses.reduce_at(step))
    }

    ghost round_law = { λ e. round_law e.functions e.uses e.parts };

    ghost key_law = { λ e. key_law e.functions e.uses e.parts };

    ghost value_law = { λ e. value_law e.functions e.uses e.parts };
}

impl Evaluator {
    /// Adds what the map of this number emits for a record. After `Memory` `out` is as before.
    fn map_by(
        &self,
        alloc: Global,
        number: u32,
        round: u32,
        row: &Record,
        out: &mut Records,
    ) -> Result<(), Memory>
        ensures appended { OnOk result (out.new ≡ out.old ++ or_none (map_used self.now.functions round row.now (a_use.Function number))) }
        ensures unchanged { OnErr result (out.new ≡ out.old) }
    {
        match self.resolved(number) {
            Some(function) => run_map(alloc, function, round, row, out),
            None => Ok(()),
        }
    }

    /// Adds what the reduce of this number emits for a key and its groups. After `Memory` `out` is as before.
    fn reduce_by(
        &self,
        alloc: Global,
        number: u32,
        round: u32,
        key: &Value,
        groups: &Groups,
        out: &mut Records,
    ) -> Result<(), Memory>
        ensures appended { OnOk result (out.new ≡ out.old ++ or_none (reduce_used self.now.functions round key.now groups.now (a_use.Function number))) }
        ensures unchanged { OnErr result (out.new ≡ out.old) }
    {
        match self.resolved(number) {
            Some(function) => run_reduce(alloc, function, round, key, groups, out),
            None => Ok(()),
        }
    }

    /// The part of a key by the partition of this number.
    fn partition_by(
        &self,
        alloc: Global,
        number: u32,
        round: u32,
        key: &Value,
    ) -> Result<u32, Memory>
        ensures { IfOk result (λ part. part ≡ or_zero (partition_used self.now.functions self.now.parts round key.now (a_use.Function number))) }
    {
        match self.resolved(number) {
            Some(function) => run_partition(alloc, function, round, self.parts(), key),
            None => Ok(0),
        }
    }

    /// The distance of two groups of a key by the distance of this number.
    fn distance_by(
        &self,
        alloc: Global,
        number: u32,
        key: &Value,
        old: &Group,
        new: &Group,
    ) -> Result<u64, Memory>
        ensures { IfOk result (λ distance. distance ≡ or_zero (distance_used self.now.functions key.now old.now new.now (a_use.Function number))) }
    {
        match self.resolved(number) {
            Some(function) => run_distance(alloc, function, key, old, new),
            None => Ok(0),
        }
    }
}
