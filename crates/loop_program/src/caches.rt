ghost use Rattle.std.specs.List.{AllByRecursion};
ghost use Rattle.std.specs.Prelude.{◌≡◌, ◌<◌, ◌≤◌, suc, length, IfOk};
ghost use Rattle.hal_base.specs.Shapes.{HasFewSources};
ghost use Rattle.loop_program.specs.Caches as spec;
ghost use Rattle.loop_program.specs.Caches.{verdict_flags};
ghost use Rattle.loop_program.specs.Flags.{flagged_source, flagged_sources, flagged_steps};

use crate::verdict::Verdict;
use hal_base::{Memory, Origin, Source, Sources, Step, Steps};
use program_sketch::Asked;
use std::alloc::Global;
use type_checker::{Typed, Uses};

// ---- verdicts

/// The verdict on the reducer input cache of a source, which takes its records from here. Steps and sources count from 1.
/// docs/LANGUAGE.md, "Caches".
pub fn input_verdict(
    functions: &Typed,
    uses: &Uses,
    asked: Asked,
    step: u32,
    source: u32,
    from: Origin,
) -> Verdict
    ensures { result ≡ spec.input_verdict functions.now uses.now asked step source from }
{
    if is_remade(from) {
        Verdict::NotInvariant
    } else if is_of_one_round(from) {
        Verdict::OneRoundOnly
    } else if functions.round_used(uses.map_at(step, source)) {
        Verdict::UsesRound
    } else if functions.round_used(uses.partition_at(step)) {
        Verdict::PartitionUsesRound
    } else if asked.reducer_input {
        Verdict::Applies
    } else {
        Verdict::NotAsked
    }
}

/// Whether a source, which takes its records from here, has the mapper input cache, by the verdict on its other cache.
/// docs/LANGUAGE.md, "Caches".
pub fn has_mapper_input(asked: Asked, from: Origin, input: Verdict) -> bool
    ensures { result ≡ spec.has_mapper_input asked from input }
{
    asked.mapper_input && !is_remade(from) && !is_of_one_round(from) && !is_had(input)
}

/// The verdict on the reducer output cache of the state, where the last step has this number.
/// docs/LANGUAGE.md, "Caches".
pub fn output_verdict(functions: &Typed, uses: &Uses, asked: Asked, last: u32) -> Verdict
    ensures { result ≡ spec.output_verdict functions.now uses.now asked last }
{
    if !functions.key_kept(uses.reduce_at(last)) {
        Verdict::EmitsOtherKey
    } else if functions.round_used(uses.partition_at(last)) {
        Verdict::PartitionUsesRound
    } else if asked.reducer_output {
        Verdict::Applies
    } else {
        Verdict::NotAsked
    }
}

/// Whether a source is the state, or the output of a step.
fn is_remade(from: Origin) -> bool
    ensures { result ≡ spec.is_remade from }
{
    match from {
        Origin::State | Origin::Prev => true,
        Origin::Table { .. } => false,
    }
}

/// Whether a source is a table that is read in one round alone.
fn is_of_one_round(from: Origin) -> bool
    ensures { result ≡ spec.is_of_one_round from }
{
    match from {
        Origin::Table { only: Some(_), .. } => true,
        Origin::Table { only: None, .. } | Origin::State | Origin::Prev => false,
    }
}

/// Whether a cache is had.
pub(crate) fn is_had(verdict: Verdict) -> bool
    ensures { result ≡ spec.is_had verdict }
{
    match verdict {
        Verdict::Applies => true,
        Verdict::NotInvariant
        | Verdict::OneRoundOnly
        | Verdict::UsesRound
        | Verdict::PartitionUsesRound
        | Verdict::EmitsOtherKey
        | Verdict::NotAsked => false,
    }
}

// ---- flags

/// The steps of a program, each source with the caches that it has.
pub(crate) fn steps_with_caches(
    alloc: Global,
    functions: &Typed,
    uses: &Uses,
    asked: Asked,
    steps: Steps,
) -> Result<Steps, Memory>
    requires few_steps { length steps ≤ 8 }
    requires few_sources { AllByRecursion HasFewSources steps }
    ensures { IfOk result (λ made. made ≡ flagged_steps (verdict_flags functions.now uses.now asked) 1 steps) }
{
    let mut made = Steps::with_capacity(alloc, steps.len())?;
    'steps: for step in steps.into_vec() {
        let number = number_behind(made.len());
        let Step { sources, out } = step;
        let sources = sources_with_caches(alloc, functions, uses, asked, number, sources)?;
        made.push(Step { sources, out })?;
    }
    Ok(made)
}

/// The sources of a step, each with the caches that it has.
fn sources_with_caches(
    alloc: Global,
    functions: &Typed,
    uses: &Uses,
    asked: Asked,
    step: u32,
    sources: Sources,
) -> Result<Sources, Memory>
    requires few { length sources ≤ 8 }
    ensures { IfOk result (λ made. made ≡ flagged_sources (verdict_flags functions.now uses.now asked) step 1 sources) }
{
    let mut made = Sources::with_capacity(alloc, sources.len())?;
    'sources: for source in sources.into_vec() {
        let number = number_behind(made.len());
        made.push(source_with_caches(functions, uses, asked, step, number, source))?;
    }
    Ok(made)
}

/// A source with the caches that it has.
fn source_with_caches(
    functions: &Typed,
    uses: &Uses,
    asked: Asked,
    step: u32,
    number: u32,
    source: Source,
) -> Source
    ensures { result ≡ flagged_source (verdict_flags functions.now uses.now asked) step number source }
{
    let input = input_verdict(functions, uses, asked, step, number, source.from);
    Source {
        reducer_input: is_had(input),
        mapper_input: has_mapper_input(asked, source.from, input),
        ..source
    }
}

/// The number from 1 on of what stands behind so many, of at most eight.
fn number_behind(before: usize) -> u32
    requires { before < 8 }
    ensures { result ≡ suc before }
{
    before as u32 + 1
}
