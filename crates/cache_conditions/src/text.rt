ghost use Rattle.std.specs.Prelude.{◌≡◌, ◌∷◌, [], ◌++◌, IfOk, OnOk, codes, decimal};
ghost use Rattle.cache_conditions.specs.Texts as spec;
ghost use Rattle.cache_conditions.specs.Texts.{line_of, source_words, state_words};

use crate::verdict::{SourceVerdict, Verdicts};
use hal_base::{Memory, append_number};
use loop_program::Verdict;
use std::alloc::Global;

/// The text of verdicts: a line for each source, `step J source S INPUT MAPPER`, and one for the state,
/// `state OUTPUT`. docs/FORMATS.md, "Verdicts".
pub fn check_text(alloc: Global, verdicts: &Verdicts) -> Result<Vec<u8>, Memory>
    ensures { IfOk result (λ text. text.items ≡ spec.check_text verdicts.now) }
{
    let mut text = Vec::new(alloc);
    'sources: for source in verdicts.sources.as_slice() {
        push_source(&mut text, source)?;
    }
    push_state(&mut text, verdicts.output)?;
    Ok(text)
}

/// Adds the line of a source.
fn push_source(out: &mut Vec<u8>, source: &SourceVerdict) -> Result<(), Memory>
    ensures { OnOk result (out.new.items ≡ out.old.items ++ line_of (source_words source.now)) }
{
    append_number(out, b"step ", u64::from(source.step))?;
    append_number(out, b" source ", u64::from(source.source))?;
    push_word(out, verdict_text(b"reducer-input", source.input))?;
    push_word(out, mapper_text(source.mapper))?;
    Ok(out.push(b'\n')?)
}

/// Adds the line of the state.
fn push_state(out: &mut Vec<u8>, output: Verdict) -> Result<(), Memory>
    ensures { OnOk result (out.new.items ≡ out.old.items ++ line_of (state_words output)) }
{
    out.extend_from_slice(b"state")?;
    push_word(out, verdict_text(b"reducer-output", output))?;
    Ok(out.push(b'\n')?)
}

/// Adds a word behind a space.
fn push_word(out: &mut Vec<u8>, word: &[u8]) -> Result<(), Memory>
    ensures { OnOk result (out.new.items ≡ out.old.items ++ (32 ∷ word.now)) }
{
    out.push(b' ')?;
    Ok(out.extend_from_slice(word)?)
}

/// The name of a cache where it is had, and else the word that refuses it.
fn verdict_text(cache: &'static [u8], verdict: Verdict) -> &'static [u8]
    ensures { result.now ≡ spec.verdict_text cache.now verdict }
{
    match verdict {
        Verdict::Applies => cache,
        Verdict::NotInvariant => b"not-invariant",
        Verdict::OneRoundOnly => b"one-round-only",
        Verdict::UsesRound => b"uses-round",
        Verdict::PartitionUsesRound => b"partition-uses-round",
        Verdict::EmitsOtherKey => b"emits-other-key",
        Verdict::NotAsked => b"not-asked",
    }
}

fn mapper_text(mapper: bool) -> &'static [u8]
    ensures { result.now ≡ spec.mapper_text mapper }
{
    if mapper { b"mapper-input" } else { b"-" }
}
