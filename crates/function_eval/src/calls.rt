ghost use Rattle.std.specs.Prelude.{◌≡◌, ◌≤◌, ◌∷◌, ◌++◌, [], IfOk, OnErr, OnOk, option_map};
ghost use Rattle.hal_base.specs.Values.{key_pieces};
ghost use Rattle.function_eval.specs.steps.Machine.{Ended, groups_of};
ghost use Rattle.function_meaning.specs.Optional.{or_none, or_zero};
ghost use Rattle.function_eval.specs.steps.Slots.{given_of, out_of, slot_all_after, slot_distance, slot_map, slot_partition, slot_ran, slot_reduce};
ghost use Rattle.function_eval.specs.declared.machine.Stop.TheVariants as a_stop;
ghost use Rattle.predefined_functions.specs.steps.Extended.{Extends};

use crate::machine::{Stop, run_all};
use crate::resolved::{ResolvedFunction, ResolvedStatement};
use crate::running::{Frame, Running, Slots, Streams};
use function_meaning::{distance_given, part_given};
use hal_base::{CopyIn, Group, Groups, Memory, Record, Records, Value};
use std::alloc::Global;
use std::mem;

/// Adds what a map emits for a record; nothing where the function is no map, or stops. After `Memory` `out`
/// is as before.
pub(crate) fn run_map(
    alloc: Global,
    function: &ResolvedFunction,
    round: u32,
    row: &Record,
    out: &mut Records,
) -> Result<(), Memory>
    ensures appended { OnOk result (out.new ≡ out.old ++ or_none (slot_map round function.now row.now)) }
    ensures unchanged { OnErr result (out.new ≡ out.old) }
{
    let ResolvedFunction::Map { params, body } = function else {
        return Ok(());
    };
    if row.fields.len() + 1 != *params {
        return Ok(());
    }
    let mut slots = key_slots(alloc, &row.key)?;
    slots.push_copies(alloc, row.fields.as_slice())?;
    let frame = Frame {
        alloc,
        round: Some(round),
        streams: Streams::All(&[]),
    };
    emit_into(&frame, body.as_slice(), slots, out)
}

/// Adds what a reduce emits for a key and its groups; nothing where the function is no reduce, or stops.
/// After `Memory` `out` is as before.
pub(crate) fn run_reduce(
    alloc: Global,
    function: &ResolvedFunction,
    round: u32,
    key: &Value,
    groups: &Groups,
    out: &mut Records,
) -> Result<(), Memory>
    ensures appended { OnOk result (out.new ≡ out.old ++ or_none (slot_reduce round function.now key.now groups.now)) }
    ensures unchanged { OnErr result (out.new ≡ out.old) }
{
    let ResolvedFunction::Reduce { streams, body } = function else {
        return Ok(());
    };
    if groups.len() != *streams {
        return Ok(());
    }
    let slots = key_slots(alloc, key)?;
    let frame = Frame {
        alloc,
        round: Some(round),
        streams: Streams::All(groups.as_slice()),
    };
    emit_into(&frame, body.as_slice(), slots, out)
}

/// The distance of two groups of a key; 0 where the function is no distance, or stops.
pub(crate) fn run_distance(
    alloc: Global,
    function: &ResolvedFunction,
    key: &Value,
    old: &Group,
    new: &Group,
) -> Result<u64, Memory>
    ensures { IfOk result (λ distance. distance ≡ or_zero (slot_distance function.now key.now old.now new.now)) }
{
    let ResolvedFunction::Distance { body } = function else {
        return Ok(0);
    };
    let slots = key_slots(alloc, key)?;
    let frame = Frame {
        alloc,
        round: None,
        streams: Streams::Two(old, new),
    };
    let given = given_by(&frame, body.as_slice(), slots)?;
    Ok(match given {
        Some(number) => distance_given(number),
        None => 0,
    })
}

/// The part of a key, of so many; 0 where the function is no partition, or stops.
pub(crate) fn run_partition(
    alloc: Global,
    function: &ResolvedFunction,
    round: u32,
    parts: u32,
    key: &Value,
) -> Result<u32, Memory>
    requires { 1 ≤ parts }
    ensures { IfOk result (λ part. part ≡ or_zero (slot_partition parts round function.now key.now)) }
{
    let ResolvedFunction::Partition { body } = function else {
        return Ok(0);
    };
    let slots = key_slots(alloc, key)?;
    let frame = Frame {
        alloc,
        round: Some(round),
        streams: Streams::All(&[]),
    };
    let given = given_by(&frame, body.as_slice(), slots)?;
    Ok(match given {
        Some(number) => part_given(number, parts),
        None => 0,
    })
}

/// A copy of the key, in the first slot.
fn key_slots(alloc: Global, key: &Value) -> Result<Slots, Memory>
    ensures { IfOk result (λ slots. slots ≡ key_pieces key.now) }
{
    let mut slots = Slots::new(alloc);
    slots.push(key.copy(alloc)?)?;
    Ok(slots)
}

/// The number that a body gives last, unless it stops.
fn given_by(frame: &Frame, body: &[ResolvedStatement], slots: Slots) -> Result<Option<i64>, Memory>
    ensures { IfOk result (λ given. given ≡ option_map given_of (slot_ran frame.now.round (groups_of frame.now.streams) slots body.now)) }
{
    let mut running = Running {
        slots,
        out: Records::new(frame.alloc),
        given: 0,
    };
    match run_all(frame, body, &mut running) {
        Ok(()) => Ok(Some(running.given)),
        Err(Stop::NoValue) => Ok(None),
        Err(Stop::Memory) => Err(Memory),
    }
}

/// Runs a body, and adds what it emits; nothing where it stops. After `Memory` `out` is as before.
#[tactic(auto, using(crate::proofs::CallLaws::emitted_behind, crate::proofs::CallLaws::came_back))]
fn emit_into(
    frame: &Frame,
    body: &[ResolvedStatement],
    slots: Slots,
    out: &mut Records,
) -> Result<(), Memory>
    ensures appended { OnOk result (out.new ≡ out.old ++ or_none (option_map out_of (slot_ran frame.now.round (groups_of frame.now.streams) slots body.now))) }
    ensures unchanged { OnErr result (out.new ≡ out.old) }
{
    let before = out.len();
    let running = Running {
        slots,
        out: mem::replace(out, Records::new(frame.alloc)),
        given: 0,
    };
    let (ended, emitted) = run_to_end(frame, body, running);
    *out = emitted;
    match ended {
        Ok(()) => Ok(()),
        Err(stop) => {
            out.truncate(before);
            only_memory(stop)
        }
    }
}

/// Runs a body, and answers how it ended and what it emitted behind what was there.
fn run_to_end(
    frame: &Frame,
    body: &[ResolvedStatement],
    mut running: Running,
) -> (Result<(), Stop>, Records)
    ensures ran { Ended (slot_all_after frame.now.round (groups_of frame.now.streams) body.now running) result.0 result.1 }
    ensures kept { Extends running.out result.1 }
{
    let ended = run_all(frame, body, &mut running);
    (ended, running.out)
}

/// Of the causes to stop, want of memory alone is an error.
fn only_memory(stop: Stop) -> Result<(), Memory>
    ensures { OnOk result (stop ≡ a_stop.NoValue) }
{
    match stop {
        Stop::NoValue => Ok(()),
        Stop::Memory => Err(Memory),
    }
}
