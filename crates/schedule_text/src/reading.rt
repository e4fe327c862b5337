ghost use Rattle.std.specs.Prelude.{◌≡◌, ℕ, ◌+◌, ◌-◌, ◌^◌, ◌<◌, [], Some, length, IfErr, IfOk, OnOk};
ghost use Rattle.schedule_text.specs.Faults.{HasFault, IsFirst, event_faults, event_line_faults, faults_in, faults_of_event, head_line_faults};
ghost use Rattle.schedule_text.specs.Lines.{event_in, event_said, head_lines, lines_behind};
ghost use Rattle.schedule_text.specs.Schedules.{IsTextOf, KeepsLimits};
ghost use Rattle.schedule_text.specs.steps.Heads.{EventsRead, HeadRead};

use crate::fault::{ScheduleFault, ScheduleWhat};
use crate::head::Head;
use crate::lines::{Lines, is_event_line, is_skipped, said};
use crate::schedule::{Event, Events, Schedule};
use crate::words::EventKind;
use std::alloc::Global;

/// How many events a schedule may have.
const MAX_EVENTS: usize = 1_000_000;

/// The schedule of a text, or what is wrong first and in which line; lines count from 1. docs/FORMATS.md, "Schedules".
pub fn read_schedule(alloc: Global, text: &[u8]) -> Result<Schedule, ScheduleFault>
    ensures accepted { IfOk result (IsTextOf text.now) }
    ensures refused { IfErr result (HasFault text.now) }
    ensures limits { IfOk result KeepsLimits }
{
    read_parts(alloc, text)
}

fn read_parts(alloc: Global, text: &[u8]) -> Result<Schedule, ScheduleFault>
    ensures accepted { IfOk result (IsTextOf text.now) }
    ensures refused { IfErr result (HasFault text.now) }
{
    let mut lines = Lines {
        left: text,
        taken: 0,
    };
    let head = read_head(&mut lines)?;
    let nodes = head.nodes(lines.taken)?;
    let events = read_events(alloc, &mut lines, nodes)?;
    Ok(head.schedule(nodes, events))
}

/// Takes the lines before the first event line.
fn read_head(lines: &mut Lines) -> Result<Head, ScheduleFault>
    requires { lines.old.taken + length lines.old.left.now < 2 ^ 64 - 1 }
    ensures read { IfOk result (HeadRead (lines_behind lines.old.taken lines.old.left.now) (lines_behind lines.new.taken lines.new.left.now) (lines.new.taken - lines.old.taken)) }
    ensures room { OnOk result (lines.new.taken + length lines.new.left.now < 2 ^ 64 - 1) }
    ensures fault { IfErr result (λ fault. IsFirst fault (faults_in head_line_faults [] (head_lines (lines_behind lines.old.taken lines.old.left.now)))) }
{
    let mut head = Head::new();
    'lines: while let Some(line) = lines.take_head_line() {
        head.take_line(lines.taken, line)?;
    }
    Ok(head)
}

/// Takes all lines as events, of which each node is one of so many.
fn read_events(alloc: Global, lines: &mut Lines, nodes: u32) -> Result<Events, ScheduleFault>
    requires { lines.old.taken + length lines.old.left.now < 2 ^ 64 - 1 }
    ensures read { IfOk result (EventsRead nodes (lines_behind lines.old.taken lines.old.left.now)) }
    ensures fault { IfErr result (λ fault. IsFirst fault (faults_in (event_line_faults nodes) [] (lines_behind lines.old.taken lines.old.left.now))) }
{
    let mut events = Events::with_capacity(alloc, lines.count().min(MAX_EVENTS))?;
    'lines: while let Some(line) = lines.take() {
        if let Some(event) = read_event(lines.taken, line, nodes, events.len())? {
            events.push(event)?;
        }
    }
    Ok(events)
}

/// The event of the line of this number, behind so many events; `None` where the line says nothing.
fn read_event(
    number: u64,
    line: &[u8],
    nodes: u32,
    before: usize,
) -> Result<Option<Event>, ScheduleFault>
    ensures right { OnOk result (event_faults nodes before (number, line.now) ≡ []) }
    ensures event { IfOk result (λ event. event ≡ event_said (event_in line.now)) }
    ensures fault { IfErr result (λ fault. IsFirst fault (event_faults nodes before (number, line.now))) }
{
    if is_skipped(line) {
        return Ok(None);
    }
    match ranged_event(line, nodes, before) {
        Ok(event) => Ok(Some(event)),
        Err(what) => Err(ScheduleFault::At { line: number, what }),
    }
}

/// The event that a line says, behind so many others.
fn ranged_event(line: &[u8], nodes: u32, before: usize) -> Result<Event, ScheduleWhat>
    ensures right { OnOk result ((n : ℕ) → faults_of_event nodes before n (event_in line.now) ≡ []) }
    ensures event { IfOk result (λ event. event_said (event_in line.now) ≡ Some event) }
    ensures fault { IfErr result (λ what. (n : ℕ) → IsFirst (ScheduleFault.At n what) (faults_of_event nodes before n (event_in line.now))) }
{
    let (kind, number) = said::<EventKind>(line)?;
    if before >= MAX_EVENTS || !kind.in_range(nodes, number) {
        return Err(ScheduleWhat::OutOfRange);
    }
    Ok(kind.event(number))
}
