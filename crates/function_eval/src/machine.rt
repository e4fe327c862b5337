ghost use Rattle.std.specs.Prelude.{◌≡◌, ◌∷◌, [], ◌++◌, ◌≤◌, ◌<◌, length, map, cond, None, Some, option_map, slice_get};
ghost use Rattle.std.specs.Option.{option_copied};
ghost use Rattle.operations.specs.Applied as applied;
ghost use Rattle.predefined_functions.specs.steps.Extended.{Extends};
ghost use Rattle.function_meaning.specs.Expressions.{as_number, round_value};
ghost use Rattle.function_eval.specs.steps.Machine.{Gives, Ran, groups_of, slot_block, slot_call, slot_for, slot_record, slot_turns};
ghost use Rattle.function_meaning.specs.Optional.{all_of};
ghost use Rattle.function_eval.specs.steps.Slots.{slot_after, slot_all_after, slot_number, slot_turn, slot_value};
ghost use Rattle.function_eval.specs.declared.resolved.ResolvedStatement.TheVariants as a_resolved_statement;

use crate::numbers::plain_number;
use crate::resolved::{ResolvedExpr, ResolvedStatement};
use crate::running::{Frame, Running};
use hal_base::{CopyIn, Fields, Memory, Record, Value};
use operations::{Operation, apply_to_one, apply_to_three, apply_to_two, is_true};

/// Why a function stops before its end.
#[derive(Clone, Copy)]
pub(crate) enum Stop {
    /// What is asked for has no value, as where one of another kind is wanted.
    NoValue,
    Memory,
}

impl From<Memory> for Stop {
    ghost use Rattle.function_eval.specs.declared.machine.Stop.TheVariants as stop;

    ghost from_gives = { λ _ it. it ≡ stop.Memory };

    fn from(_error: Memory) -> Stop {
        Stop::Memory
    }
}

/// The value of an expression.
#[cycle(value)]
fn value(frame: &Frame, slots: &[Value], expr: &ResolvedExpr) -> Result<Value, Stop>
    ensures { Gives (slot_value frame.now.round slots.now expr.now) result }
{
    match plain_number(frame, slots, expr) {
        Some(n) => Ok(Value::Int(n)),
        None => any_value(frame, slots, expr),
    }
}

/// The value of an expression that may hold texts.
#[cycle(value)]
#[inline(never)]
fn any_value(frame: &Frame, slots: &[Value], expr: &ResolvedExpr) -> Result<Value, Stop>
    ensures { Gives (slot_value frame.now.round slots.now expr.now) result }
{
    match expr {
        ResolvedExpr::Int(n) => Ok(Value::Int(*n)),
        ResolvedExpr::Text(text) => {
            let copied = text.copy(frame.alloc)?;
            Ok(Value::Text(copied))
        }
        ResolvedExpr::Round => round(frame),
        ResolvedExpr::Slot(at) => slot(frame, slots, *at),
        ResolvedExpr::Call(operation, args) => call(frame, slots, *operation, args.as_slice()),
        ResolvedExpr::Unresolved => Err(Stop::NoValue),
    }
}

/// The round, if there is one.
fn round(frame: &Frame) -> Result<Value, Stop>
    ensures { Gives (option_map round_value frame.now.round) result }
{
    match frame.round {
        Some(round) => Ok(Value::Int(i64::from(round))),
        None => Err(Stop::NoValue),
    }
}

/// A copy of a slot's value.
fn slot(frame: &Frame, slots: &[Value], at: usize) -> Result<Value, Stop>
    ensures { Gives (slice_get slots.now at) result }
{
    match slot_at(slots, at) {
        Some(value) => Ok(value.copy(frame.alloc)?),
        None => Err(Stop::NoValue),
    }
}

/// The value of a slot, if there is one.
fn slot_at(slots: &[Value], at: usize) -> Option<&Value>
    ensures { option_copied result ≡ slice_get slots.now at }
{
    slots.get(at)
}

/// What an operation gives for its arguments, which are evaluated from left to right.
#[cycle(value)]
fn call(
    frame: &Frame,
    slots: &[Value],
    operation: Operation,
    args: &[ResolvedExpr],
) -> Result<Value, Stop>
    ensures { Gives (slot_call frame.now.round slots.now operation args.now) result }
{
    match args {
        [] => Err(Stop::NoValue),
        [a] => {
            let a = value(frame, slots, a)?;
            found(apply_to_one(frame.alloc, operation, a)?)
        }
        [a, b] => {
            let a = value(frame, slots, a)?;
            let b = value(frame, slots, b)?;
            found(apply_to_two(operation, a, b)?)
        }
        [a, b, c] => {
            let a = value(frame, slots, a)?;
            let b = value(frame, slots, b)?;
            let c = value(frame, slots, c)?;
            found(apply_to_three(frame.alloc, operation, a, b, c)?)
        }
        [_, _, _, _, ..] => Err(Stop::NoValue),
    }
}

/// What is there.
fn found(value: Option<Value>) -> Result<Value, Stop>
    ensures { Gives value result }
{
    value.ok_or(Stop::NoValue)
}

/// The value of an expression that is a number.
fn number(frame: &Frame, slots: &[Value], expr: &ResolvedExpr) -> Result<i64, Stop>
    ensures { Gives (slot_number frame.now.round slots.now expr.now) result }
{
    match plain_number(frame, slots, expr) {
        Some(n) => Ok(n),
        None => any_number(frame, slots, expr),
    }
}

/// The value of an expression that may hold texts and is a number.
#[inline(never)]
fn any_number(frame: &Frame, slots: &[Value], expr: &ResolvedExpr) -> Result<i64, Stop>
    ensures { Gives (slot_number frame.now.round slots.now expr.now) result }
{
    match any_value(frame, slots, expr)? {
        Value::Int(n) => Ok(n),
        Value::Text(_) => Err(Stop::NoValue),
    }
}

/// Whether the value of an expression is a number that counts as true.
fn holds(frame: &Frame, slots: &[Value], test: &ResolvedExpr) -> Result<bool, Stop>
    ensures { Gives (option_map applied.is_true (slot_number frame.now.round slots.now test.now)) result }
{
    let n = number(frame, slots, test)?;
    Ok(is_true(n))
}

/// The record of the values of some expressions, of which the first is the key.
fn record(frame: &Frame, slots: &[Value], args: &[ResolvedExpr]) -> Result<Record, Stop>
    ensures { Gives (slot_record frame.now.round slots.now args.now) result }
{
    let [key, others @ ..] = args else {
        return Err(Stop::NoValue);
    };
    if others.len() > 7 {
        return Err(Stop::NoValue);
    }
    let key = value(frame, slots, key)?;
    let fields = fields(frame, slots, others)?;
    Ok(Record { key, fields })
}

/// The values of expressions as fields.
fn fields(frame: &Frame, slots: &[Value], args: &[ResolvedExpr]) -> Result<Fields, Stop>
    requires { length args.now ≤ 7 }
    ensures { Gives (all_of (map (slot_value frame.now.round slots.now) args.now)) result }
{
    let mut fields = Fields::new(frame.alloc);
    'args: for arg in args {
        push_value(frame, slots, arg, &mut fields)?;
    }
    Ok(fields)
}

/// Adds the value of an expression to fields.
fn push_value(
    frame: &Frame,
    slots: &[Value],
    arg: &ResolvedExpr,
    fields: &mut Fields,
) -> Result<(), Stop>
    requires { length fields.old < 7 }
    ensures { Ran (option_map (λ v. fields.old ++ v ∷ []) (slot_value frame.now.round slots.now arg.now)) result fields.new }
{
    let value = value(frame, slots, arg)?;
    Ok(fields.push(value)?)
}

/// Runs statements, one after another. What was emitted before still stands in front, after a stop too.
#[cycle(run)]
#[inline(always)]
pub(crate) fn run_all(
    frame: &Frame,
    statements: &[ResolvedStatement],
    running: &mut Running,
) -> Result<(), Stop>
    ensures ran { Ran (slot_all_after frame.now.round (groups_of frame.now.streams) statements.now running.old) result running.new }
    ensures kept { Extends running.old.out running.new.out }
{
    'statements: for statement in statements {
        run(frame, statement, running)?;
    }
    Ok(())
}

/// Runs a statement.
#[cycle(run)]
#[inline(always)]
fn run(frame: &Frame, statement: &ResolvedStatement, running: &mut Running) -> Result<(), Stop>
    ensures ran { Ran (slot_after frame.now.round (groups_of frame.now.streams) statement.now running.old) result running.new }
    ensures kept { Extends running.old.out running.new.out }
{
    match statement {
        ResolvedStatement::Let(expr) => run_let(frame, expr, running),
        ResolvedStatement::Set(place, expr) => run_set(frame, *place, expr, running),
        ResolvedStatement::If { test, yes, no } => {
            if holds(frame, running.slots.as_slice(), test)? {
                run_block(frame, yes.as_slice(), running)
            } else {
                run_block(frame, no.as_slice(), running)
            }
        }
        ResolvedStatement::For {
            stream,
            fields,
            body,
        } => run_for(frame, *stream, *fields, body.as_slice(), running),
        ResolvedStatement::Emit(args) => run_emit(frame, args.as_slice(), running),
        ResolvedStatement::Give(expr) => run_give(frame, expr, running),
        ResolvedStatement::Unresolved => Err(Stop::NoValue),
    }
}

/// A new variable.
fn run_let(frame: &Frame, expr: &ResolvedExpr, running: &mut Running) -> Result<(), Stop>
    ensures ran { Ran (slot_after frame.now.round (groups_of frame.now.streams) (a_resolved_statement.Let expr.now) running.old) result running.new }
    ensures kept { Extends running.old.out running.new.out }
{
    let value = value(frame, running.slots.as_slice(), expr)?;
    Ok(running.slots.push(value)?)
}

/// Another value of a variable.
fn run_set(
    frame: &Frame,
    place: usize,
    expr: &ResolvedExpr,
    running: &mut Running,
) -> Result<(), Stop>
    ensures ran { Ran (slot_after frame.now.round (groups_of frame.now.streams) (a_resolved_statement.Set place expr.now) running.old) result running.new }
    ensures kept { Extends running.old.out running.new.out }
{
    let value = value(frame, running.slots.as_slice(), expr)?;
    if place >= running.slots.len() {
        return Err(Stop::NoValue);
    }
    running.slots.set(place, value);
    Ok(())
}

/// A block, whose variables are gone behind it.
#[cycle(run)]
#[inline(never)]
fn run_block(frame: &Frame, body: &[ResolvedStatement], running: &mut Running) -> Result<(), Stop>
    ensures ran { Ran (slot_block frame.now.round (groups_of frame.now.streams) body.now running.old) result running.new }
    ensures kept { Extends running.old.out running.new.out }
{
    let len = running.slots.len();
    run_all(frame, body, running)?;
    running.slots.truncate(len);
    Ok(())
}

/// A loop over the group of a stream.
#[cycle(run)]
#[inline(never)]
fn run_for(
    frame: &Frame,
    stream: usize,
    fields: usize,
    body: &[ResolvedStatement],
    running: &mut Running,
) -> Result<(), Stop>
    ensures ran { Ran (slot_for frame.now.round (groups_of frame.now.streams) stream fields body.now running.old) result running.new }
    ensures kept { Extends running.old.out running.new.out }
{
    match frame.streams.get(stream) {
        Some(group) => run_turns(frame, fields, group.as_slice(), body, running),
        None => Err(Stop::NoValue),
    }
}

/// The body of a loop for each of some lists of fields.
#[cycle(run)]
fn run_turns(
    frame: &Frame,
    count: usize,
    group: &[Fields],
    body: &[ResolvedStatement],
    running: &mut Running,
) -> Result<(), Stop>
    ensures ran { Ran (slot_turns frame.now.round (groups_of frame.now.streams) body.now count group.now running.old) result running.new }
    ensures kept { Extends running.old.out running.new.out }
{
    'turns: for fields in group {
        run_turn(frame, count, fields.as_slice(), body, running)?;
    }
    Ok(())
}

/// The body of a loop for one list of fields, which are gone behind it, as its variables are.
#[cycle(run)]
fn run_turn(
    frame: &Frame,
    count: usize,
    fields: &[Value],
    body: &[ResolvedStatement],
    running: &mut Running,
) -> Result<(), Stop>
    ensures ran { Ran (slot_turn (slot_all_after frame.now.round (groups_of frame.now.streams) body.now) count fields.now running.old) result running.new }
    ensures kept { Extends running.old.out running.new.out }
{
    if fields.len() != count {
        return Err(Stop::NoValue);
    }
    let len = running.slots.len();
    running.slots.push_copies(frame.alloc, fields)?;
    run_all(frame, body, running)?;
    running.slots.truncate(len);
    Ok(())
}

/// A record more.
fn run_emit(frame: &Frame, args: &[ResolvedExpr], running: &mut Running) -> Result<(), Stop>
    ensures ran { Ran (slot_after frame.now.round (groups_of frame.now.streams) (a_resolved_statement.Emit args.now) running.old) result running.new }
    ensures kept { Extends running.old.out running.new.out }
{
    let row = record(frame, running.slots.as_slice(), args)?;
    Ok(running.out.push(row)?)
}

/// Another number given.
fn run_give(frame: &Frame, expr: &ResolvedExpr, running: &mut Running) -> Result<(), Stop>
    ensures ran { Ran (slot_after frame.now.round (groups_of frame.now.streams) (a_resolved_statement.Give expr.now) running.old) result running.new }
    ensures kept { Extends running.old.out running.new.out }
{
    running.given = number(frame, running.slots.as_slice(), expr)?;
    Ok(())
}
