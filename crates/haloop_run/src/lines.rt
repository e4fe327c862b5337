ghost use Rattle.std.specs.Prelude.{◌≡◌, ◌++◌, codes, IfOk, OnOk};
ghost use Rattle.plain_job.specs.Ends.{end_text};
ghost use Rattle.haloop_run.specs.Lines as lines;
ghost use Rattle.haloop_run.specs.Lines.{outcome_line, status_of};
ghost use Rattle.haloop_run.specs.steps.Commands.{line_of_stop, status_of_stop, text_of_done};
ghost use Rattle.haloop_run.specs.steps.Inputs.{outcome_of};

use crate::fault::{InputFault, RunFault};
use crate::run::Done;
use counter_report::report_text;
use hal_base::{LineFault, Memory, TableFault, append_number};
use loop_program::What;
use node_names::{Task, task_text};
use plain_job::End;
use schedule_text::ScheduleWhat;
use std::alloc::Global;

/// The lines of a command that is done. docs/FORMATS.md, "Statuses" and "Reports".
pub(crate) fn done_text(alloc: Global, done: &Done) -> Result<Vec<u8>, Memory>
    ensures { IfOk result (λ text. text.items ≡ text_of_done done.now) }
{
    match done {
        Done::Plain { rounds, end } => plain_report(alloc, *rounds, *end),
        Done::Run(report) => report_text(alloc, report),
    }
}

/// The lines of a chain in memory that is done.
fn plain_report(alloc: Global, rounds: u32, end: End) -> Result<Vec<u8>, Memory>
    ensures { IfOk result (λ text. text.items ≡ lines.plain_report rounds end) }
{
    let mut text = Vec::new(alloc);
    append_number(&mut text, b"rounds ", u64::from(rounds))?;
    text.extend_from_slice(b"\nend ")?;
    text.extend_from_slice(end_word(end))?;
    text.extend_from_slice(b"\n")?;
    Ok(text)
}

fn end_word(end: End) -> &'static [u8]
    ensures { result.now ≡ end_text end }
{
    match end {
        End::Fixpoint => b"fixpoint",
        End::Close => b"close",
        End::Limit => b"limit",
    }
}

/// The line of what is wrong with an input. docs/FORMATS.md, "Statuses".
pub(crate) fn fault_line(alloc: Global, fault: &InputFault) -> Result<Vec<u8>, Memory>
    ensures { IfOk result (λ line. line.items ≡ outcome_line (outcome_of fault.now)) }
{
    match fault {
        InputFault::Absent(name) => absent_line(alloc, name.as_slice()),
        InputFault::BadProgram { line, what } => program_line(alloc, *line, *what),
        InputFault::BadSchedule { line, what } => schedule_line(alloc, *line, *what),
        InputFault::NotBuilt => not_built_line(alloc),
        InputFault::BadTable { name, what } => table_line(alloc, name.as_slice(), *what),
    }
}

/// The status of what is wrong with an input.
pub(crate) fn fault_status(fault: &InputFault) -> u8
    ensures { result ≡ status_of (outcome_of fault.now) }
{
    match fault {
        InputFault::Absent(_) => 11,
        InputFault::BadProgram { .. } => 2,
        InputFault::BadSchedule { .. } => 4,
        InputFault::NotBuilt => 12,
        InputFault::BadTable { .. } => 3,
    }
}

fn absent_line(alloc: Global, name: &[u8]) -> Result<Vec<u8>, Memory>
    ensures { IfOk result (λ line. line.items ≡ lines.absent_line name.now) }
{
    let mut line = Vec::from_slice(alloc, b"error: file ")?;
    line.extend_from_slice(name)?;
    line.extend_from_slice(b" absent\n")?;
    Ok(line)
}

fn program_line(alloc: Global, line: u64, what: What) -> Result<Vec<u8>, Memory>
    ensures { IfOk result (λ text. text.items ≡ lines.program_line line what) }
{
    let mut text = Vec::new(alloc);
    append_number(&mut text, b"error: program line ", line)?;
    text.extend_from_slice(b": ")?;
    text.extend_from_slice(what_word(what))?;
    text.extend_from_slice(b"\n")?;
    Ok(text)
}

fn schedule_line(alloc: Global, line: u64, what: ScheduleWhat) -> Result<Vec<u8>, Memory>
    ensures { IfOk result (λ text. text.items ≡ lines.schedule_line line what) }
{
    let mut text = Vec::new(alloc);
    append_number(&mut text, b"error: schedule line ", line)?;
    text.extend_from_slice(b": ")?;
    text.extend_from_slice(schedule_word(what))?;
    text.extend_from_slice(b"\n")?;
    Ok(text)
}

fn schedule_word(what: ScheduleWhat) -> &'static [u8]
    ensures { result.now ≡ lines.schedule_what_text what }
{
    match what {
        ScheduleWhat::BadWord => b"bad-word",
        ScheduleWhat::BadNumber => b"bad-number",
        ScheduleWhat::OutOfRange => b"out-of-range",
        ScheduleWhat::CopiesAboveNodes => b"copies-above-nodes",
        ScheduleWhat::Missing => b"missing",
        ScheduleWhat::Twice => b"twice",
    }
}

/// The line of why a run of the cluster is refused. docs/FORMATS.md, "Statuses".
pub(crate) fn stop_line(alloc: Global, fault: RunFault) -> Result<Vec<u8>, Memory>
    ensures { IfOk result (λ line. line.items ≡ line_of_stop fault) }
{
    match fault {
        RunFault::TaskFailed { task } => task_line(alloc, &task),
        RunFault::Missed => not_built_line(alloc),
    }
}

/// The status of why a run of the cluster is refused.
pub(crate) fn stop_status(fault: RunFault) -> u8
    ensures { result ≡ status_of_stop fault }
{
    match fault {
        RunFault::TaskFailed { .. } => 6,
        RunFault::Missed => 12,
    }
}

fn task_line(alloc: Global, task: &Task) -> Result<Vec<u8>, Memory>
    ensures { IfOk result (λ line. line.items ≡ lines.task_line task.now) }
{
    let mut line = Vec::from_slice(alloc, b"error: task ")?;
    line.extend_from_slice(task_text(alloc, task)?.as_bytes())?;
    line.extend_from_slice(b" failed\n")?;
    Ok(line)
}

fn what_word(what: What) -> &'static [u8]
    ensures { result.now ≡ lines.what_text what }
{
    match what {
        What::Syntax => b"syntax",
        What::Limit => b"limit",
        What::WrongKind => b"wrong-kind",
        What::UnknownName => b"unknown-name",
        What::WrongCount => b"wrong-count",
        What::EmitMismatch => b"emit-mismatch",
        What::DoubleName => b"double-name",
        What::StreamMismatch => b"stream-mismatch",
        What::UnknownTable => b"unknown-table",
        What::SchemaMismatch => b"schema-mismatch",
    }
}

fn not_built_line(alloc: Global) -> Result<Vec<u8>, Memory>
    ensures { IfOk result (λ line. line.items ≡ lines.not_built_line) }
{
    Ok(Vec::from_slice(alloc, b"error: form not built\n")?)
}

fn table_line(alloc: Global, name: &[u8], what: TableFault) -> Result<Vec<u8>, Memory>
    ensures { IfOk result (λ line. line.items ≡ lines.table_line name.now what) }
{
    let mut line = Vec::from_slice(alloc, b"error: table ")?;
    line.extend_from_slice(name)?;
    push_table_fault(&mut line, what)?;
    line.extend_from_slice(b"\n")?;
    Ok(line)
}

fn push_table_fault(line: &mut Vec<u8>, what: TableFault) -> Result<(), Memory>
    ensures { OnOk result (line.new.items ≡ line.old.items ++ (codes " line " ++ lines.table_fault_text what)) }
{
    match what {
        TableFault::Line { line: number, what } => {
            append_number(line, b" line ", u64::from(number))?;
            line.extend_from_slice(b": ")?;
            push_line_fault(line, what)
        }
        TableFault::TooMany { line: number } => {
            append_number(line, b" line ", u64::from(number))?;
            Ok(line.extend_from_slice(b": limit")?)
        }
        TableFault::Memory => Ok(line.extend_from_slice(b" line memory")?),
    }
}

fn push_line_fault(line: &mut Vec<u8>, what: LineFault) -> Result<(), Memory>
    ensures { OnOk result (line.new.items ≡ line.old.items ++ lines.line_fault_text what) }
{
    match what {
        LineFault::FieldCount => Ok(line.extend_from_slice(b"field-count")?),
        LineFault::BadNumber { field } => append_number(line, b"bad-number ", u64::from(field)),
        LineFault::BadText { field } => append_number(line, b"bad-text ", u64::from(field)),
        LineFault::Memory => Ok(line.extend_from_slice(b"memory")?),
    }
}
