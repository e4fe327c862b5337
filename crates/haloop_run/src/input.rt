ghost use Rattle.std.specs.Prelude.{◌≡◌, Some, IfOk, IfErr, IfSome, IsTrue, ◌↔◌};
ghost use Rattle.std.specs.List.{AllByRecursion};
ghost use Rattle.std.specs.Option.{option_copied};
ghost use Rattle.hal_outside.specs.Told.{FileMap};
ghost use Rattle.hal_outside.specs.Calls.{OnlyReads, Tells};
ghost use Rattle.plain_job.specs.Fit.{AreRecordsOf, TablesFit};
ghost use Rattle.run_laws.specs.WithoutLoss as without_loss;
ghost use Rattle.run_laws.specs.WithoutLoss.{AreQuiet};
ghost use Rattle.haloop_run.specs.declared.fault.InputFault.TheVariants as fault;
ghost use Rattle.haloop_run.specs.Inputs.{complete, HasSchedule, HasScheduleAt, HasTable, HaveTables, tables_of};
ghost use Rattle.haloop_run.specs.steps.Inputs.{AsAsked, CanRun, HasFile, IsOfProgram, IsProgramOf, Judged, listing, NoFile, NoProgram, NoSchedule, NoTable, OtherSchedule, Stops, StopsAtTable};
ghost use Rattle.haloop_run.specs.steps.Runs.{AreFew};
ghost use Rattle.haloop_run.specs.steps.Words.{asked_by};

use crate::fault::{CommandFault, InputFault};
use crate::words::Command;
use hal_base::{CopyIn, Items, Memory, Records, Schema, TableFault, Tables, Text, read_table};
use hal_outside::{FileFault, Files};
use loop_program::{Program, read_program};
use schedule_text::{Event, Schedule, read_schedule};
use std::alloc::Global;

/// A program, the schedule where one is asked for, and the records of each table of the program.
#[derive(Drop)]
pub(crate) struct Accepted {
    pub(crate) program: Program,
    pub(crate) schedule: Option<Schedule>,
    pub(crate) tables: Tables,
}

/// The program and its tables, where program, schedule and tables are accepted, in this order.
/// docs/FORMATS.md, "Statuses".
pub(crate) fn accepted_input<F: Files>(
    alloc: Global,
    command: &Command<'_>,
    files: &mut F,
) -> Result<Accepted, CommandFault>
    ensures reads { OnlyReads F.Files files.old files.new }
    ensures fit { IfOk result (λ input. TablesFit input.program.shape input.tables) }
    ensures few { IfOk result (λ input. AllByRecursion AreFew input.tables) }
    ensures can { IfOk result (λ input. IfSome input.schedule CanRun) }
    ensures asked { IfOk result (λ input. AsAsked (asked_by command.now).schedule input.schedule) }
    ensures found { IfOk result (λ input. (told : FileMap) → Tells F.Files files.old told → Judged (asked_by command.now) told (complete input.program input.schedule input.tables)) }
    ensures stops { IfErr result (Stops F.Files files.old files.new (Judged (asked_by command.now))) }
{
    let program = program_file(alloc, command.program, files)?;
    let schedule = asked_schedule(alloc, command.schedule, files)?;
    let tables = read_tables(alloc, &program, files)?;
    Ok(Accepted {
        program,
        schedule,
        tables,
    })
}

/// The program whose text the file of this name has.
pub(crate) fn program_file<F: Files>(
    alloc: Global,
    name: &str,
    files: &mut F,
) -> Result<Program, CommandFault>
    ensures reads { OnlyReads F.Files files.old files.new }
    ensures found { IfOk result (λ program. (told : FileMap) → Tells F.Files files.old told → IsProgramOf name.now program told) }
    ensures stops { IfErr result (Stops F.Files files.old files.new (NoProgram name.now)) }
    ensures sort { IfErr result IsOfProgram }
{
    let text = read_file(alloc, name, files)?;
    Ok(read_program(alloc, text.as_slice())?)
}

/// The schedule that is asked for, if one is.
fn asked_schedule<F: Files>(
    alloc: Global,
    asked: Option<&str>,
    files: &mut F,
) -> Result<Option<Schedule>, CommandFault>
    ensures reads { OnlyReads F.Files files.old files.new }
    ensures can { IfOk result (λ schedule. IfSome schedule CanRun) }
    ensures asked { IfOk result (AsAsked (option_copied asked.entry)) }
    ensures found { IfOk result (λ schedule. (told : FileMap) → Tells F.Files files.old told → HasSchedule told (option_copied asked.entry) schedule) }
    ensures stops { IfErr result (Stops F.Files files.old files.new (NoSchedule (option_copied asked.entry))) }
{
    match asked {
        Some(name) => Ok(Some(schedule_file(alloc, name, files)?)),
        None => Ok(None),
    }
}

/// The schedule whose text the file of this name has.
fn schedule_file<F: Files>(
    alloc: Global,
    name: &str,
    files: &mut F,
) -> Result<Schedule, CommandFault>
    ensures reads { OnlyReads F.Files files.old files.new }
    ensures can { IfOk result CanRun }
    ensures found { IfOk result (λ schedule. (told : FileMap) → Tells F.Files files.old told → HasScheduleAt told name.now schedule) }
    ensures stops { IfErr result (Stops F.Files files.old files.new (OtherSchedule name.now)) }
{
    let text = read_file(alloc, name, files)?;
    let schedule = read_schedule(alloc, text.as_slice())?;
    if are_quiet(schedule.events.as_slice()) {
        Ok(schedule)
    } else {
        Err(CommandFault::Refused(InputFault::NotBuilt))
    }
}

/// Whether nothing is lost by any of these events.
fn are_quiet(events: &[Event]) -> bool
    ensures { IsTrue result ↔ AreQuiet events.now }
{
    events.iter().all(|event| is_quiet(*event))
}

/// Whether nothing is lost by this event: an attempt is done or fails, or a round is waited for.
fn is_quiet(event: Event) -> bool
    ensures { result ≡ without_loss.is_quiet event }
{
    match event {
        Event::Done(_) | Event::Fail(_) | Event::Round(_) => true,
        Event::Lose(_) | Event::Back(_) | Event::Wipe(_) | Event::Busy(_) | Event::Idle(_) => false,
    }
}

/// The records of each table, in the order of the program.
fn read_tables<F: Files>(
    alloc: Global,
    program: &Program,
    files: &mut F,
) -> Result<Tables, CommandFault>
    ensures reads { OnlyReads F.Files files.old files.new }
    ensures fit { IfOk result (TablesFit program.now.shape) }
    ensures few { IfOk result (AllByRecursion AreFew) }
    ensures found { IfOk result (λ tables. (told : FileMap) → Tells F.Files files.old told → HaveTables told (tables_of program.now) tables) }
    ensures stops { IfErr result (Stops F.Files files.old files.new (StopsAtTable program.now)) }
{
    let names = program.names.as_slice();
    let paths = program.files.as_slice();
    let mut tables = Tables::new(alloc);
    'tables: for (at, schema) in program.shape.tables.as_slice().iter().enumerate() {
        let rows = read_rows(alloc, &names[at], &paths[at], schema, files)?;
        tables.push(rows)?;
    }
    Ok(tables)
}

/// The records of a table: its name, its file, and its schema.
fn read_rows<F: Files>(
    alloc: Global,
    name: &Text,
    file: &Text,
    schema: &Schema,
    files: &mut F,
) -> Result<Records, CommandFault>
    ensures reads { OnlyReads F.Files files.old files.new }
    ensures fit { IfOk result (AreRecordsOf schema.now) }
    ensures few { IfOk result AreFew }
    ensures found { IfOk result (λ rows. (told : FileMap) → Tells F.Files files.old told → HasTable told (listing name.now file.now schema.now) rows) }
    ensures stops { IfErr result (Stops F.Files files.old files.new (NoTable (listing name.now file.now schema.now))) }
{
    let bytes = read_file(alloc, file.as_str(), files)?;
    match read_table(alloc, bytes.as_slice(), schema) {
        Ok(rows) => Ok(rows),
        Err(TableFault::Memory) => Err(CommandFault::Failed(FileFault::Memory)),
        Err(what) => Err(CommandFault::Refused(bad_table(alloc, name, what)?)),
    }
}

fn bad_table(alloc: Global, name: &Text, what: TableFault) -> Result<InputFault, Memory>
    ensures { IfOk result (λ it. it ≡ fault.BadTable name.now what) }
{
    let name = name.copy(alloc)?;
    Ok(InputFault::BadTable { name, what })
}

/// The bytes of a file.
fn read_file<F: Files>(alloc: Global, name: &str, files: &mut F) -> Result<Vec<u8>, CommandFault>
    ensures reads { OnlyReads F.Files files.old files.new }
    ensures found { IfOk result (λ bytes. (told : FileMap) → Tells F.Files files.old told → HasFile name.now bytes.items told) }
    ensures stops { IfErr result (Stops F.Files files.old files.new (NoFile name.now)) }
    ensures sort { IfErr result IsOfProgram }
{
    match files.read(alloc, name)? {
        Some(bytes) => Ok(bytes),
        None => Err(CommandFault::Refused(absent(alloc, name)?)),
    }
}

fn absent(alloc: Global, name: &str) -> Result<InputFault, Memory>
    ensures { IfOk result (λ it. it ≡ fault.Absent name.now) }
{
    let name = Vec::from_slice(alloc, name.as_bytes())?;
    Ok(InputFault::Absent(Items::from_vec(name)))
}
