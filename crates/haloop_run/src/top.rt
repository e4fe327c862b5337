ghost use Rattle.std.specs.Prelude.{◌≡◌, ◌≤◌, ◌⊎◌, ℕ, IfOk, IsSome, List};
ghost use Rattle.hal_outside.specs.Told.{FileMap};
ghost use Rattle.hal_outside.specs.Calls.{AbsentsRose, Changes, CountsStay, FaultsRose, Gains, Tells, WritesFailed};
ghost use Rattle.plain_job.specs.declared.ending.End.{End};
ghost use Rattle.haloop_run.specs.Inputs.{ComesTo, Outcome, ProgramComesTo};
ghost use Rattle.haloop_run.specs.Inputs as input;
ghost use Rattle.haloop_run.specs.Lines as lines;
ghost use Rattle.haloop_run.specs.Lines.{outcome_line, status_of};
ghost use Rattle.haloop_run.specs.Outputs.{Leaves};
ghost use Rattle.haloop_run.specs.Statuses.{Answers, AnswersTo, AreTrue, BeganRun, DiskCountsStay, DisksFailed, GainsDue, InputIs, IsCheckStatus, IsChecked, IsDone, IsMissed, IsRefusal, IsStatus, IsTaskFailed, LeavesSome, TellsEnd};
ghost use Rattle.haloop_run.specs.Words.{Asked, AskFor, AskToCheck, IsUsage, texts};
ghost use Rattle.haloop_run.specs.steps.Checks.{CheckedOr};
ghost use Rattle.haloop_run.specs.steps.Commands.{NoCommand, Performed, Said, done_line, done_status, failed_line, failed_status, fault_line_of, fault_status_of};
ghost use Rattle.haloop_run.specs.steps.Words.{asked_by};

use crate::check::do_check;
use crate::fault::CommandFault;
use crate::lines::{done_text, fault_line, fault_status, stop_line, stop_status};
use crate::run::{Done, perform_command};
use crate::words::{Command, asked_check, asked_command};
use hal_base::Memory;
use hal_outside::{Disks, FileFault, Files, Sink, SinkFault};
use std::alloc::Global;

/// Does what the words ask for, and answers the status.
///
/// `words` are the words after the program's name; files are read from and written to `files`, the files of nodes lie on
/// `disks`, and the report or the error line goes to `out`. The statuses and their lines are in docs/FORMATS.md,
/// "Statuses"; what a program means is in docs/SEMANTICS.md, and how a cluster runs it in docs/CLUSTER.md.
pub fn haloop_top<F: Files, D: Disks, O: Sink>(
    alloc: Global,
    words: &[String],
    files: &mut F,
    disks: &mut D,
    out: &mut O,
) -> u8
    ensures status { IsStatus result }
    ensures counts { CountsStay F.Files files.old files.new }
    ensures disk_counts { DiskCountsStay D.Disks disks.old disks.new }
    ensures sink_faults_stay { O.faults out.old ≤ O.faults out.new }

    // 0 of `run` and `plain`: where the disks tell and show their damage, only the part files are changed, to the texts of the
    // parts of the chain; the lines on the sink tell the round in which the chain ends, and how.
    ensures headline { (asked : Asked) → AskFor (texts words.now) asked → result ≡ 0 → AreTrue D.Disks disks.old → (rounds : ℕ) × (end : End)
        × Changes F.Files (Leaves asked rounds end) files.old files.new × (line : List ℕ) × TellsEnd asked.schedule rounds end line × Gains O.Sink out.old line out.new }
    // Whatever the disks tell, `plain` has made no call on them, and `run` is a run of the machine, whose journal its report counts.
    ensures done { (asked : Asked) → AskFor (texts words.now) asked → result ≡ 0 → (line : List ℕ) × IsDone F.Files D.Disks asked files.old files.new disks.old disks.new line × Gains O.Sink out.old line out.new }

    // 0 of `check`: the sink gained the text of the verdicts on the program. At no status is a file changed, or a call made on disks.
    ensures checked { (program : List ℕ) → AskToCheck (texts words.now) program → result ≡ 0 → (line : List ℕ) × IsChecked F.Files program files.old line × Gains O.Sink out.old line out.new }
    ensures check_status { (program : List ℕ) → AskToCheck (texts words.now) program → IsCheckStatus result }
    ensures check_keeps { (program : List ℕ) → AskToCheck (texts words.now) program → (F.told files.new ≡ F.told files.old) × (disks.new ≡ disks.old) }

    // 1, and 2, 3, 4 and 11: the words, or what the input comes to, and its line. No file is changed, and no call is made on disks.
    ensures usage { result ≡ 1 → IsUsage (texts words.now) × Gains O.Sink out.old lines.usage_line out.new }
    ensures refused { IsRefusal result → (it : Outcome) × (status_of it ≡ result) × InputIs F.Files (texts words.now) files.old it × Gains O.Sink out.old (outcome_line it) out.new }
    ensures absents_rose { result ≡ 11 → AbsentsRose F.Files files.old files.new }
    ensures no_calls { (result ≡ 1) ⊎ IsRefusal result → disks.new ≡ disks.old }

    // 6 and 12: a task failed too often in a run of the machine; or a read missed in it, or the schedule has an event that is
    // not built. No file is changed.
    ensures task_failed { result ≡ 6 → (asked : Asked) × AskFor (texts words.now) asked × (line : List ℕ) × IsTaskFailed F.Files D.Disks asked files.old disks.old disks.new line × Gains O.Sink out.old line out.new }
    ensures not_built { result ≡ 12 → ((disks.new ≡ disks.old) × InputIs F.Files (texts words.now) files.old input.not_built × Gains O.Sink out.old lines.not_built_line out.new)
        ⊎ ((asked : Asked) × AskFor (texts words.now) asked × (line : List ℕ) × IsMissed F.Files D.Disks asked files.old disks.old disks.new line × Gains O.Sink out.old line out.new) }
    ensures kept { (result ≡ 1) ⊎ (result ≡ 6) ⊎ (result ≡ 12) ⊎ IsRefusal result → F.told files.new ≡ F.told files.old }

    // 8 and 10: a count of faults rose, or memory ran out, which no clause ties to anything. Where the sink
    // failed, it has a prefix of the line that was due; the files have the first of the part files, or none; the calls on
    // disks are the first of a run of the machine, or none.
    ensures device { result ≡ 8 → FaultsRose F.Files files.old files.new ⊎ DisksFailed D.Disks disks.old disks.new ⊎ WritesFailed O.Sink out.old out.new }
    ensures device_said { result ≡ 8 → ((FaultsRose F.Files files.old files.new ⊎ DisksFailed D.Disks disks.old disks.new) × Gains O.Sink out.old lines.device_line out.new)
        ⊎ (WritesFailed O.Sink out.old out.new × GainsDue F.Files D.Disks O.Sink (texts words.now) files.old files.new disks.old disks.new out.old out.new) }
    ensures memory_said { result ≡ 10 → GainsDue F.Files D.Disks O.Sink (texts words.now) files.old files.new disks.old disks.new out.old out.new }
    ensures partly { (result ≡ 8) ⊎ (result ≡ 10) → (F.told files.new ≡ F.told files.old)
        ⊎ ((asked : Asked) × AskFor (texts words.now) asked × LeavesSome F.Files D.Disks asked files.old files.new disks.old) }
    ensures began { (result ≡ 8) ⊎ (result ≡ 10) → (disks.new ≡ disks.old) ⊎ ((asked : Asked) × AskFor (texts words.now) asked × BeganRun F.Files D.Disks asked files.old disks.old disks.new) }

    // Whatever is answered: over disks that are sound and tell, no read missed.
    ensures unmissed { D.sound disks.old → IsSome (D.told disks.old) → D.misses disks.new ≡ D.misses disks.old }

    // The other direction: what the words and the files come to is answered, but for 8 and 10; a run may yet be refused.
    ensures usage_answered { IsUsage (texts words.now) → Answers 1 result }
    ensures answered { (told : FileMap) → Tells F.Files files.old told → (asked : Asked) (it : Outcome) → AskFor (texts words.now) asked → ComesTo told asked it → AnswersTo it result }
    ensures check_answered { (told : FileMap) → Tells F.Files files.old told → (program : List ℕ) (it : Outcome) → AskToCheck (texts words.now) program → ProgramComesTo told program it → Answers (status_of it) result }
{
    perform(alloc, words, files, disks, out)
}

/// The same in one clause.
fn perform<F: Files, D: Disks, O: Sink>(
    alloc: Global,
    words: &[String],
    files: &mut F,
    disks: &mut D,
    out: &mut O,
) -> u8
    ensures counts { CountsStay F.Files files.old files.new }
    ensures disk_counts { DiskCountsStay D.Disks disks.old disks.new }
    ensures sink_faults_stay { O.faults out.old ≤ O.faults out.new }
    ensures performed { CheckedOr F.Files D.Disks O.Sink (texts words.now) files.old files.new disks.old disks.new out.old out.new result
        (Performed F.Files D.Disks O.Sink (texts words.now) files.old files.new disks.old disks.new out.old out.new result
        ⊎ NoCommand F.Files O.Sink (texts words.now) files.old files.new disks.old disks.new out.old out.new result) }
{
    if let Some(command) = asked_command(words) {
        return do_command(alloc, &command, files, disks, out);
    }
    match asked_check(words) {
        Some(name) => do_check(alloc, name, files, out),
        None => tell(out, USAGE, 1),
    }
}

/// Does what the words ask for, and answers the status.
fn do_command<F: Files, D: Disks, O: Sink>(
    alloc: Global,
    command: &Command<'_>,
    files: &mut F,
    disks: &mut D,
    out: &mut O,
) -> u8
    ensures counts { CountsStay F.Files files.old files.new }
    ensures disk_counts { DiskCountsStay D.Disks disks.old disks.new }
    ensures sink_faults_stay { O.faults out.old ≤ O.faults out.new }
    ensures performed { (words : List (List ℕ)) → AskFor words (asked_by command.now) → Performed F.Files D.Disks O.Sink words files.old files.new disks.old disks.new out.old out.new result }
{
    let done = perform_command(alloc, command, files, disks);
    say(alloc, &done, out)
}

/// Writes the lines of what was done, and answers the status.
fn say<O: Sink>(alloc: Global, done: &Result<Done, CommandFault>, out: &mut O) -> u8
    ensures sink_faults_stay { O.faults out.old ≤ O.faults out.new }
    ensures said { Said O.Sink (done_status done.now) (done_line done.now) out.old out.new result }
{
    match done {
        Ok(done) => tell_made(out, &done_text(alloc, done), 0),
        Err(fault) => say_fault(alloc, fault, out),
    }
}

/// Writes why a command is not done, and answers the status.
pub(crate) fn say_fault<O: Sink>(alloc: Global, fault: &CommandFault, out: &mut O) -> u8
    ensures sink_faults_stay { O.faults out.old ≤ O.faults out.new }
    ensures said { Said O.Sink (fault_status_of fault.now) (fault_line_of fault.now) out.old out.new result }
{
    match fault {
        CommandFault::Refused(fault) => {
            tell_made(out, &fault_line(alloc, fault), fault_status(fault))
        }
        CommandFault::Stopped(fault) => {
            tell_made(out, &stop_line(alloc, *fault), stop_status(*fault))
        }
        CommandFault::Failed(fault) => say_failed(*fault, out),
    }
}

fn say_failed<O: Sink>(fault: FileFault, out: &mut O) -> u8
    ensures sink_faults_stay { O.faults out.old ≤ O.faults out.new }
    ensures said { Said O.Sink (failed_status fault) (failed_line fault) out.old out.new result }
{
    match fault {
        FileFault::Device(_) => tell(out, b"error: device\n", 8),
        FileFault::Memory => tell(out, b"error: memory\n", 10),
    }
}

const USAGE: &[u8] =
    b"error: usage: haloop run PROGRAM SCHEDULE OUT [journal=FILE] | plain PROGRAM OUT | check PROGRAM | demo N SEED\n";

/// Writes a text that was made, or the line of want of memory where there was none for it.
fn tell_made<O: Sink>(out: &mut O, made: &Result<Vec<u8>, Memory>, status: u8) -> u8
    ensures sink_faults_stay { O.faults out.old ≤ O.faults out.new }
    ensures said { (line : List ℕ) → IfOk made.now (λ text. text.items ≡ line) → Said O.Sink status line out.old out.new result }
{
    match made {
        Ok(line) => tell(out, line.as_slice(), status),
        Err(Memory) => tell(out, b"error: memory\n", 10),
    }
}

/// Writes one text, and answers the status; where the sink fails, 8 or 10 in its place.
pub(crate) fn tell<O: Sink>(out: &mut O, line: &[u8], status: u8) -> u8
    ensures sink_faults_stay { O.faults out.old ≤ O.faults out.new }
    ensures said { Said O.Sink status line.now out.old out.new result }
{
    match out.write_all(line) {
        Ok(()) => status,
        Err(SinkFault::Device(_)) => 8,
        Err(SinkFault::Memory) => 10,
    }
}
