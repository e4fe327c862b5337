ghost use Rattle.std.specs.Prelude.{◌≡◌, ◌≤◌, ℕ, List, IfErr, IfOk};
ghost use Rattle.hal_outside.specs.Calls.{CountsStay, OnlyReads};
ghost use Rattle.haloop_run.specs.Statuses.{IsChecked};
ghost use Rattle.haloop_run.specs.Words.{AskToCheck};
ghost use Rattle.haloop_run.specs.steps.Checks.{Checked, OnlyAccepted, ProgramJudged};
ghost use Rattle.haloop_run.specs.steps.Inputs.{IsOfProgram, Stops};

use crate::fault::CommandFault;
use crate::input::program_file;
use crate::top::{say_fault, tell};
use cache_conditions::{check_text, conditions};
use hal_outside::{Files, Sink};
use std::alloc::Global;

/// Writes the verdicts on the program of a file, and answers the status.
pub(crate) fn do_check<F: Files, O: Sink>(
    alloc: Global,
    name: &str,
    files: &mut F,
    out: &mut O,
) -> u8
    ensures counts { CountsStay F.Files files.old files.new }
    ensures sink_faults_stay { O.faults out.old ≤ O.faults out.new }
    ensures checked { (words : List (List ℕ)) → AskToCheck words name.now → Checked F.Files O.Sink words files.old files.new out.old out.new result }
{
    match verdicts_of(alloc, name, files) {
        Ok(text) => tell(out, text.as_slice(), 0),
        Err(fault) => say_fault(alloc, &fault, out),
    }
}

/// The text of the verdicts on the program of a file. docs/FORMATS.md, "Verdicts".
fn verdicts_of<F: Files>(alloc: Global, name: &str, files: &mut F) -> Result<Vec<u8>, CommandFault>
    ensures reads { OnlyReads F.Files files.old files.new }
    ensures found { IfOk result (λ text. IsChecked F.Files name.now files.old text.items) }
    ensures only { IfOk result (λ _. OnlyAccepted F.Files name.now files.old) }
    ensures stops { IfErr result (Stops F.Files files.old files.new (ProgramJudged name.now)) }
    ensures sort { IfErr result IsOfProgram }
{
    let program = program_file(alloc, name, files)?;
    let verdicts = conditions(alloc, &program)?;
    Ok(check_text(alloc, &verdicts)?)
}
