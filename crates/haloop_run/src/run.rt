ghost use Rattle.hal_outside.specs.Calls.{CountsStay};
ghost use Rattle.haloop_run.specs.Statuses.{DiskCountsStay};
ghost use Rattle.haloop_run.specs.steps.Commands.{CameTo};
ghost use Rattle.haloop_run.specs.steps.Words.{asked_by};

use crate::chain::chain_of;
use crate::fault::CommandFault;
use crate::input::{Accepted, accepted_input};
use crate::output::write_parts;
use crate::replay::replay;
use crate::words::Command;
use counter_report::Report;
use hal_outside::{Disks, Files};
use plain_job::End;
use std::alloc::Global;

/// What a command that is done tells.
#[derive(Clone, Copy)]
pub(crate) enum Done {
    /// The chain ended in this round, and so.
    Plain { rounds: u32, end: End },
    /// The journal of the run has these counts.
    Run(Report),
}

/// Reads program, schedule and tables, computes the chain or runs the cluster, and writes the part files.
pub(crate) fn perform_command<F: Files, D: Disks>(
    alloc: Global,
    command: &Command<'_>,
    files: &mut F,
    disks: &mut D,
) -> Result<Done, CommandFault>
    ensures counts { CountsStay F.Files files.old files.new }
    ensures disk_counts { DiskCountsStay D.Disks disks.old disks.new }
    ensures came { CameTo F.Files D.Disks (asked_by command.now) files.old files.new disks.old disks.new result }
{
    let Accepted {
        program,
        schedule,
        tables,
    } = accepted_input(alloc, command, files)?;
    match schedule {
        None => {
            let chain = chain_of(alloc, program, tables)?;
            write_parts(alloc, command.out, &chain.parts, files)?;
            Ok(Done::Plain {
                rounds: chain.rounds,
                end: chain.end,
            })
        }
        Some(schedule) => {
            let replayed = replay(alloc, program, schedule, tables, disks)?;
            write_parts(alloc, command.out, &replayed.parts, files)?;
            Ok(Done::Run(replayed.report))
        }
    }
}
