use cluster_core::CoreFault;
use hal_base::{Items, Memory, TableFault, Text};
use hal_outside::FileFault;
use loop_program::{ProgramFault, What};
use node_names::Task;
use schedule_text::{ScheduleFault, ScheduleWhat};

/// What is wrong with the input of a command.
#[derive(Drop)]
pub(crate) enum InputFault {
    /// The file of this name is not there.
    Absent(Items<u8>),
    /// This is wrong with the program in this line.
    BadProgram { line: u64, what: What },
    /// This is wrong with the schedule in this line.
    BadSchedule { line: u64, what: ScheduleWhat },
    /// The schedule has an event that is not built yet.
    NotBuilt,
    /// The file of the table of this name stands for no table.
    BadTable { name: Text, what: TableFault },
}

/// Why a run of the cluster is refused.
#[derive(Clone, Copy)]
pub(crate) enum RunFault {
    /// The task failed as often as the schedule allows.
    TaskFailed { task: Task },
    /// A read missed, and what follows on that is not built yet.
    Missed,
}

/// Why a command is not done.
#[derive(Drop)]
pub(crate) enum CommandFault {
    /// Its input is refused.
    Refused(InputFault),
    /// Its run of the cluster is refused.
    Stopped(RunFault),
    /// A device failed a call, or memory ran out.
    Failed(FileFault),
}

impl From<FileFault> for CommandFault {
    ghost use Rattle.std.specs.Prelude.{◌≡◌};
    ghost use Rattle.haloop_run.specs.declared.fault.CommandFault.TheVariants.{Failed};

    ghost from_gives = { λ fault it. it ≡ Failed fault };

    fn from(fault: FileFault) -> CommandFault {
        CommandFault::Failed(fault)
    }
}

impl From<Memory> for CommandFault {
    ghost use Rattle.std.specs.Prelude.{◌≡◌};
    ghost use Rattle.hal_outside.specs.declared.faults.FileFault.TheVariants as file;
    ghost use Rattle.haloop_run.specs.declared.fault.CommandFault.TheVariants.{Failed};

    ghost from_gives = { λ _ it. it ≡ Failed file.Memory };

    fn from(_error: Memory) -> CommandFault {
        CommandFault::Failed(FileFault::Memory)
    }
}

impl From<ProgramFault> for CommandFault {
    ghost use Rattle.std.specs.Prelude.{◌≡◌};
    ghost use Rattle.haloop_run.specs.steps.Inputs.{program_refused};

    ghost from_gives = { λ fault it. it ≡ program_refused fault };

    fn from(fault: ProgramFault) -> CommandFault {
        match fault {
            ProgramFault::At { line, what } => {
                CommandFault::Refused(InputFault::BadProgram { line, what })
            }
            ProgramFault::Memory => CommandFault::Failed(FileFault::Memory),
        }
    }
}

impl From<ScheduleFault> for CommandFault {
    ghost use Rattle.std.specs.Prelude.{◌≡◌};
    ghost use Rattle.haloop_run.specs.steps.Inputs.{schedule_refused};

    ghost from_gives = { λ fault it. it ≡ schedule_refused fault };

    fn from(fault: ScheduleFault) -> CommandFault {
        match fault {
            ScheduleFault::At { line, what } => {
                CommandFault::Refused(InputFault::BadSchedule { line, what })
            }
            ScheduleFault::Memory => CommandFault::Failed(FileFault::Memory),
        }
    }
}

impl From<CoreFault> for CommandFault {
    ghost use Rattle.std.specs.Prelude.{◌≡◌};
    ghost use Rattle.haloop_run.specs.steps.Commands.{run_refused};

    ghost from_gives = { λ fault it. it ≡ run_refused fault };

    fn from(fault: CoreFault) -> CommandFault {
        match fault {
            CoreFault::TaskFailed { task } => CommandFault::Stopped(RunFault::TaskFailed { task }),
            CoreFault::NotBuilt => CommandFault::Stopped(RunFault::Missed),
            CoreFault::Device(device) => CommandFault::Failed(FileFault::Device(device)),
            CoreFault::Memory => CommandFault::Failed(FileFault::Memory),
        }
    }
}
