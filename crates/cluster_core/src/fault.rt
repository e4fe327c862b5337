ghost use Rattle.std.specs.Prelude.{◌≡◌};

use hal_base::Memory;
use hal_outside::DeviceFault;
use node_names::Task;
use valid_copies::WorkFault;

/// Why a cluster cannot go on. docs/CLUSTER.md, "A turn".
#[derive(Clone, Copy)]
pub enum CoreFault {
    /// So many attempts at the task failed as the schedule allows.
    TaskFailed { task: Task },
    /// A read found no file, or one with another digest; what follows on that is not built yet.
    NotBuilt,
    Device(DeviceFault),
    Memory,
}

impl From<WorkFault> for CoreFault {
    ghost use Rattle.cluster_core.specs.Faults.{core_fault_of};

    ghost from_gives = { λ fault made. made ≡ core_fault_of fault };

    fn from(fault: WorkFault) -> CoreFault {
        match fault {
            WorkFault::Device(device) => CoreFault::Device(device),
            WorkFault::Missed => CoreFault::NotBuilt,
            WorkFault::Memory => CoreFault::Memory,
        }
    }
}

impl From<Memory> for CoreFault {
    ghost use Rattle.cluster_core.specs.declared.fault.CoreFault.TheVariants as fault;

    ghost from_gives = { λ memory made. made ≡ fault.Memory };

    fn from(_memory: Memory) -> CoreFault {
        CoreFault::Memory
    }
}
