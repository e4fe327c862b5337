ghost use Rattle.std.specs.Prelude.{◌≡◌};

use hal_base::Memory;
use hal_outside::DeviceFault;
use node_files::Fault;
use thiserror::Error;

/// Why an attempt could not go on.
#[derive(Clone, Copy, Debug, Error)]
pub enum WorkFault {
    #[error("{0}")]
    Device(DeviceFault),
    /// A read found no file, or one with another digest.
    #[error("missed")]
    Missed,
    #[error("memory")]
    Memory,
}

impl From<Fault> for WorkFault {
    ghost use Rattle.valid_copies.specs.Faults.{fault_of};

    ghost from_gives = { λ fault made. made ≡ fault_of fault };

    fn from(fault: Fault) -> WorkFault {
        match fault {
            Fault::Device(device) => WorkFault::Device(device),
            Fault::Memory => WorkFault::Memory,
        }
    }
}

impl From<Memory> for WorkFault {
    ghost use Rattle.valid_copies.specs.declared.fault.WorkFault.TheVariants as fault;

    ghost from_gives = { λ memory made. made ≡ fault.Memory };

    fn from(_memory: Memory) -> WorkFault {
        WorkFault::Memory
    }
}
