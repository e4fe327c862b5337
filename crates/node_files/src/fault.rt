ghost use Rattle.std.specs.Prelude.{◌≡◌};

use hal_outside::{DeviceFault, DiskFault};
use thiserror::Error;

/// Why a file was not put or fetched.
#[derive(Clone, Copy, Debug, Error)]
pub enum Fault {
    #[error("{0}")]
    Device(DeviceFault),
    #[error("memory")]
    Memory,
}

impl From<DiskFault> for Fault {
    ghost use Rattle.node_files.specs.Faults.{fault_of};

    ghost from_gives = { λ fault made. made ≡ fault_of fault };

    fn from(fault: DiskFault) -> Fault {
        match fault {
            DiskFault::Device(device) => Fault::Device(device),
            DiskFault::Memory => Fault::Memory,
        }
    }
}
