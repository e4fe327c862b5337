ghost use Rattle.std.specs.Prelude.{◌≡◌};

use hal_base::Memory;
use std::alloc::AllocError;
use thiserror::Error;

/// A failure of a device, with a code that the implementation chooses.
#[derive(Clone, Copy, Debug, Error)]
#[error("device {code}")]
pub struct DeviceFault {
    pub code: u32,
}

/// Why a call on files failed.
#[derive(Clone, Copy, Debug, Error)]
pub enum FileFault {
    #[error("{0}")]
    Device(DeviceFault),
    #[error("memory")]
    Memory,
}

impl From<AllocError> for FileFault {
    ghost use Rattle.hal_outside.specs.declared.faults.FileFault.TheVariants as file;

    ghost from_gives = { λ _ fault. fault ≡ file.Memory };

    fn from(_error: AllocError) -> FileFault {
        FileFault::Memory
    }
}

impl From<Memory> for FileFault {
    ghost use Rattle.hal_outside.specs.declared.faults.FileFault.TheVariants as file;

    ghost from_gives = { λ _ fault. fault ≡ file.Memory };

    fn from(_error: Memory) -> FileFault {
        FileFault::Memory
    }
}

/// Why a write to a sink failed.
#[derive(Clone, Copy, Debug, Error)]
pub enum SinkFault {
    #[error("{0}")]
    Device(DeviceFault),
    #[error("memory")]
    Memory,
}

/// Why a call on disks failed.
#[derive(Clone, Copy, Debug, Error)]
pub enum DiskFault {
    #[error("{0}")]
    Device(DeviceFault),
    #[error("memory")]
    Memory,
}

impl From<Memory> for DiskFault {
    ghost use Rattle.hal_outside.specs.declared.faults.DiskFault.TheVariants as disk;

    ghost from_gives = { λ _ fault. fault ≡ disk.Memory };

    fn from(_error: Memory) -> DiskFault {
        DiskFault::Memory
    }
}

impl From<FileFault> for DiskFault {
    ghost use Rattle.hal_outside.specs.Faults.{disk_fault_of};

    ghost from_gives = { λ file fault. fault ≡ disk_fault_of file };

    fn from(fault: FileFault) -> DiskFault {
        match fault {
            FileFault::Device(device) => DiskFault::Device(device),
            FileFault::Memory => DiskFault::Memory,
        }
    }
}
