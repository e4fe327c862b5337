ghost use Rattle.std.specs.Prelude.{◌≡◌};

use hal_base::Memory;
use thiserror::Error;

/// Why bytes were not read on: no text of the kind goes on so; or want of memory.
#[derive(Clone, Copy, Debug, Error)]
pub enum TextFault {
    #[error("malformed")]
    Malformed,
    #[error("memory")]
    Memory,
}

impl From<Memory> for TextFault {
    ghost use Rattle.record_blocks.specs.declared.fault.TextFault.TheVariants as fault;

    ghost from_gives = { λ _ it. it ≡ fault.Memory };

    fn from(_memory: Memory) -> TextFault {
        TextFault::Memory
    }
}
