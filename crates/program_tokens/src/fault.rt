ghost use Rattle.std.specs.Prelude.{◌≡◌};

use hal_base::Memory;
use std::alloc::AllocError;
use thiserror::Error;

/// Why a text is refused: at the first token that cannot stand there, by its line; or want of memory.
#[derive(Clone, Copy, Debug, Error)]
pub enum SyntaxFault {
    #[error("line {line}: syntax")]
    At { line: u64 },
    #[error("memory")]
    Memory,
}

impl From<Memory> for SyntaxFault {
    ghost use Rattle.program_tokens.specs.declared.fault.SyntaxFault.TheVariants as fault;

    ghost from_gives = { λ _ it. it ≡ fault.Memory };

    fn from(_error: Memory) -> SyntaxFault {
        SyntaxFault::Memory
    }
}

impl From<AllocError> for SyntaxFault {
    ghost use Rattle.program_tokens.specs.declared.fault.SyntaxFault.TheVariants as fault;

    ghost from_gives = { λ _ it. it ≡ fault.Memory };

    fn from(_error: AllocError) -> SyntaxFault {
        SyntaxFault::Memory
    }
}
