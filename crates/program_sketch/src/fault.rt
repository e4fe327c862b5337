use hal_base::Memory;
use thiserror::Error;

/// What is wrong with a program.
#[derive(Clone, Copy, Debug, Error)]
pub enum What {
    #[error("syntax")]
    Syntax,
    #[error("limit")]
    Limit,
    #[error("wrong-kind")]
    WrongKind,
    #[error("unknown-name")]
    UnknownName,
    #[error("wrong-count")]
    WrongCount,
    #[error("emit-mismatch")]
    EmitMismatch,
    #[error("double-name")]
    DoubleName,
    #[error("stream-mismatch")]
    StreamMismatch,
    #[error("unknown-table")]
    UnknownTable,
    #[error("schema-mismatch")]
    SchemaMismatch,
}

/// Why a text is refused as a program: what is wrong in which line, or want of memory.
#[derive(Clone, Copy, Debug, Error)]
pub enum ProgramFault {
    #[error("line {line}: {what}")]
    At { line: u64, what: What },
    #[error("memory")]
    Memory,
}

impl From<Memory> for ProgramFault {
    ghost use Rattle.std.specs.Prelude.{◌≡◌};
    ghost use Rattle.program_sketch.specs.declared.fault.ProgramFault.TheVariants as fault;

    ghost from_gives = { λ _ it. it ≡ fault.Memory };

    fn from(_error: Memory) -> ProgramFault {
        ProgramFault::Memory
    }
}
