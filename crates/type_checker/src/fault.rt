ghost use Rattle.std.specs.Prelude.{◌≡◌};

use hal_base::{Kind, Memory};

/// The first fault in functions, or want of memory. `function` is the number of the function, from 0, and
/// `line` that of the token named. `want` is the kind that the place asks for, `got` that of the
/// expression that stands there. docs/LANGUAGE.md, "What is refused".
#[derive(Clone, Copy)]
pub enum TypeFault {
    WrongKind {
        function: u64,
        line: u64,
        want: Kind,
        got: Kind,
    },
    UnknownName {
        function: u64,
        line: u64,
    },
    WrongCount {
        function: u64,
        line: u64,
    },
    EmitMismatch {
        function: u64,
        line: u64,
    },
    DoubleName {
        function: u64,
        line: u64,
    },
    StreamMismatch {
        function: u64,
        line: u64,
    },
    Memory,
}

impl From<Memory> for TypeFault {
    ghost use Rattle.type_checker.specs.declared.fault.TypeFault.TheVariants as fault;

    ghost from_gives = { λ _ it. it ≡ fault.Memory };

    fn from(_error: Memory) -> TypeFault {
        TypeFault::Memory
    }
}
