ghost use Rattle.std.specs.Prelude.{◌≡◌, [], Some};

use crate::faults::SinkFault;
use crate::sink::Sink;
use std::alloc::Global;
use std::marker::Model;

/// A sink in memory, which contracts see as its bytes. It raises no fault.
#[derive(Drop)]
pub struct MemSink {
    held: Vec<u8>,
}

impl Model for MemSink {
    ghost use Rattle.std.specs.Prelude.{ℕ, List};

    ghost Value = { List ℕ };

    ghost view = { λ s. s.held.items };
}

impl MemSink {
    pub fn new(alloc: Global) -> MemSink
        ensures { result ≡ [] }
    {
        MemSink {
            held: Vec::new(alloc),
        }
    }

    pub fn bytes(&self) -> &[u8]
        ensures { result.now ≡ self.now }
    {
        self.held.as_slice()
    }
}

impl Sink for MemSink {
    ghost faults = { λ s. 0 };

    ghost told = { λ s. Some s };

    fn write_all(&mut self, bytes: &[u8]) -> Result<(), SinkFault> {
        match self.held.extend_from_slice(bytes) {
            Ok(()) => Ok(()),
            Err(_) => Err(SinkFault::Memory),
        }
    }
}
