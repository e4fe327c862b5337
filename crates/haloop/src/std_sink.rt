ghost use Rattle.std.specs.Prelude.{◌≡◌, None};

use crate::device::{device_fault, tell_failure};
use hal_outside::{Sink, SinkFault};
use std::io::ErrorKind;

/// The standard output, with no buffer, so that each error shows at the write that failed. It counts
/// the writes that the device failed, and tells each on the standard error; the count stops at its last value.
#[derive(Drop)]
pub struct StdSink<R> {
    runtime: R,
    faults: u64,
}

impl<R> StdSink<R> {
    /// The count at 0.
    pub fn new(runtime: R) -> StdSink<R>
        ensures { result.faults ≡ 0 }
    {
        StdSink { runtime, faults: 0 }
    }
}

impl<R: Print + Eprint> Sink for StdSink<R> {
    ghost faults = { λ s. s.faults };

    ghost told = { λ _. None };

    fn write_all(&mut self, bytes: &[u8]) -> Result<(), SinkFault> {
        match self.runtime.write_all(bytes) {
            Ok(()) => Ok(()),
            Err(error) if error.kind() == ErrorKind::OutOfMemory => Err(SinkFault::Memory),
            Err(error) => {
                self.faults = self.faults.saturating_add(1);
                tell_failure(&self.runtime, "standard output", &error);
                Err(SinkFault::Device(device_fault(&error)))
            }
        }
    }
}
