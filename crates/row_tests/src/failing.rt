// Files and a sink of which one call fails, and all others succeed.
ghost use Rattle.std.specs.Prelude.{Some};

use hal_outside::{DeviceFault, FileFault, Files, MemFiles, MemSink, Sink, SinkFault};
use std::alloc::Global;

/// Files in memory of which the call of this number fails, from 0.
#[derive(Drop)]
pub struct FailingFiles {
    pub files: MemFiles,
    pub failing: u64,
    pub calls: u64,
    pub faults: u64,
}

impl Files for FailingFiles {
    ghost faults = { λ f. f.faults };

    ghost absents = { λ f. f.files.0 };

    ghost told = { λ f. Some f.files.1 };

    fn read(&mut self, alloc: Global, name: &str) -> Result<Option<Vec<u8>>, FileFault> {
        let call = self.calls;
        self.calls = call.saturating_add(1);
        if call == self.failing {
            self.faults = self.faults.saturating_add(1);
            return Err(FileFault::Device(DeviceFault { code: 5 }));
        }
        self.files.read(alloc, name)
    }

    fn write(&mut self, name: &str, bytes: &[u8]) -> Result<(), FileFault> {
        let call = self.calls;
        self.calls = call.saturating_add(1);
        if call == self.failing {
            self.faults = self.faults.saturating_add(1);
            return Err(FileFault::Device(DeviceFault { code: 5 }));
        }
        self.files.write(name, bytes)
    }
}

/// A sink in memory of which the write of this number fails, from 0.
#[derive(Drop)]
pub struct FailingSink {
    pub sink: MemSink,
    pub failing: u64,
    pub calls: u64,
    pub faults: u64,
}

impl Sink for FailingSink {
    ghost faults = { λ s. s.faults };

    ghost told = { λ s. Some s.sink };

    fn write_all(&mut self, bytes: &[u8]) -> Result<(), SinkFault> {
        let call = self.calls;
        self.calls = call.saturating_add(1);
        if call == self.failing {
            self.faults = self.faults.saturating_add(1);
            return Err(SinkFault::Device(DeviceFault { code: 5 }));
        }
        self.sink.write_all(bytes)
    }
}
