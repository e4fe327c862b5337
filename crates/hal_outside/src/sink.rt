ghost use Rattle.std.specs.Prelude.{◌≡◌, ℕ, ◌≤◌, ◌++◌, List, Option, IfErr, OnOk, OnErr};
ghost use Rattle.std.specs.Option.{option_map};
ghost use Rattle.hal_outside.specs.Told.{Rose, AfterFailedAppend};
ghost use Rattle.hal_outside.specs.Faults.{AtSinkDevice};

use crate::faults::SinkFault;

/// A place that bytes are written to, one after another.
pub trait Sink {
    /// How many writes a device failed.
    ghost faults: { Self → ℕ };

    /// All bytes so far, where the implementation tells them.
    ghost told: { Self → Option (List ℕ) };

    /// Adds these bytes. After a failure a prefix of them was added.
    fn write_all(&mut self, bytes: &[u8]) -> Result<(), SinkFault>
        ensures faults_stay { faults self.old ≤ faults self.new }
        ensures device { IfErr result (λ fault. AtSinkDevice fault (Rose (faults self.old) (faults self.new))) }
        ensures written { OnOk result (told self.new ≡ option_map (λ held. held ++ bytes.now) (told self.old)) }
        ensures failed { OnErr result (AfterFailedAppend (told self.old) bytes.now (told self.new)) };
}
