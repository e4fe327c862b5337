ghost use Rattle.std.specs.Prelude.{◌≡◌, ℕ, ◌≤◌, List, Option, None, IfOk, IfErr, IfSome, OnOk, OnErr};
ghost use Rattle.std.specs.Option.{option_map};
ghost use Rattle.std.specs.FinMap as map;
ghost use Rattle.hal_outside.specs.Told.{FileMap, Rose, AfterFailedWrite, vec_bytes};
ghost use Rattle.hal_outside.specs.Faults.{AtFileDevice};

use crate::faults::FileFault;
use std::alloc::Global;

/// Files under names. Names and contents are bytes. Where the files are told, no call changes a file
/// that it does not name.
pub trait Files {
    /// How many calls a device failed.
    ghost faults: { Self → ℕ };

    /// How many reads found no file.
    ghost absents: { Self → ℕ };

    /// What the files are, where the implementation tells it.
    ghost told: { Self → Option FileMap };

    /// The bytes of a file, or `None` where there is none of this name.
    fn read(&mut self, alloc: Global, name: &str) -> Result<Option<Vec<u8>>, FileFault>
        ensures faults_stay { faults self.old ≤ faults self.new }
        ensures absents_stay { absents self.old ≤ absents self.new }
        ensures device { IfErr result (λ fault. AtFileDevice fault (Rose (faults self.old) (faults self.new))) }
        ensures absent { IfOk result (λ read. read ≡ None → Rose (absents self.old) (absents self.new)) }
        ensures content { IfOk result (λ read. IfSome (told self.old) (λ files. option_map vec_bytes read ≡ map.get files name.now)) }
        ensures kept { told self.new ≡ told self.old };

    /// Sets a file to these bytes. After a failure its old bytes are there, or a prefix of the new ones.
    fn write(&mut self, name: &str, bytes: &[u8]) -> Result<(), FileFault>
        ensures faults_stay { faults self.old ≤ faults self.new }
        ensures absents_stay { absents self.old ≤ absents self.new }
        ensures device { IfErr result (λ fault. AtFileDevice fault (Rose (faults self.old) (faults self.new))) }
        ensures written { OnOk result (told self.new ≡ option_map (λ files. map.insert files name.now bytes.now) (told self.old)) }
        ensures failed { OnErr result (AfterFailedWrite (told self.old) name.now bytes.now (told self.new)) };
}
