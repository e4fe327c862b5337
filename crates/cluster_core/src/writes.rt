ghost use Rattle.std.specs.Prelude.{◌≡◌, ◌≤◌, ◌<◌, [], ◌∷◌, IfErr, None, OnErr, OnOk};
ghost use Rattle.hal_outside.specs.Told.{Rose};
ghost use Rattle.name_values.specs.Values.{World, value_of};
ghost use Rattle.run_model.specs.Attempts.{made_by};
ghost use Rattle.valid_copies.specs.Faults as work;
ghost use Rattle.valid_copies.specs.Readings.{IsTextOf};
ghost use Rattle.valid_copies.specs.RightCalls.{RightWork};
ghost use Rattle.valid_copies.specs.Stands.{Stands};
ghost use Rattle.cluster_core.specs.Disks.{Leaves};
ghost use Rattle.cluster_core.specs.Finishing.{BeganToWrite, CanFinish, WroteAll, commit_plan, goes_further};
ghost use Rattle.valid_copies.specs.LastWrites.{AsksByDigests, IsWriteOf, KeepsDigests};
ghost use Rattle.valid_copies.specs.Calls.{CallsHave};

use crate::state::State;
use hal_outside::Disks;
use loop_scheduler::last_step;
use node_names::{Name, Task};
use run_model::Attempt;
use std::alloc::Global;
use valid_copies::{WorkFault, write_copy, write_further};

impl State {
    /// Writes what an attempt made on its node, and on further nodes where it goes there.
    /// docs/CLUSTER.md, "What an attempt writes".
    pub fn write_made<D: Disks>(
        &mut self,
        alloc: Global,
        disks: &mut D,
        attempt: &Attempt,
        name: &Name,
        bytes: &[u8],
    ) -> Result<(), WorkFault>
        requires can { CanFinish self.old.setup attempt.now }
        requires name { made_by attempt.now.task ≡ name.now ∷ [] }
        ensures written { OnOk result (WroteAll self.old.setup attempt.now self.old.plain self.new.plain (D.told disks.old) (D.told disks.new)) }
        ensures begun { OnErr result (BeganToWrite self.old.setup attempt.now self.old.plain (D.told disks.old) (D.told disks.new)) }
        ensures valid { OnOk result ((w : World) → IsTextOf w.shape name.now bytes.now (value_of w name.now) → Stands w self.old.kept.table.copies (D.told disks.old) → Stands w self.new.kept.table.copies (D.told disks.new)) }
        ensures digests { OnErr result ((w : World) → IsTextOf w.shape name.now bytes.now (value_of w name.now) → Stands w self.old.kept.table.copies (D.told disks.old) → Stands w self.new.kept.table.copies None) }
        ensures agree { OnOk result (KeepsDigests self.old.kept.table.copies self.new.kept.table.copies (D.told disks.old) (D.told disks.new)) }
        ensures asks { AsksByDigests self.old.kept.table.copies (D.told disks.old) (D.told disks.new) }
        ensures wrote { CallsHave (IsWriteOf name.now bytes.now) (D.told disks.old) (D.told disks.new) }
        ensures values { self.new.kept.values ≡ self.old.kept.values }
        ensures round { self.new.kept.round ≡ self.old.kept.round }
        ensures same { self.new.setup ≡ self.old.setup }
        ensures calls { (w : World) → IsTextOf w.shape name.now bytes.now (value_of w name.now) → RightWork D.Disks w disks.old disks.new (IfErr result (λ fault. work.AtMissed fault ⊥)) }
        ensures disks { Leaves D.Disks self.old.setup.schedule.nodes disks.old disks.new }
        ensures device { IfErr result (λ fault. work.AtDevice fault (Rose (D.faults disks.old) (D.faults disks.new))) }
        ensures missed { IfErr result (λ fault. work.AtMissed fault ⊥) }
    {
        match write_copy(alloc, disks, &mut self.table, attempt.node, name, bytes) {
            Ok(()) => {}
            Err(fault) => return Err(fault),
        }
        if !self.goes_further(&attempt.task) {
            return Ok(());
        }
        write_further(
            alloc,
            disks,
            &mut self.table,
            &self.schedule,
            attempt.node,
            name,
            bytes,
        )
    }

    /// Whether what a task makes goes to further nodes.
    fn goes_further(&self, task: &Task) -> bool
        ensures { result ≡ goes_further self.now.setup task.now }
    {
        match *task {
            Task::Reduce { round, step, .. } => {
                step == last_step(&self.shape) && round % self.schedule.keep == 0
            }
            Task::Map { .. } | Task::Test { .. } => false,
        }
    }
}
