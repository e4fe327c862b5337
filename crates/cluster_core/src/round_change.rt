ghost use Rattle.std.specs.Prelude.{IfErr, None, OnErr, OnOk, Option, map, ℕ, ◌++◌, ◌+◌, ◌<◌, ◌≡◌, ◌≤◌};
ghost use Rattle.hal_outside.specs.Told.{Rose};
ghost use Rattle.name_values.specs.Values.{World};
ghost use Rattle.run_model.specs.Plans.{gives};
ghost use Rattle.run_model.specs.Removals.{clear};
ghost use Rattle.run_model.specs.State.{PlainCluster, with_copies};
ghost use Rattle.run_model.specs.Tasks.{tasks_of_round};
ghost use Rattle.valid_copies.specs.Calls.{Begun, CallsHave, Follows};
ghost use Rattle.valid_copies.specs.Faults as work;
ghost use Rattle.valid_copies.specs.RightCalls.{RightWork};
ghost use Rattle.valid_copies.specs.Stands.{Stands};
ghost use Rattle.cluster_core.specs.Disks.{Leaves};
ghost use Rattle.cluster_core.specs.RoundChange.{dropped, entered, lines_of};
ghost use Rattle.valid_copies.specs.LastWrites.{AsksByDigests, KeepsDigests, WritesNothing};

use crate::state::State;
use crate::values::forget;
use counter_report::{Entry, Journal};
use hal_base::Memory;
use hal_outside::Disks;
use loop_scheduler::Tasks;
use run_model::Attempt;
use std::alloc::Global;
use valid_copies::{WorkFault, clear_nodes};

impl State {
    /// Running attempts are dropped, each with a line.
    pub fn drop_running(&mut self) -> Result<(), Memory>
        ensures dropped { OnOk result (self.new.plain ≡ dropped self.old.plain) }
        ensures same { self.new.setup ≡ self.old.setup }
        ensures failures { self.new.plain.failures ≡ self.old.plain.failures }
        ensures table { self.new.kept.table ≡ self.old.kept.table }
        ensures values { self.new.kept.values ≡ self.old.kept.values }
        ensures round { self.new.kept.round ≡ self.old.kept.round }
    {
        note_dropped(&mut self.journal, &self.running)?;
        self.running.clear();
        Ok(())
    }

    /// Removes from the up nodes what does not stay in a round.
    pub fn clear_up<D: Disks>(
        &mut self,
        alloc: Global,
        disks: &mut D,
        round: u32,
    ) -> Result<(), WorkFault>
        requires begun { 1 ≤ round }
        ensures cleared { OnOk result ((c : PlainCluster) → c.round ≡ round → c.copies ≡ self.old.plain.copies → Follows (clear self.old.setup self.old.plain.up c) (D.told disks.old) (D.told disks.new) (gives (with_copies self.new.plain.copies c))) }
        ensures stopped { OnErr result ((c : PlainCluster) → c.round ≡ round → c.copies ≡ self.old.plain.copies → Begun (clear self.old.setup self.old.plain.up c) (D.told disks.old) (D.told disks.new)) }
        ensures others { OnOk result (self.new.plain ≡ with_copies self.new.plain.copies self.old.plain) }
        ensures valid { OnOk result ((w : World) → Stands w self.old.kept.table.copies (D.told disks.old) → Stands w self.new.kept.table.copies (D.told disks.new)) }
        ensures table_kept { OnErr result (self.new.kept.table ≡ self.old.kept.table) }
        ensures agree { OnOk result (KeepsDigests self.old.kept.table.copies self.new.kept.table.copies (D.told disks.old) (D.told disks.new)) }
        ensures asks { AsksByDigests self.old.kept.table.copies (D.told disks.old) (D.told disks.new) }
        ensures wrote_nothing { CallsHave WritesNothing (D.told disks.old) (D.told disks.new) }
        ensures same { self.new.setup ≡ self.old.setup }
        ensures failures { self.new.plain.failures ≡ self.old.plain.failures }
        ensures values { self.new.kept.values ≡ self.old.kept.values }
        ensures round { self.new.kept.round ≡ self.old.kept.round }
        ensures calls { (w : World) → RightWork D.Disks w disks.old disks.new (IfErr result (λ fault. work.AtMissed fault ⊥)) }
        ensures disks { Leaves D.Disks self.old.setup.schedule.nodes disks.old disks.new }
        ensures device { IfErr result (λ fault. work.AtDevice fault (Rose (D.faults disks.old) (D.faults disks.new))) }
        ensures missed { IfErr result (λ fault. work.AtMissed fault ⊥) }
    {
        let up = self.table.up();
        match clear_nodes(
            alloc,
            disks,
            &mut self.table,
            &self.shape,
            self.schedule.keep,
            round,
            up,
        ) {
            Ok(()) => Ok(()),
            Err(fault) => Err(fault),
        }
    }

    /// The next round begins, with its tasks.
    pub fn enter(&mut self, tasks: Tasks) -> Result<(), Memory>
        requires tasks { tasks ≡ tasks_of_round self.old.setup.shape (self.old.plain.round + 1) }
        requires few { self.old.plain.round < 4294967295 }
        ensures entered { OnOk result (self.new.plain ≡ entered self.old.plain) }
        ensures kept { OnErr result (self.new.kept ≡ self.old.kept) }
        ensures same { self.new.setup ≡ self.old.setup }
        ensures failures { self.new.plain.failures ≡ self.old.plain.failures }
        ensures table { self.new.kept.table ≡ self.old.kept.table }
        ensures forgotten { OnOk result (self.new.kept.values ≡ map (λ (_ : Option ℕ). None) self.old.kept.values) }
        ensures next { OnOk result (self.new.kept.round ≡ self.old.kept.round + 1) }
    {
        let round = self.round + 1;
        self.journal.push(Entry::Round { round })?;
        self.round = round;
        self.tasks = tasks;
        forget(&mut self.values);
        Ok(())
    }
}

/// Adds a line for each attempt that is dropped.
fn note_dropped(journal: &mut Journal, running: &[Attempt]) -> Result<(), Memory>
    ensures { OnOk result (journal.new ≡ journal.old ++ lines_of running.now) }
{
    'running: for attempt in running {
        journal.push(Entry::Dropped {
            task: attempt.task,
            node: attempt.node,
        })?;
    }
    Ok(())
}
