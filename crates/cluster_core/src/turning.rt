ghost use Rattle.std.specs.Prelude.{◌≡◌, ◌<◌, [], IfErr, IfOk, IfSome, IsSome, List, OnErr, OnOk};
ghost use Rattle.hal_base.specs.declared.record.Record.{Record as Row};
ghost use Rattle.hal_outside.specs.Told.{Rose};
ghost use Rattle.node_names.specs.declared.task.Task.{Task as Wanted};
ghost use Rattle.plain_job.specs.Fit.{FunctionsFit};
ghost use Rattle.run_laws.specs.WithoutLoss.{StaysOrderly};
ghost use Rattle.run_model.specs.Acts.{act, failures_of};
ghost use Rattle.run_model.specs.Plans.{gives};
ghost use Rattle.run_model.specs.Start.{start};
ghost use Rattle.run_model.specs.Turns.{turn};
ghost use Rattle.task_values.specs.Worlds.{WorldFits};
ghost use Rattle.valid_copies.specs.Calls.{Follows};
ghost use Rattle.cluster_core.specs.Disks.{Leaves};
ghost use Rattle.cluster_core.specs.Faults.{AtDevice, AtMissed, AtRefusal, RefusedIn};
ghost use Rattle.cluster_core.specs.Turns.{IsOfChain, IsRight, IsRunning, decision_in, turned_to};
ghost use Rattle.cluster_core.specs.Works.{CallsRight, KeepsRight, StandsFor, StaysRight, world_of};
ghost use Rattle.valid_copies.specs.LastWrites.{AsksByDigests, KeepsDigests};
ghost use Rattle.cluster_core.specs.Origins.{AreAnswers, MadeOfReads};

use crate::fault::CoreFault;
use crate::finished::Finished;
use crate::state::State;
use hal_base::{Functions, Memory};
use hal_outside::Disks;
use std::alloc::Global;

impl State {
    /// One turn: advance, start, act. docs/CLUSTER.md, "A turn".
    pub fn turn<F: Functions, D: Disks>(
        &mut self,
        alloc: Global,
        functions: &F,
        disks: &mut D,
    ) -> Result<Option<Finished>, CoreFault>
        requires running { IsRunning self.old.setup self.old.plain }
        requires fits { FunctionsFit (F.meaning functions.now) self.old.setup.shape }
        ensures turned { IfOk result (λ finished. Follows (turn self.old.setup (decision_in self.old) self.old.plain) (D.told disks.old) (D.told disks.new) (gives (turned_to finished self.new.plain))) }
        ensures rounds { IfOk result (λ finished. IfSome finished (λ it. it.rounds ≡ self.new.plain.round)) }
        ensures refused { IfErr result (RefusedIn (turn self.old.setup (decision_in self.old) self.old.plain) (D.told disks.old) (D.told disks.new) self.new.plain) }
        ensures running { OnOk result (IsRunning self.new.setup self.new.plain) }
        ensures right { IfOk result (λ finished. (tables : List (List Row)) → WorldFits (world_of (F.meaning functions.now) self.old.setup tables) → D.shows_damage disks.old → IsSome (D.told disks.old) → StandsFor (world_of (F.meaning functions.now) self.old.setup tables) self.old.kept (D.told disks.old) → IsRight (world_of (F.meaning functions.now) self.old.setup tables) (D.told disks.new) self.new.kept finished) }
        ensures chain { IsOfChain self.old }
        ensures still { IfErr result (λ fault. AtRefusal fault (StaysRight (F.meaning functions.now) self.old.setup (D.shows_damage disks.old) (D.told disks.old) (D.told disks.new) self.old.kept self.new.kept)) }
        ensures keeps { OnErr result (KeepsRight (F.meaning functions.now) self.old.setup (D.shows_damage disks.old) (D.told disks.old) self.old.kept self.new.kept) }
        ensures agree { OnOk result (KeepsDigests self.old.kept.table.copies self.new.kept.table.copies (D.told disks.old) (D.told disks.new)) }
        ensures agree_still { IfErr result (λ fault. AtRefusal fault (KeepsDigests self.old.kept.table.copies self.new.kept.table.copies (D.told disks.old) (D.told disks.new))) }
        ensures asks { AsksByDigests self.old.kept.table.copies (D.told disks.old) (D.told disks.new) }
        ensures made { MadeOfReads (F.meaning functions.now) self.old.setup.shape self.new.kept.round self.old.kept.values self.new.kept.values (D.told disks.old) (D.told disks.new) }
        ensures parts { IfOk result (λ finished. IfSome finished (λ it. AreAnswers self.old.setup.shape it.parts (D.told disks.old) (D.told disks.new))) }
        ensures same { self.new.setup ≡ self.old.setup }
        ensures calls { CallsRight D.Disks (F.meaning functions.now) self.old.setup self.old.kept disks.old disks.new (IfErr result (λ fault. AtMissed fault ⊥)) }
        ensures disks { Leaves D.Disks self.old.setup.schedule.nodes disks.old disks.new }
        ensures device { IfErr result (λ fault. AtDevice fault (Rose (D.faults disks.old) (D.faults disks.new))) }
        ensures missed { IfErr result (λ fault. AtMissed fault (Rose (D.misses disks.old) (D.misses disks.new))) }
    {
        match self.advance(alloc, disks) {
            Ok(Some(finished)) => Ok(Some(finished)),
            Ok(None) => match self.go_on(alloc, functions, disks) {
                Ok(()) => Ok(None),
                Err(fault) => Err(fault),
            },
            Err(fault) => Err(CoreFault::from(fault)),
        }
    }

    /// Tasks start, and then one event acts or an attempt is done.
    fn go_on<F: Functions, D: Disks>(
        &mut self,
        alloc: Global,
        functions: &F,
        disks: &mut D,
    ) -> Result<(), CoreFault>
        requires orderly { StaysOrderly self.old.setup self.old.plain }
        requires fits { FunctionsFit (F.meaning functions.now) self.old.setup.shape }
        requires few { (task : Wanted) → failures_of task self.old.plain.failures < self.old.setup.schedule.attempts }
        requires open { (start self.old.setup self.old.plain).events ≡ [] → (start self.old.setup self.old.plain).running ≡ [] → ⊥ }
        ensures acted { OnOk result (Follows (act self.old.setup (start self.old.setup self.old.plain)) (D.told disks.old) (D.told disks.new) (gives self.new.plain)) }
        ensures refused { IfErr result (RefusedIn (act self.old.setup (start self.old.setup self.old.plain)) (D.told disks.old) (D.told disks.new) self.new.plain) }
        ensures right { OnOk result (StaysRight (F.meaning functions.now) self.old.setup (D.shows_damage disks.old) (D.told disks.old) (D.told disks.new) self.old.kept self.new.kept) }
        ensures still { IfErr result (λ fault. AtRefusal fault (StaysRight (F.meaning functions.now) self.old.setup (D.shows_damage disks.old) (D.told disks.old) (D.told disks.new) self.old.kept self.new.kept)) }
        ensures keeps { OnErr result (KeepsRight (F.meaning functions.now) self.old.setup (D.shows_damage disks.old) (D.told disks.old) self.old.kept self.new.kept) }
        ensures agree { OnOk result (KeepsDigests self.old.kept.table.copies self.new.kept.table.copies (D.told disks.old) (D.told disks.new)) }
        ensures agree_still { IfErr result (λ fault. AtRefusal fault (KeepsDigests self.old.kept.table.copies self.new.kept.table.copies (D.told disks.old) (D.told disks.new))) }
        ensures asks { AsksByDigests self.old.kept.table.copies (D.told disks.old) (D.told disks.new) }
        ensures made { MadeOfReads (F.meaning functions.now) self.old.setup.shape self.new.kept.round self.old.kept.values self.new.kept.values (D.told disks.old) (D.told disks.new) }
        ensures same { self.new.setup ≡ self.old.setup }
        ensures calls { CallsRight D.Disks (F.meaning functions.now) self.old.setup self.old.kept disks.old disks.new (IfErr result (λ fault. AtMissed fault ⊥)) }
        ensures disks { Leaves D.Disks self.old.setup.schedule.nodes disks.old disks.new }
        ensures device { IfErr result (λ fault. AtDevice fault (Rose (D.faults disks.old) (D.faults disks.new))) }
        ensures missed { IfErr result (λ fault. AtMissed fault (Rose (D.misses disks.old) (D.misses disks.new))) }
    {
        match self.start() {
            Ok(()) => match self.act(alloc, functions, disks) {
                Ok(()) => Ok(()),
                Err(fault) => Err(fault),
            },
            Err(Memory) => Err(CoreFault::Memory),
        }
    }
}
