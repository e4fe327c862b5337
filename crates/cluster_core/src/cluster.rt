ghost use Rattle.std.specs.Prelude.{◌≡◌, ◌⊎◌, IfErr, IfOk, IfSome, IsSome, None, OnErr, OnOk, Some};
ghost use Rattle.cluster_core.specs.Clusters.{CanBegin, IsBegun, IsByChain, IsDeviceOrMemory, IsRightAfter, RanToEnd, RanToFault, Repeats, RunsUntil, answer_in, answer_of, finished_in};
ghost use Rattle.cluster_core.specs.declared.cluster.Answer.TheVariants as answer;
ghost use Rattle.cluster_core.specs.declared.cluster.Turned.TheVariants as turned;
ghost use Rattle.cluster_core.specs.Disks.{Leaves};
ghost use Rattle.cluster_core.specs.Faults.{AtDevice, AtMissed, AtRefusal, RefusedIn};
ghost use Rattle.cluster_core.specs.Loading.{IsOver, setup_of};
ghost use Rattle.cluster_core.specs.Turns.{IsOfChain, decision_in, turned_to};
ghost use Rattle.cluster_core.specs.Works.{CallsRight, KeepsRight, OverRight, StandsFor, StaysRight};
ghost use Rattle.hal_outside.specs.Told.{OnTold, Rose};
ghost use Rattle.name_values.specs.Values.{World};
ghost use Rattle.plain_job.specs.Fit.{FunctionsFit, TablesFit};
ghost use Rattle.run_model.specs.Plans.{gives};
ghost use Rattle.run_model.specs.Runs.{load, loaded};
ghost use Rattle.run_model.specs.Turns.{turn};
ghost use Rattle.valid_copies.specs.Calls.{Begun, Follows};
ghost use Rattle.valid_copies.specs.RightCalls.{RightCalls};
ghost use Rattle.valid_copies.specs.LastWrites.{AsksByDigests, DigestsAgree, KeepsDigests};
ghost use Rattle.cluster_core.specs.Origins.{AreAnswers, MadeOfReads};

use crate::fault::CoreFault;
use crate::finished::Finished;
use crate::loading::fill;
use crate::state::State;
use counter_report::Journal;
use hal_base::{CopyIn, Functions, Memory, Shape, Tables};
use hal_outside::Disks;
use schedule_text::Schedule;
use std::alloc::Global;
use std::marker::Model;

/// What a turn came to.
#[derive(Drop)]
pub enum Turned {
    Acted,
    Finished(Finished),
}

/// What a cluster has answered for good.
#[derive(Drop)]
pub enum Answer {
    Fault(CoreFault),
    Finished(Finished),
}

/// A cluster that is replayed: its nodes, its journal and, once its run is over, how that ended. docs/CLUSTER.md.
#[derive(Drop)]
pub struct Cluster {
    state: State,
    answered: Option<Answer>,
}

impl Model for Cluster {
    ghost use Rattle.cluster_core.specs.Clusters.{Progress, RunsUntil};

    ghost Value = { Progress };

    ghost view = { λ c. record { state = c.state; answered = c.answered } };

    ghost invariant = { λ c. RunsUntil c.answered c.state };
}

impl Cluster {
    /// Wipes all nodes, writes each block of each table to its nodes, and begins round 1. The shape has the number of blocks
    /// of each table and no caches, and the events of the schedule are `done`, `fail` and `round` alone. Errors: a device's
    /// fault, or want of memory. docs/CLUSTER.md, "Copies".
    pub fn load<D: Disks>(
        alloc: Global,
        shape: Shape,
        schedule: Schedule,
        tables: &Tables,
        disks: &mut D,
    ) -> Result<Cluster, CoreFault>
        requires can { CanBegin shape schedule }
        requires fit { TablesFit shape tables.now }
        ensures loaded { OnOk result (Follows (load (setup_of shape schedule)) (D.told disks.old) (D.told disks.new) (gives (loaded (setup_of shape schedule)))) }
        ensures cluster { IfOk result (IsBegun (setup_of shape schedule)) }
        ensures running { IfOk result (λ cluster. RunsUntil cluster.answered cluster.state) }
        ensures begun { OnErr result (Begun (load (setup_of shape schedule)) (D.told disks.old) (D.told disks.new)) }
        ensures only { IfErr result IsDeviceOrMemory }
        ensures stands { IfOk result (λ cluster. (w : World) → IsOver shape tables.now schedule.block w → StandsFor w cluster.state.kept (D.told disks.new)) }
        ensures agree { IfOk result (λ cluster. DigestsAgree cluster.state.kept.table.copies (D.told disks.new)) }
        ensures texts { (w : World) → IsOver shape tables.now schedule.block w → OnTold (RightCalls w) (D.told disks.old) (D.told disks.new) }
        ensures disks { Leaves D.Disks schedule.nodes disks.old disks.new }
        ensures device { IfErr result (λ fault. AtDevice fault (Rose (D.faults disks.old) (D.faults disks.new))) }
        ensures not_missed { IsSome (D.told disks.old) → D.misses disks.new ≡ D.misses disks.old }
    {
        match fill(alloc, disks, &shape, &schedule, tables) {
            Ok(table) => match State::in_first_round(alloc, shape, schedule, table) {
                Ok(state) => Ok(Cluster {
                    state,
                    answered: None,
                }),
                Err(Memory) => Err(CoreFault::Memory),
            },
            Err(fault) => Err(CoreFault::from(fault)),
        }
    }

    /// One turn: advance, start, act. A fault, or the end of the run, is answered by each later call too; in place of the end
    /// such a call may answer `Memory`, which is no fault of the cluster. Errors: `TaskFailed` where a task failed as often as
    /// the schedule allows, `NotBuilt` where a read missed, a device's fault, or want of memory. After each of them the kept
    /// digests and the values of tests are right, and after the first two the disks hold the copies. docs/CLUSTER.md, "A turn".
    pub fn turn<F: Functions, D: Disks>(
        &mut self,
        alloc: Global,
        functions: &F,
        disks: &mut D,
    ) -> Result<Turned, CoreFault>
        requires fits { FunctionsFit (F.meaning functions.now) self.old.state.setup.shape }
        ensures turned { self.old.answered ≡ None → IfOk result (λ it. Follows (turn self.old.state.setup (decision_in self.old.state) self.old.state.plain) (D.told disks.old) (D.told disks.new) (gives (turned_to (finished_in it) self.new.state.plain))) }
        ensures rounds { self.old.answered ≡ None → IfOk result (λ it. IfSome (finished_in it) (λ it. it.rounds ≡ self.new.state.plain.round)) }
        ensures refused { self.old.answered ≡ None → IfErr result (RefusedIn (turn self.old.state.setup (decision_in self.old.state) self.old.state.plain) (D.told disks.old) (D.told disks.new) self.new.state.plain) }
        ensures right { self.old.answered ≡ None → IfOk result (λ it. IsRightAfter (F.meaning functions.now) self.old.state (D.shows_damage disks.old) (D.told disks.old) (D.told disks.new) self.new.state.kept (finished_in it)) }
        ensures texts { self.old.answered ≡ None → D.shows_damage disks.old → OverRight (F.meaning functions.now) self.old.state.setup (D.told disks.old) self.old.state.kept (λ w. OnTold (RightCalls w) (D.told disks.old) (D.told disks.new)) }
        ensures unmissed { self.old.answered ≡ None → D.sound disks.old → OverRight (F.meaning functions.now) self.old.state.setup (D.told disks.old) self.old.state.kept (λ _. (D.misses disks.new ≡ D.misses disks.old) × IfErr result (λ fault. AtMissed fault ⊥)) }
        ensures chain { self.old.answered ≡ None → IsOfChain self.old.state }
        ensures still { self.old.answered ≡ None → IfErr result (λ fault. AtRefusal fault (StaysRight (F.meaning functions.now) self.old.state.setup (D.shows_damage disks.old) (D.told disks.old) (D.told disks.new) self.old.state.kept self.new.state.kept)) }
        ensures keeps { self.old.answered ≡ None → OnErr result (KeepsRight (F.meaning functions.now) self.old.state.setup (D.shows_damage disks.old) (D.told disks.old) self.old.state.kept self.new.state.kept) }
        ensures agree { self.old.answered ≡ None → OnOk result (KeepsDigests self.old.state.kept.table.copies self.new.state.kept.table.copies (D.told disks.old) (D.told disks.new)) }
        ensures agree_still { self.old.answered ≡ None → IfErr result (λ fault. AtRefusal fault (KeepsDigests self.old.state.kept.table.copies self.new.state.kept.table.copies (D.told disks.old) (D.told disks.new))) }
        ensures asks { self.old.answered ≡ None → AsksByDigests self.old.state.kept.table.copies (D.told disks.old) (D.told disks.new) }
        ensures made { self.old.answered ≡ None → MadeOfReads (F.meaning functions.now) self.old.state.setup.shape self.new.state.kept.round self.old.state.kept.values self.new.state.kept.values (D.told disks.old) (D.told disks.new) }
        ensures parts { self.old.answered ≡ None → IfOk result (λ it. IfSome (finished_in it) (λ it. AreAnswers self.old.state.setup.shape it.parts (D.told disks.old) (D.told disks.new))) }
        ensures answers { self.old.answered ≡ None → self.new.answered ≡ answer_in result }
        ensures kept { IfSome self.old.answered (λ answer. Repeats turned.Finished answer result × (self.new ≡ self.old) × (disks.new ≡ disks.old)) }
        ensures running { RunsUntil self.new.answered self.new.state }
        ensures same { self.new.state.setup ≡ self.old.state.setup }
        ensures disks { Leaves D.Disks self.old.state.setup.schedule.nodes disks.old disks.new }
        ensures device { IfErr result (λ fault. AtDevice fault (Rose (D.faults disks.old) (D.faults disks.new) ⊎ (self.old.answered ≡ Some (answer.Fault fault)))) }
        ensures missed { IfErr result (λ fault. AtMissed fault (Rose (D.misses disks.old) (D.misses disks.new) ⊎ (self.old.answered ≡ Some (answer.Fault fault)))) }
    {
        if let Some(answer) = &self.answered {
            return match again(alloc, answer) {
                Ok(finished) => Ok(Turned::Finished(finished)),
                Err(fault) => Err(fault),
            };
        }
        self.next_turn(alloc, functions, disks)
    }

    /// Turns until the run is finished, or a fault ends it: the parts of the last step in the last round, the number of that
    /// round, and how the loop ended. What was answered before is answered again. Errors, and answers after them, are those of
    /// `turn`. docs/CLUSTER.md, "How a run ends".
    pub fn run<F: Functions, D: Disks>(
        &mut self,
        alloc: Global,
        functions: &F,
        disks: &mut D,
    ) -> Result<Finished, CoreFault>
        requires fits { FunctionsFit (F.meaning functions.now) self.old.state.setup.shape }
        ensures finished { self.old.answered ≡ None → IfOk result (RanToEnd (F.meaning functions.now) self.old.state (D.told disks.old) self.new.state (D.told disks.new)) }
        ensures refused { self.old.answered ≡ None → IfErr result (RanToFault (F.meaning functions.now) self.old.state (D.told disks.old) self.new.state (D.told disks.new)) }
        ensures right { self.old.answered ≡ None → IfOk result (λ it. IsRightAfter (F.meaning functions.now) self.old.state (D.shows_damage disks.old) (D.told disks.old) (D.told disks.new) self.new.state.kept (Some it)) }
        ensures texts { self.old.answered ≡ None → D.shows_damage disks.old → OverRight (F.meaning functions.now) self.old.state.setup (D.told disks.old) self.old.state.kept (λ w. OnTold (RightCalls w) (D.told disks.old) (D.told disks.new)) }
        ensures unmissed { self.old.answered ≡ None → D.sound disks.old → OverRight (F.meaning functions.now) self.old.state.setup (D.told disks.old) self.old.state.kept (λ _. (D.misses disks.new ≡ D.misses disks.old) × IfErr result (λ fault. AtMissed fault ⊥)) }
        ensures by_chain { self.old.answered ≡ None → IsByChain (F.meaning functions.now) self.old.state (D.shows_damage disks.old) (D.told disks.old) (D.told disks.new) self.new.state.plain result }
        ensures still { self.old.answered ≡ None → IfErr result (λ fault. AtRefusal fault (StaysRight (F.meaning functions.now) self.old.state.setup (D.shows_damage disks.old) (D.told disks.old) (D.told disks.new) self.old.state.kept self.new.state.kept)) }
        ensures keeps { self.old.answered ≡ None → OnErr result (KeepsRight (F.meaning functions.now) self.old.state.setup (D.shows_damage disks.old) (D.told disks.old) self.old.state.kept self.new.state.kept) }
        ensures agree { self.old.answered ≡ None → OnOk result (KeepsDigests self.old.state.kept.table.copies self.new.state.kept.table.copies (D.told disks.old) (D.told disks.new)) }
        ensures agree_still { self.old.answered ≡ None → IfErr result (λ fault. AtRefusal fault (KeepsDigests self.old.state.kept.table.copies self.new.state.kept.table.copies (D.told disks.old) (D.told disks.new))) }
        ensures asks { self.old.answered ≡ None → AsksByDigests self.old.state.kept.table.copies (D.told disks.old) (D.told disks.new) }
        ensures answers { self.old.answered ≡ None → self.new.answered ≡ Some (answer_of result) }
        ensures kept { IfSome self.old.answered (λ answer. Repeats (λ it. it) answer result × (self.new ≡ self.old) × (disks.new ≡ disks.old)) }
        ensures same { self.new.state.setup ≡ self.old.state.setup }
        ensures disks { Leaves D.Disks self.old.state.setup.schedule.nodes disks.old disks.new }
        ensures device { IfErr result (λ fault. AtDevice fault (Rose (D.faults disks.old) (D.faults disks.new) ⊎ (self.old.answered ≡ Some (answer.Fault fault)))) }
        ensures missed { IfErr result (λ fault. AtMissed fault (Rose (D.misses disks.old) (D.misses disks.new) ⊎ (self.old.answered ≡ Some (answer.Fault fault)))) }
    {
        if let Some(answer) = &self.answered {
            return again(alloc, answer);
        }
        self.all_turns(alloc, functions, disks)
    }

    /// The journal so far. docs/FORMATS.md, "Journals".
    pub fn journal(&self) -> &Journal
        ensures { result.now ≡ self.now.state.plain.journal }
    {
        &self.state.journal
    }

    /// A turn, where nothing is answered yet.
    fn next_turn<F: Functions, D: Disks>(
        &mut self,
        alloc: Global,
        functions: &F,
        disks: &mut D,
    ) -> Result<Turned, CoreFault>
        requires open { self.old.answered ≡ None }
        requires fits { FunctionsFit (F.meaning functions.now) self.old.state.setup.shape }
        ensures turned { IfOk result (λ it. Follows (turn self.old.state.setup (decision_in self.old.state) self.old.state.plain) (D.told disks.old) (D.told disks.new) (gives (turned_to (finished_in it) self.new.state.plain))) }
        ensures rounds { IfOk result (λ it. IfSome (finished_in it) (λ it. it.rounds ≡ self.new.state.plain.round)) }
        ensures refused { IfErr result (RefusedIn (turn self.old.state.setup (decision_in self.old.state) self.old.state.plain) (D.told disks.old) (D.told disks.new) self.new.state.plain) }
        ensures right { IfOk result (λ it. IsRightAfter (F.meaning functions.now) self.old.state (D.shows_damage disks.old) (D.told disks.old) (D.told disks.new) self.new.state.kept (finished_in it)) }
        ensures chain { IsOfChain self.old.state }
        ensures still { IfErr result (λ fault. AtRefusal fault (StaysRight (F.meaning functions.now) self.old.state.setup (D.shows_damage disks.old) (D.told disks.old) (D.told disks.new) self.old.state.kept self.new.state.kept)) }
        ensures keeps { OnErr result (KeepsRight (F.meaning functions.now) self.old.state.setup (D.shows_damage disks.old) (D.told disks.old) self.old.state.kept self.new.state.kept) }
        ensures agree { OnOk result (KeepsDigests self.old.state.kept.table.copies self.new.state.kept.table.copies (D.told disks.old) (D.told disks.new)) }
        ensures agree_still { IfErr result (λ fault. AtRefusal fault (KeepsDigests self.old.state.kept.table.copies self.new.state.kept.table.copies (D.told disks.old) (D.told disks.new))) }
        ensures asks { AsksByDigests self.old.state.kept.table.copies (D.told disks.old) (D.told disks.new) }
        ensures made { MadeOfReads (F.meaning functions.now) self.old.state.setup.shape self.new.state.kept.round self.old.state.kept.values self.new.state.kept.values (D.told disks.old) (D.told disks.new) }
        ensures parts { IfOk result (λ it. IfSome (finished_in it) (λ it. AreAnswers self.old.state.setup.shape it.parts (D.told disks.old) (D.told disks.new))) }
        ensures answers { self.new.answered ≡ answer_in result }
        ensures running { RunsUntil self.new.answered self.new.state }
        ensures same { self.new.state.setup ≡ self.old.state.setup }
        ensures calls { CallsRight D.Disks (F.meaning functions.now) self.old.state.setup self.old.state.kept disks.old disks.new (IfErr result (λ fault. AtMissed fault ⊥)) }
        ensures disks { Leaves D.Disks self.old.state.setup.schedule.nodes disks.old disks.new }
        ensures device { IfErr result (λ fault. AtDevice fault (Rose (D.faults disks.old) (D.faults disks.new))) }
        ensures missed { IfErr result (λ fault. AtMissed fault (Rose (D.misses disks.old) (D.misses disks.new))) }
    {
        match self.state.turn(alloc, functions, disks) {
            Ok(None) => Ok(Turned::Acted),
            Ok(Some(finished)) => self.keep(alloc, finished),
            Err(fault) => {
                self.answered = Some(Answer::Fault(fault));
                Err(fault)
            }
        }
    }

    /// The end of the run, which is kept for later calls.
    fn keep(&mut self, alloc: Global, finished: Finished) -> Result<Turned, CoreFault>
        ensures kept { IfOk result (λ it. it ≡ turned.Finished finished) }
        ensures memory { IfErr result (λ fault. fault ≡ CoreFault.Memory) }
        ensures answers { self.new.answered ≡ answer_in result }
        ensures state { self.new.state ≡ self.old.state }
    {
        match finished.copy(alloc) {
            Ok(kept) => {
                self.answered = Some(Answer::Finished(kept));
                Ok(Turned::Finished(finished))
            }
            Err(Memory) => {
                self.answered = Some(Answer::Fault(CoreFault::Memory));
                Err(CoreFault::Memory)
            }
        }
    }

    /// All turns until an answer, where nothing is answered yet.
    fn all_turns<F: Functions, D: Disks>(
        &mut self,
        alloc: Global,
        functions: &F,
        disks: &mut D,
    ) -> Result<Finished, CoreFault>
        requires open { self.old.answered ≡ None }
        requires running { RunsUntil self.old.answered self.old.state }
        requires fits { FunctionsFit (F.meaning functions.now) self.old.state.setup.shape }
        ensures finished { IfOk result (RanToEnd (F.meaning functions.now) self.old.state (D.told disks.old) self.new.state (D.told disks.new)) }
        ensures refused { IfErr result (RanToFault (F.meaning functions.now) self.old.state (D.told disks.old) self.new.state (D.told disks.new)) }
        ensures right { IfOk result (λ it. IsRightAfter (F.meaning functions.now) self.old.state (D.shows_damage disks.old) (D.told disks.old) (D.told disks.new) self.new.state.kept (Some it)) }
        ensures by_chain { IsByChain (F.meaning functions.now) self.old.state (D.shows_damage disks.old) (D.told disks.old) (D.told disks.new) self.new.state.plain result }
        ensures still { IfErr result (λ fault. AtRefusal fault (StaysRight (F.meaning functions.now) self.old.state.setup (D.shows_damage disks.old) (D.told disks.old) (D.told disks.new) self.old.state.kept self.new.state.kept)) }
        ensures keeps { OnErr result (KeepsRight (F.meaning functions.now) self.old.state.setup (D.shows_damage disks.old) (D.told disks.old) self.old.state.kept self.new.state.kept) }
        ensures agree { OnOk result (KeepsDigests self.old.state.kept.table.copies self.new.state.kept.table.copies (D.told disks.old) (D.told disks.new)) }
        ensures agree_still { IfErr result (λ fault. AtRefusal fault (KeepsDigests self.old.state.kept.table.copies self.new.state.kept.table.copies (D.told disks.old) (D.told disks.new))) }
        ensures asks { AsksByDigests self.old.state.kept.table.copies (D.told disks.old) (D.told disks.new) }
        ensures answers { self.new.answered ≡ Some (answer_of result) }
        ensures same { self.new.state.setup ≡ self.old.state.setup }
        ensures calls { CallsRight D.Disks (F.meaning functions.now) self.old.state.setup self.old.state.kept disks.old disks.new (IfErr result (λ fault. AtMissed fault ⊥)) }
        ensures disks { Leaves D.Disks self.old.state.setup.schedule.nodes disks.old disks.new }
        ensures device { IfErr result (λ fault. AtDevice fault (Rose (D.faults disks.old) (D.faults disks.new))) }
        ensures missed { IfErr result (λ fault. AtMissed fault (Rose (D.misses disks.old) (D.misses disks.new))) }
    {
        'turns: loop {
            match self.next_turn(alloc, functions, disks) {
                Ok(Turned::Acted) => {}
                Ok(Turned::Finished(finished)) => return Ok(finished),
                Err(fault) => return Err(fault),
            }
        }
    }
}

/// What was answered for good, once more.
fn again(alloc: Global, answer: &Answer) -> Result<Finished, CoreFault>
    ensures { Repeats (λ it. it) answer.now result }
{
    match answer {
        Answer::Fault(fault) => Err(*fault),
        Answer::Finished(finished) => Ok(finished.copy(alloc)?),
    }
}
