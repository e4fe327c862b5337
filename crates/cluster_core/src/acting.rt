ghost use Rattle.std.specs.Prelude.{◌≡◌, ◌<◌, ◌+◌, [], ◌∷◌, drop, length, slice_get, IfErr, MatchOption, OnErr, OnOk, Some};
ghost use Rattle.counter_report.specs.declared.journal.Entry.TheVariants as line;
ghost use Rattle.hal_outside.specs.Told.{Rose};
ghost use Rattle.plain_job.specs.Fit.{FunctionsFit};
ghost use Rattle.run_laws.specs.WithoutLoss.{AreQuiet};
ghost use Rattle.run_model.specs.Acts.{act, fail, finish};
ghost use Rattle.run_model.specs.Plans.{gives};
ghost use Rattle.run_model.specs.State.{noted};
ghost use Rattle.run_model.specs.declared.attempt.Attempt.{Attempt as Tried};
ghost use Rattle.schedule_text.specs.declared.schedule.Event.TheVariants as event;
ghost use Rattle.valid_copies.specs.Calls.{Follows};
ghost use Rattle.valid_copies.specs.Faults as work;
ghost use Rattle.cluster_core.specs.Disks.{Leaves};
ghost use Rattle.cluster_core.specs.Faults.{AtDevice, AtMissed, AtRefusal, IsRefused, RefusedIn, StoppedIn};
ghost use Rattle.cluster_core.specs.Works.{CallsRight, CanWork, KeepsRight, StaysRight};
ghost use Rattle.valid_copies.specs.LastWrites.{AsksByDigests, KeepsDigests};
ghost use Rattle.cluster_core.specs.Origins.{MadeOfReads};

use crate::fault::CoreFault;
use crate::running::{count_failure, oldest, oldest_on, take_out};
use crate::state::State;
use counter_report::{Entry, EventWord};
use hal_base::{Functions, Memory};
use hal_outside::Disks;
use run_model::Attempt;
use schedule_text::Event;
use std::alloc::Global;
use valid_copies::WorkFault;

impl State {
    /// One event acts, or, where the events are spent, an attempt is done. docs/CLUSTER.md, "A turn".
    pub fn act<F: Functions, D: Disks>(
        &mut self,
        alloc: Global,
        functions: &F,
        disks: &mut D,
    ) -> Result<(), CoreFault>
        requires works { CanWork self.old.setup self.old.plain }
        requires fits { FunctionsFit (F.meaning functions.now) self.old.setup.shape }
        requires quiet { AreQuiet self.old.plain.events }
        requires open { self.old.plain.events ≡ [] → self.old.plain.running ≡ [] → ⊥ }
        ensures acted { OnOk result (Follows (act self.old.setup self.old.plain) (D.told disks.old) (D.told disks.new) (gives self.new.plain)) }
        ensures refused { IfErr result (RefusedIn (act self.old.setup self.old.plain) (D.told disks.old) (D.told disks.new) self.new.plain) }
        ensures right { OnOk result (StaysRight (F.meaning functions.now) self.old.setup (D.shows_damage disks.old) (D.told disks.old) (D.told disks.new) self.old.kept self.new.kept) }
        ensures still { IfErr result (λ fault. AtRefusal fault (StaysRight (F.meaning functions.now) self.old.setup (D.shows_damage disks.old) (D.told disks.old) (D.told disks.new) self.old.kept self.new.kept)) }
        ensures keeps { OnErr result (KeepsRight (F.meaning functions.now) self.old.setup (D.shows_damage disks.old) (D.told disks.old) self.old.kept self.new.kept) }
        ensures agree { OnOk result (KeepsDigests self.old.kept.table.copies self.new.kept.table.copies (D.told disks.old) (D.told disks.new)) }
        ensures agree_still { IfErr result (λ fault. AtRefusal fault (KeepsDigests self.old.kept.table.copies self.new.kept.table.copies (D.told disks.old) (D.told disks.new))) }
        ensures asks { AsksByDigests self.old.kept.table.copies (D.told disks.old) (D.told disks.new) }
        ensures made { MadeOfReads (F.meaning functions.now) self.old.setup.shape self.new.kept.round self.old.kept.values self.new.kept.values (D.told disks.old) (D.told disks.new) }
        ensures same { self.new.setup ≡ self.old.setup }
        ensures calls { CallsRight D.Disks (F.meaning functions.now) self.old.setup self.old.kept disks.old disks.new (IfErr result (λ fault. AtMissed fault ⊥)) }
        ensures disks { Leaves D.Disks self.old.setup.schedule.nodes disks.old disks.new }
        ensures device { IfErr result (λ fault. AtDevice fault (Rose (D.faults disks.old) (D.faults disks.new))) }
        ensures missed { IfErr result (λ fault. AtMissed fault (Rose (D.misses disks.old) (D.misses disks.new))) }
    {
        match self.next_event() {
            None => Ok(self.last_done(alloc, functions, disks)?),
            Some(Event::Done(node)) => Ok(self.done_on(alloc, functions, disks, node)?),
            Some(Event::Fail(node)) => self.fail_on(node),
            Some(Event::Round(round)) => Ok(self.wait_for(alloc, functions, disks, round)?),
            Some(_) => unreachable!(),
        }
    }

    /// The next event. `None` exactly where the events are spent.
    pub fn next_event(&self) -> Option<Event>
        ensures { MatchOption result (self.now.plain.events ≡ []) (λ e. self.now.plain.events ≡ e ∷ drop (self.now.kept.spent + 1) self.now.setup.schedule.events) }
    {
        self.schedule.events.get(self.spent).copied()
    }

    /// The events are spent, and the oldest attempt on the lowest node that runs one is done.
    fn last_done<F: Functions, D: Disks>(
        &mut self,
        alloc: Global,
        functions: &F,
        disks: &mut D,
    ) -> Result<(), WorkFault>
        requires works { CanWork self.old.setup self.old.plain }
        requires fits { FunctionsFit (F.meaning functions.now) self.old.setup.shape }
        requires spent { self.old.plain.events ≡ [] }
        requires open { self.old.plain.running ≡ [] → ⊥ }
        ensures acted { OnOk result (Follows (act self.old.setup self.old.plain) (D.told disks.old) (D.told disks.new) (gives self.new.plain)) }
        ensures stopped { IfErr result (StoppedIn (act self.old.setup self.old.plain) (D.told disks.old) (D.told disks.new)) }
        ensures right { OnOk result (StaysRight (F.meaning functions.now) self.old.setup (D.shows_damage disks.old) (D.told disks.old) (D.told disks.new) self.old.kept self.new.kept) }
        ensures still { IfErr result (λ fault. work.AtMissed fault (StaysRight (F.meaning functions.now) self.old.setup (D.shows_damage disks.old) (D.told disks.old) (D.told disks.new) self.old.kept self.new.kept)) }
        ensures keeps { OnErr result (KeepsRight (F.meaning functions.now) self.old.setup (D.shows_damage disks.old) (D.told disks.old) self.old.kept self.new.kept) }
        ensures agree { OnOk result (KeepsDigests self.old.kept.table.copies self.new.kept.table.copies (D.told disks.old) (D.told disks.new)) }
        ensures agree_still { IfErr result (λ fault. work.AtMissed fault (KeepsDigests self.old.kept.table.copies self.new.kept.table.copies (D.told disks.old) (D.told disks.new))) }
        ensures asks { AsksByDigests self.old.kept.table.copies (D.told disks.old) (D.told disks.new) }
        ensures made { MadeOfReads (F.meaning functions.now) self.old.setup.shape self.new.kept.round self.old.kept.values self.new.kept.values (D.told disks.old) (D.told disks.new) }
        ensures same { self.new.setup ≡ self.old.setup }
        ensures calls { CallsRight D.Disks (F.meaning functions.now) self.old.setup self.old.kept disks.old disks.new (IfErr result (λ fault. work.AtMissed fault ⊥)) }
        ensures disks { Leaves D.Disks self.old.setup.schedule.nodes disks.old disks.new }
        ensures device { IfErr result (λ fault. work.AtDevice fault (Rose (D.faults disks.old) (D.faults disks.new))) }
        ensures missed { IfErr result (λ fault. work.AtMissed fault (Rose (D.misses disks.old) (D.misses disks.new))) }
    {
        match oldest(&self.running) {
            Some(at) => self.finish(alloc, functions, disks, at),
            None => unreachable!(),
        }
    }

    /// The oldest attempt on a node is done, if the node runs one.
    fn done_on<F: Functions, D: Disks>(
        &mut self,
        alloc: Global,
        functions: &F,
        disks: &mut D,
        node: u32,
    ) -> Result<(), WorkFault>
        requires works { CanWork self.old.setup self.old.plain }
        requires fits { FunctionsFit (F.meaning functions.now) self.old.setup.shape }
        requires next { self.old.plain.events ≡ event.Done node ∷ drop (self.old.kept.spent + 1) self.old.setup.schedule.events }
        ensures acted { OnOk result (Follows (act self.old.setup self.old.plain) (D.told disks.old) (D.told disks.new) (gives self.new.plain)) }
        ensures stopped { IfErr result (StoppedIn (act self.old.setup self.old.plain) (D.told disks.old) (D.told disks.new)) }
        ensures right { OnOk result (StaysRight (F.meaning functions.now) self.old.setup (D.shows_damage disks.old) (D.told disks.old) (D.told disks.new) self.old.kept self.new.kept) }
        ensures still { IfErr result (λ fault. work.AtMissed fault (StaysRight (F.meaning functions.now) self.old.setup (D.shows_damage disks.old) (D.told disks.old) (D.told disks.new) self.old.kept self.new.kept)) }
        ensures keeps { OnErr result (KeepsRight (F.meaning functions.now) self.old.setup (D.shows_damage disks.old) (D.told disks.old) self.old.kept self.new.kept) }
        ensures agree { OnOk result (KeepsDigests self.old.kept.table.copies self.new.kept.table.copies (D.told disks.old) (D.told disks.new)) }
        ensures agree_still { IfErr result (λ fault. work.AtMissed fault (KeepsDigests self.old.kept.table.copies self.new.kept.table.copies (D.told disks.old) (D.told disks.new))) }
        ensures asks { AsksByDigests self.old.kept.table.copies (D.told disks.old) (D.told disks.new) }
        ensures made { MadeOfReads (F.meaning functions.now) self.old.setup.shape self.new.kept.round self.old.kept.values self.new.kept.values (D.told disks.old) (D.told disks.new) }
        ensures same { self.new.setup ≡ self.old.setup }
        ensures calls { CallsRight D.Disks (F.meaning functions.now) self.old.setup self.old.kept disks.old disks.new (IfErr result (λ fault. work.AtMissed fault ⊥)) }
        ensures disks { Leaves D.Disks self.old.setup.schedule.nodes disks.old disks.new }
        ensures device { IfErr result (λ fault. work.AtDevice fault (Rose (D.faults disks.old) (D.faults disks.new))) }
        ensures missed { IfErr result (λ fault. work.AtMissed fault (Rose (D.misses disks.old) (D.misses disks.new))) }
    {
        self.spent += 1;
        match oldest_on(&self.running, node) {
            Some(at) => self.finish(alloc, functions, disks, at),
            None => Ok(self.skip(EventWord::Done, node)?),
        }
    }

    /// Until the round that is waited for the oldest attempt on the lowest node is done.
    fn wait_for<F: Functions, D: Disks>(
        &mut self,
        alloc: Global,
        functions: &F,
        disks: &mut D,
        round: u32,
    ) -> Result<(), WorkFault>
        requires works { CanWork self.old.setup self.old.plain }
        requires fits { FunctionsFit (F.meaning functions.now) self.old.setup.shape }
        requires next { self.old.plain.events ≡ event.Round round ∷ drop (self.old.kept.spent + 1) self.old.setup.schedule.events }
        ensures acted { OnOk result (Follows (act self.old.setup self.old.plain) (D.told disks.old) (D.told disks.new) (gives self.new.plain)) }
        ensures stopped { IfErr result (StoppedIn (act self.old.setup self.old.plain) (D.told disks.old) (D.told disks.new)) }
        ensures right { OnOk result (StaysRight (F.meaning functions.now) self.old.setup (D.shows_damage disks.old) (D.told disks.old) (D.told disks.new) self.old.kept self.new.kept) }
        ensures still { IfErr result (λ fault. work.AtMissed fault (StaysRight (F.meaning functions.now) self.old.setup (D.shows_damage disks.old) (D.told disks.old) (D.told disks.new) self.old.kept self.new.kept)) }
        ensures keeps { OnErr result (KeepsRight (F.meaning functions.now) self.old.setup (D.shows_damage disks.old) (D.told disks.old) self.old.kept self.new.kept) }
        ensures agree { OnOk result (KeepsDigests self.old.kept.table.copies self.new.kept.table.copies (D.told disks.old) (D.told disks.new)) }
        ensures agree_still { IfErr result (λ fault. work.AtMissed fault (KeepsDigests self.old.kept.table.copies self.new.kept.table.copies (D.told disks.old) (D.told disks.new))) }
        ensures asks { AsksByDigests self.old.kept.table.copies (D.told disks.old) (D.told disks.new) }
        ensures made { MadeOfReads (F.meaning functions.now) self.old.setup.shape self.new.kept.round self.old.kept.values self.new.kept.values (D.told disks.old) (D.told disks.new) }
        ensures same { self.new.setup ≡ self.old.setup }
        ensures calls { CallsRight D.Disks (F.meaning functions.now) self.old.setup self.old.kept disks.old disks.new (IfErr result (λ fault. work.AtMissed fault ⊥)) }
        ensures disks { Leaves D.Disks self.old.setup.schedule.nodes disks.old disks.new }
        ensures device { IfErr result (λ fault. work.AtDevice fault (Rose (D.faults disks.old) (D.faults disks.new))) }
        ensures missed { IfErr result (λ fault. work.AtMissed fault (Rose (D.misses disks.old) (D.misses disks.new))) }
    {
        match oldest(&self.running) {
            Some(at) if self.round < round => self.finish(alloc, functions, disks, at),
            _ => {
                self.spent += 1;
                Ok(self.skip(EventWord::Round, round)?)
            }
        }
    }

    /// The oldest attempt on a node fails, if the node runs one.
    fn fail_on(&mut self, node: u32) -> Result<(), CoreFault>
        requires works { CanWork self.old.setup self.old.plain }
        requires next { self.old.plain.events ≡ event.Fail node ∷ drop (self.old.kept.spent + 1) self.old.setup.schedule.events }
        ensures acted { OnOk result (act self.old.setup self.old.plain ≡ gives self.new.plain) }
        ensures refused { IfErr result (IsRefused (act self.old.setup self.old.plain) self.new.plain) }
        ensures same { self.new.setup ≡ self.old.setup }
        ensures table { self.new.kept.table ≡ self.old.kept.table }
        ensures values { self.new.kept.values ≡ self.old.kept.values }
        ensures round { self.new.kept.round ≡ self.old.kept.round }
    {
        self.spent += 1;
        match oldest_on(&self.running, node) {
            Some(at) => self.fail(at),
            None => Ok(self.skip(EventWord::Fail, node)?),
        }
    }

    /// The attempt at a place fails, and, where it is one too many of its task, the run.
    fn fail(&mut self, at: usize) -> Result<(), CoreFault>
        requires works { CanWork self.old.setup self.old.plain }
        requires place { at < length self.old.kept.running }
        ensures acted { OnOk result ((a : Tried) → slice_get self.old.kept.running at ≡ Some a → fail self.old.setup a self.old.plain ≡ gives self.new.plain) }
        ensures refused { IfErr result (λ fault. (a : Tried) → slice_get self.old.kept.running at ≡ Some a → IsRefused (fail self.old.setup a self.old.plain) self.new.plain fault) }
        ensures same { self.new.setup ≡ self.old.setup }
        ensures table { self.new.kept.table ≡ self.old.kept.table }
        ensures values { self.new.kept.values ≡ self.old.kept.values }
        ensures round { self.new.kept.round ≡ self.old.kept.round }
    {
        let Attempt { task, node } = take_out(&mut self.running, at);
        let count = count_failure(&mut self.failures, &task)?;
        self.journal.push(Entry::Fail { task, node, count })?;
        if count == self.schedule.attempts {
            Err(CoreFault::TaskFailed { task })
        } else {
            Ok(())
        }
    }

    /// Notes that an event did not apply.
    fn skip(&mut self, word: EventWord, number: u32) -> Result<(), Memory>
        ensures noted { OnOk result (self.new.plain ≡ noted (line.Skip word number ∷ []) self.old.plain) }
        ensures kept { OnErr result (self.new ≡ self.old) }
        ensures same { self.new.setup ≡ self.old.setup }
        ensures table { self.new.kept.table ≡ self.old.kept.table }
        ensures values { self.new.kept.values ≡ self.old.kept.values }
        ensures round { self.new.kept.round ≡ self.old.kept.round }
    {
        self.journal.push(Entry::Skip { word, number })
    }
}
