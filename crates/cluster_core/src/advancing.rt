ghost use Rattle.std.specs.Prelude.{◌≡◌, ◌<◌, [], ◌∷◌, ◌+◌, drop, map, true, IfErr, IfOk, IfSome, None, OnErr, OnOk, Some};
ghost use Rattle.counter_report.specs.declared.journal.Entry.TheVariants as line;
ghost use Rattle.name_values.specs.Values.{World};
ghost use Rattle.hal_outside.specs.Told.{Rose};
ghost use Rattle.run_laws.specs.WithoutLoss.{Orderly};
ghost use Rattle.run_model.specs.Advance.{advance, is_decided, next_round, passed};
ghost use Rattle.run_model.specs.Plans.{gives};
ghost use Rattle.run_model.specs.State.{noted};
ghost use Rattle.valid_copies.specs.Calls.{CallsHave, Follows};
ghost use Rattle.valid_copies.specs.Faults as work;
ghost use Rattle.valid_copies.specs.RightCalls.{RightWork};
ghost use Rattle.valid_copies.specs.Stands.{Stands};
ghost use Rattle.cluster_core.specs.Disks.{Leaves};
ghost use Rattle.cluster_core.specs.Faults.{StoppedIn};
ghost use Rattle.cluster_core.specs.Works.{StandsFor};
ghost use Rattle.cluster_core.specs.Turns.{IsOfChain, IsRight, Rightly, advance_by, advanced_to, decision_in};
ghost use Rattle.valid_copies.specs.LastWrites.{AsksByDigests, KeepsDigests, WritesNothing};
ghost use Rattle.cluster_core.specs.Origins.{AreAnswers, NoneNew};

use crate::deciding::decision;
use crate::finished::Finished;
use crate::parts::read_parts;
use crate::state::State;
use counter_report::{EndWord, Entry};
use hal_base::Memory;
use hal_outside::Disks;
use loop_scheduler::round_tasks;
use schedule_text::Event;
use std::alloc::Global;
use valid_copies::WorkFault;

impl State {
    /// What follows on a round that is decided: the next round, or the end, with the parts of the last step. Then the
    /// events by which rounds until this one are waited for are spent. docs/CLUSTER.md, "A turn".
    pub fn advance<D: Disks>(
        &mut self,
        alloc: Global,
        disks: &mut D,
    ) -> Result<Option<Finished>, WorkFault>
        requires orderly { Orderly self.old.setup self.old.plain }
        ensures advanced { IfOk result (λ finished. Follows (advance self.old.setup (decision_in self.old) self.old.plain) (D.told disks.old) (D.told disks.new) (gives (advanced_to finished self.new.plain))) }
        ensures rounds { IfOk result (λ finished. IfSome finished (λ it. it.rounds ≡ self.new.plain.round)) }
        ensures stopped { IfErr result (StoppedIn (advance self.old.setup (decision_in self.old) self.old.plain) (D.told disks.old) (D.told disks.new)) }
        ensures right { IfOk result (λ finished. (w : World) → Rightly w self.old.setup.shape (D.shows_damage disks.old) (D.told disks.old) self.old.kept → IsRight w (D.told disks.new) self.new.kept finished) }
        ensures chain { IsOfChain self.old }
        ensures still { IfErr result (λ fault. work.AtMissed fault ((w : World) → StandsFor w self.old.kept (D.told disks.old) → StandsFor w self.new.kept (D.told disks.new))) }
        ensures keeps { OnErr result ((w : World) → StandsFor w self.old.kept (D.told disks.old) → StandsFor w self.new.kept None) }
        ensures agree { OnOk result (KeepsDigests self.old.kept.table.copies self.new.kept.table.copies (D.told disks.old) (D.told disks.new)) }
        ensures agree_still { IfErr result (λ fault. work.AtMissed fault (KeepsDigests self.old.kept.table.copies self.new.kept.table.copies (D.told disks.old) (D.told disks.new))) }
        ensures asks { AsksByDigests self.old.kept.table.copies (D.told disks.old) (D.told disks.new) }
        ensures wrote_nothing { CallsHave WritesNothing (D.told disks.old) (D.told disks.new) }
        ensures old_values { NoneNew self.old.kept.values self.new.kept.values }
        ensures parts { IfOk result (λ finished. IfSome finished (λ it. AreAnswers self.old.setup.shape it.parts (D.told disks.old) (D.told disks.new))) }
        ensures same { self.new.setup ≡ self.old.setup }
        ensures failures { self.new.plain.failures ≡ self.old.plain.failures }
        ensures calls { (w : World) → Stands w self.old.kept.table.copies (D.told disks.old) → RightWork D.Disks w disks.old disks.new (IfErr result (λ fault. work.AtMissed fault ⊥)) }
        ensures disks { Leaves D.Disks self.old.setup.schedule.nodes disks.old disks.new }
        ensures device { IfErr result (λ fault. work.AtDevice fault (Rose (D.faults disks.old) (D.faults disks.new))) }
        ensures missed { IfErr result (λ fault. work.AtMissed fault (Rose (D.misses disks.old) (D.misses disks.new))) }
    {
        if !self.is_decided() {
            self.pass();
            return Ok(None);
        }
        match decision(alloc, &self.shape, self.round, &self.values) {
            Ok(None) => match self.next_round(alloc, disks) {
                Ok(()) => {
                    self.pass();
                    Ok(None)
                }
                Err(fault) => Err(fault),
            },
            Ok(Some(end)) => self.end_with(alloc, disks, end),
            Err(Memory) => Err(WorkFault::Memory),
        }
    }

    /// The run ends with this round, if each part can be read.
    fn end_with<D: Disks>(
        &mut self,
        alloc: Global,
        disks: &mut D,
        end: EndWord,
    ) -> Result<Option<Finished>, WorkFault>
        requires orderly { Orderly self.old.setup self.old.plain }
        requires decided { is_decided self.old.setup self.old.plain ≡ true }
        requires ends { decision_in self.old ≡ Some end }
        ensures read { IfOk result (λ finished. Follows (advance_by self.old.setup (Some end) self.old.plain) (D.told disks.old) (D.told disks.new) (gives (advanced_to finished self.new.plain))) }
        ensures rounds { IfOk result (λ finished. IfSome finished (λ it. it.rounds ≡ self.new.plain.round)) }
        ensures stopped { IfErr result (StoppedIn (advance_by self.old.setup (Some end) self.old.plain) (D.told disks.old) (D.told disks.new)) }
        ensures right { IfOk result (λ finished. (w : World) → Rightly w self.old.setup.shape (D.shows_damage disks.old) (D.told disks.old) self.old.kept → IsRight w (D.told disks.new) self.new.kept finished) }
        ensures still { IfErr result (λ fault. work.AtMissed fault ((w : World) → StandsFor w self.old.kept (D.told disks.old) → StandsFor w self.new.kept (D.told disks.new))) }
        ensures keeps { OnErr result ((w : World) → StandsFor w self.old.kept (D.told disks.old) → StandsFor w self.new.kept None) }
        ensures agree { OnOk result (KeepsDigests self.old.kept.table.copies self.new.kept.table.copies (D.told disks.old) (D.told disks.new)) }
        ensures agree_still { IfErr result (λ fault. work.AtMissed fault (KeepsDigests self.old.kept.table.copies self.new.kept.table.copies (D.told disks.old) (D.told disks.new))) }
        ensures asks { AsksByDigests self.old.kept.table.copies (D.told disks.old) (D.told disks.new) }
        ensures wrote_nothing { CallsHave WritesNothing (D.told disks.old) (D.told disks.new) }
        ensures old_values { NoneNew self.old.kept.values self.new.kept.values }
        ensures parts { IfOk result (λ finished. IfSome finished (λ it. AreAnswers self.old.setup.shape it.parts (D.told disks.old) (D.told disks.new))) }
        ensures same { self.new.setup ≡ self.old.setup }
        ensures failures { self.new.plain.failures ≡ self.old.plain.failures }
        ensures calls { (w : World) → Stands w self.old.kept.table.copies (D.told disks.old) → RightWork D.Disks w disks.old disks.new (IfErr result (λ fault. work.AtMissed fault ⊥)) }
        ensures disks { Leaves D.Disks self.old.setup.schedule.nodes disks.old disks.new }
        ensures device { IfErr result (λ fault. work.AtDevice fault (Rose (D.faults disks.old) (D.faults disks.new))) }
        ensures missed { IfErr result (λ fault. work.AtMissed fault (Rose (D.misses disks.old) (D.misses disks.new))) }
    {
        let rounds = self.round;
        match read_parts(alloc, disks, &self.table, &self.shape, rounds) {
            Ok(Some(parts)) => match self.note_end(end) {
                Ok(()) => Ok(Some(Finished { parts, rounds, end })),
                Err(Memory) => Err(WorkFault::Memory),
            },
            Ok(None) => {
                self.pass();
                Ok(None)
            }
            Err(fault) => Err(fault),
        }
    }

    /// Notes how the run ends.
    fn note_end(&mut self, end: EndWord) -> Result<(), Memory>
        ensures noted { OnOk result (self.new.plain ≡ noted (line.End end self.old.plain.round ∷ []) self.old.plain) }
        ensures same { self.new.setup ≡ self.old.setup }
        ensures failures { self.new.plain.failures ≡ self.old.plain.failures }
        ensures table { self.new.kept.table ≡ self.old.kept.table }
        ensures values { self.new.kept.values ≡ self.old.kept.values }
        ensures round { self.new.kept.round ≡ self.old.kept.round }
    {
        self.journal.push(Entry::End {
            word: end,
            round: self.round,
        })
    }

    /// The leading events by which a round until this one is waited for are spent.
    fn pass(&mut self)
        ensures passed { self.new.plain ≡ record self.old.plain { events = passed self.old.plain.round self.old.plain.events } }
        ensures same { self.new.setup ≡ self.old.setup }
        ensures failures { self.new.plain.failures ≡ self.old.plain.failures }
        ensures table { self.new.kept.table ≡ self.old.kept.table }
        ensures values { self.new.kept.values ≡ self.old.kept.values }
        ensures round { self.new.kept.round ≡ self.old.kept.round }
    {
        self.spent = passed_until(self.schedule.events.as_slice(), self.spent, self.round);
    }

    /// Running attempts are dropped, what does not stay is removed from the up nodes, and the next round begins.
    fn next_round<D: Disks>(&mut self, alloc: Global, disks: &mut D) -> Result<(), WorkFault>
        requires orderly { Orderly self.old.setup self.old.plain }
        requires later { self.old.plain.round < self.old.setup.shape.rounds }
        ensures begun { OnOk result (Follows (next_round self.old.setup self.old.plain) (D.told disks.old) (D.told disks.new) (gives self.new.plain)) }
        ensures values { OnOk result ((w : World) → Stands w self.old.kept.table.copies (D.told disks.old) → Stands w self.new.kept.table.copies (D.told disks.new)) }
        ensures forgotten { OnOk result (self.new.kept.values ≡ map (λ _. None) self.old.kept.values) }
        ensures next { OnOk result (self.new.kept.round ≡ self.old.kept.round + 1) }
        ensures stopped { IfErr result (StoppedIn (next_round self.old.setup self.old.plain) (D.told disks.old) (D.told disks.new)) }
        ensures keeps { OnErr result ((w : World) → StandsFor w self.old.kept (D.told disks.old) → StandsFor w self.new.kept None) }
        ensures agree { OnOk result (KeepsDigests self.old.kept.table.copies self.new.kept.table.copies (D.told disks.old) (D.told disks.new)) }
        ensures asks { AsksByDigests self.old.kept.table.copies (D.told disks.old) (D.told disks.new) }
        ensures wrote_nothing { CallsHave WritesNothing (D.told disks.old) (D.told disks.new) }
        ensures old_values { NoneNew self.old.kept.values self.new.kept.values }
        ensures same { self.new.setup ≡ self.old.setup }
        ensures failures { self.new.plain.failures ≡ self.old.plain.failures }
        ensures calls { (w : World) → RightWork D.Disks w disks.old disks.new (IfErr result (λ fault. work.AtMissed fault ⊥)) }
        ensures disks { Leaves D.Disks self.old.setup.schedule.nodes disks.old disks.new }
        ensures device { IfErr result (λ fault. work.AtDevice fault (Rose (D.faults disks.old) (D.faults disks.new))) }
        ensures missed { IfErr result (λ fault. work.AtMissed fault ⊥) }
    {
        let round = self.round + 1;
        let tasks = match round_tasks(alloc, &self.shape, round) {
            Ok(tasks) => tasks,
            Err(Memory) => return Err(WorkFault::Memory),
        };
        match self.drop_running() {
            Ok(()) => {}
            Err(Memory) => return Err(WorkFault::Memory),
        }
        match self.clear_up(alloc, disks, round) {
            Ok(()) => {}
            Err(fault) => return Err(fault),
        }
        match self.enter(tasks) {
            Ok(()) => Ok(()),
            Err(Memory) => Err(WorkFault::Memory),
        }
    }
}

/// The place of the first event, from one on, by which no round until this one is waited for.
fn passed_until(events: &[Event], spent: usize, round: u32) -> usize
    ensures { drop result events.now ≡ passed round (drop spent events.now) }
{
    let mut at = spent;
    'events: while at < events.len() {
        match events[at] {
            Event::Round(waited) if waited <= round => at += 1,
            _ => return at,
        }
    }
    at
}
