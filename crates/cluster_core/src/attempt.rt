ghost use Rattle.std.specs.Prelude.{◌≡◌, ◌<◌, ◌≤◌, IfErr, IfOk, OnErr, OnOk, ℕ, [], ◌∷◌, List, None, Some, length, slice_get, slice_set};
ghost use Rattle.cluster_core.specs.Disks.{Leaves};
ghost use Rattle.cluster_core.specs.Faults.{StoppedIn};
ghost use Rattle.cluster_core.specs.Finishing.{CanFinish, ReadOrStarved, commit_plan, read_plan};
ghost use Rattle.cluster_core.specs.Outputs.{CanCompute, IsMade, IsRightOutput};
ghost use Rattle.cluster_core.specs.Works.{CallsRight, CanWork, KeepsRight, StandsFor, StaysRight};
ghost use Rattle.cluster_core.specs.declared.output.Output.{Output as Made};
ghost use Rattle.counter_report.specs.declared.journal.Entry.TheVariants as line;
ghost use Rattle.hal_base.specs.Shapes.{IsWellFormed};
ghost use Rattle.hal_outside.specs.Told.{Rose};
ghost use Rattle.loop_scheduler.specs.Reads.{files_of};
ghost use Rattle.name_values.specs.Values.{World, value_of};
ghost use Rattle.node_names.specs.declared.task.Task.TheVariants as task;
ghost use Rattle.plain_job.specs.Fit.{FunctionsFit};
ghost use Rattle.replica_table.specs.Copies.{Copy};
ghost use Rattle.run_laws.specs.States.{IsNow};
ghost use Rattle.run_model.specs.Acts.{finish};
ghost use Rattle.run_model.specs.Attempts.{attempt_done, made_by};
ghost use Rattle.run_model.specs.Plans.{gives};
ghost use Rattle.run_model.specs.State.{noted};
ghost use Rattle.run_model.specs.declared.attempt.Attempt.{Attempt as Tried};
ghost use Rattle.task_values.specs.Reads.{part_in};
ghost use Rattle.valid_copies.specs.Calls.{Begun, CallsHave, Follows};
ghost use Rattle.valid_copies.specs.Faults as work;
ghost use Rattle.valid_copies.specs.Inputs.{names_in};
ghost use Rattle.valid_copies.specs.Readings.{IsTextOf};
ghost use Rattle.valid_copies.specs.RightCalls.{RightWork};
ghost use Rattle.valid_copies.specs.Stands.{Stands};
ghost use Rattle.valid_copies.specs.LastWrites.{AsksByDigests, IsWriteOf, KeepsDigests, ReadsCopies};
ghost use Rattle.cluster_core.specs.Origins.{CompletedOrNot, MadeOfReads};

use crate::output::{Output, output_of};
use crate::running::take_out;
use crate::state::State;
use counter_report::Entry;
use hal_base::{Functions, Memory, Parts, Shape};
use hal_outside::Disks;
use loop_scheduler::task_files;
use node_names::{Name, Task};
use run_model::Attempt;
use std::alloc::Global;
use valid_copies::{Desk, ReadCounts, WorkFault, count_reads, read_inputs};

/// What an attempt read: for each input the records of its files, and how many files in all.
#[derive(Drop)]
pub struct Read {
    pub lists: Vec<Parts>,
    pub counts: ReadCounts,
}

impl State {
    /// The attempt at a place is done: it reads what it needs, and makes and writes what its task makes, or it is starved.
    /// docs/CLUSTER.md, "What an attempt writes".
    pub fn finish<F: Functions, D: Disks>(
        &mut self,
        alloc: Global,
        functions: &F,
        disks: &mut D,
        at: usize,
    ) -> Result<(), WorkFault>
        requires works { CanWork self.old.setup self.old.plain }
        requires fits { FunctionsFit (F.meaning functions.now) self.old.setup.shape }
        requires place { at < length self.old.kept.running }
        ensures acted { OnOk result ((a : Tried) → slice_get self.old.kept.running at ≡ Some a → Follows (finish self.old.setup a self.old.plain) (D.told disks.old) (D.told disks.new) (gives self.new.plain)) }
        ensures stopped { IfErr result (λ fault. (a : Tried) → slice_get self.old.kept.running at ≡ Some a → StoppedIn (finish self.old.setup a self.old.plain) (D.told disks.old) (D.told disks.new) fault) }
        ensures right { OnOk result (StaysRight (F.meaning functions.now) self.old.setup (D.shows_damage disks.old) (D.told disks.old) (D.told disks.new) self.old.kept self.new.kept) }
        ensures still { IfErr result (λ fault. work.AtMissed fault (StaysRight (F.meaning functions.now) self.old.setup (D.shows_damage disks.old) (D.told disks.old) (D.told disks.new) self.old.kept self.new.kept)) }
        ensures keeps { OnErr result (KeepsRight (F.meaning functions.now) self.old.setup (D.shows_damage disks.old) (D.told disks.old) self.old.kept self.new.kept) }
        ensures agree { OnOk result (KeepsDigests self.old.kept.table.copies self.new.kept.table.copies (D.told disks.old) (D.told disks.new)) }
        ensures agree_still { IfErr result (λ fault. work.AtMissed fault (KeepsDigests self.old.kept.table.copies self.new.kept.table.copies (D.told disks.old) (D.told disks.new))) }
        ensures asks { AsksByDigests self.old.kept.table.copies (D.told disks.old) (D.told disks.new) }
        ensures made { MadeOfReads (F.meaning functions.now) self.old.setup.shape self.new.kept.round self.old.kept.values self.new.kept.values (D.told disks.old) (D.told disks.new) }
        ensures same { self.new.setup ≡ self.old.setup }
        ensures calls { CallsRight D.Disks (F.meaning functions.now) self.old.setup self.old.kept disks.old disks.new (IfErr result (λ fault. work.AtMissed fault ⊥)) }
        ensures disks { Leaves D.Disks self.old.setup.schedule.nodes disks.old disks.new }
        ensures device { IfErr result (λ fault. work.AtDevice fault (Rose (D.faults disks.old) (D.faults disks.new))) }
        ensures missed { IfErr result (λ fault. work.AtMissed fault (Rose (D.misses disks.old) (D.misses disks.new))) }
    {
        let attempt = take_out(&mut self.running, at);
        self.finish_attempt(alloc, functions, disks, &attempt)
    }

    /// An attempt that runs no more is done.
    fn finish_attempt<F: Functions, D: Disks>(
        &mut self,
        alloc: Global,
        functions: &F,
        disks: &mut D,
        attempt: &Attempt,
    ) -> Result<(), WorkFault>
        requires can { CanFinish self.old.setup attempt.now }
        requires now { IsNow self.old.kept.round attempt.now.task }
        requires fits { FunctionsFit (F.meaning functions.now) self.old.setup.shape }
        ensures done { OnOk result (Follows (attempt_done self.old.setup attempt.now self.old.plain) (D.told disks.old) (D.told disks.new) (gives self.new.plain)) }
        ensures stopped { IfErr result (StoppedIn (attempt_done self.old.setup attempt.now self.old.plain) (D.told disks.old) (D.told disks.new)) }
        ensures right { OnOk result (StaysRight (F.meaning functions.now) self.old.setup (D.shows_damage disks.old) (D.told disks.old) (D.told disks.new) self.old.kept self.new.kept) }
        ensures still { IfErr result (λ fault. work.AtMissed fault (StaysRight (F.meaning functions.now) self.old.setup (D.shows_damage disks.old) (D.told disks.old) (D.told disks.new) self.old.kept self.new.kept)) }
        ensures keeps { OnErr result (KeepsRight (F.meaning functions.now) self.old.setup (D.shows_damage disks.old) (D.told disks.old) self.old.kept self.new.kept) }
        ensures agree { OnOk result (KeepsDigests self.old.kept.table.copies self.new.kept.table.copies (D.told disks.old) (D.told disks.new)) }
        ensures agree_still { IfErr result (λ fault. work.AtMissed fault (KeepsDigests self.old.kept.table.copies self.new.kept.table.copies (D.told disks.old) (D.told disks.new))) }
        ensures asks { AsksByDigests self.old.kept.table.copies (D.told disks.old) (D.told disks.new) }
        ensures made { MadeOfReads (F.meaning functions.now) self.old.setup.shape self.new.kept.round self.old.kept.values self.new.kept.values (D.told disks.old) (D.told disks.new) }
        ensures same { self.new.setup ≡ self.old.setup }
        ensures calls { CallsRight D.Disks (F.meaning functions.now) self.old.setup self.old.kept disks.old disks.new (IfErr result (λ fault. work.AtMissed fault ⊥)) }
        ensures disks { Leaves D.Disks self.old.setup.schedule.nodes disks.old disks.new }
        ensures device { IfErr result (λ fault. work.AtDevice fault (Rose (D.faults disks.old) (D.faults disks.new))) }
        ensures missed { IfErr result (λ fault. work.AtMissed fault (Rose (D.misses disks.old) (D.misses disks.new))) }
    {
        match self.read_needs(alloc, disks, attempt) {
            Ok(Some(read)) => self.complete(alloc, functions, disks, attempt, read),
            Ok(None) => match self.starve(attempt) {
                Ok(()) => Ok(()),
                Err(Memory) => Err(WorkFault::Memory),
            },
            Err(fault) => Err(fault),
        }
    }

    /// What an attempt makes of what it read is written, and it commits.
    fn complete<F: Functions, D: Disks>(
        &mut self,
        alloc: Global,
        functions: &F,
        disks: &mut D,
        attempt: &Attempt,
        read: Read,
    ) -> Result<(), WorkFault>
        requires can { CanFinish self.old.setup attempt.now }
        requires fits { FunctionsFit (F.meaning functions.now) self.old.setup.shape }
        requires inputs { CanCompute self.old.setup.shape attempt.now.task read.lists.items }
        ensures committed { OnOk result (Follows (commit_plan self.old.setup attempt.now read.counts self.old.plain) (D.told disks.old) (D.told disks.new) (gives self.new.plain)) }
        ensures begun { OnErr result (Begun (commit_plan self.old.setup attempt.now read.counts self.old.plain) (D.told disks.old) (D.told disks.new)) }
        ensures right { OnOk result ((w : World) → ((output : Made) → IsMade (F.meaning functions.now) self.old.setup.shape attempt.now.task read.lists.items output → IsRightOutput w self.old.kept.round output) → StandsFor w self.old.kept (D.told disks.old) → StandsFor w self.new.kept (D.told disks.new)) }
        ensures keeps { OnErr result ((w : World) → ((output : Made) → IsMade (F.meaning functions.now) self.old.setup.shape attempt.now.task read.lists.items output → IsRightOutput w self.old.kept.round output) → StandsFor w self.old.kept (D.told disks.old) → StandsFor w self.new.kept None) }
        ensures agree { OnOk result (KeepsDigests self.old.kept.table.copies self.new.kept.table.copies (D.told disks.old) (D.told disks.new)) }
        ensures asks { AsksByDigests self.old.kept.table.copies (D.told disks.old) (D.told disks.new) }
        ensures made { CompletedOrNot (F.meaning functions.now) self.old.setup.shape attempt.now.task read.lists.items self.old.kept.values self.new.kept.values (D.told disks.old) (D.told disks.new) }
        ensures round { self.new.kept.round ≡ self.old.kept.round }
        ensures same { self.new.setup ≡ self.old.setup }
        ensures calls { (w : World) → ((output : Made) → IsMade (F.meaning functions.now) self.old.setup.shape attempt.now.task read.lists.items output → IsRightOutput w self.old.kept.round output) → RightWork D.Disks w disks.old disks.new (IfErr result (λ fault. work.AtMissed fault ⊥)) }
        ensures disks { Leaves D.Disks self.old.setup.schedule.nodes disks.old disks.new }
        ensures device { IfErr result (λ fault. work.AtDevice fault (Rose (D.faults disks.old) (D.faults disks.new))) }
        ensures missed { IfErr result (λ fault. work.AtMissed fault ⊥) }
    {
        let Read { lists, counts } = read;
        match output_of(alloc, functions, &self.shape, &attempt.task, lists) {
            Ok(Output::File { name, bytes }) => {
                self.commit_file(alloc, disks, attempt, counts, &name, bytes.as_slice())
            }
            Ok(Output::Value { part, value }) => {
                match self.commit_value(attempt, counts, part, value) {
                    Ok(()) => Ok(()),
                    Err(Memory) => Err(WorkFault::Memory),
                }
            }
            Err(Memory) => Err(WorkFault::Memory),
        }
    }

    /// Reads what an attempt needs. `None` where a need has no copy left. docs/CLUSTER.md, "Reads and misses".
    fn read_needs<D: Disks>(
        &self,
        alloc: Global,
        disks: &mut D,
        attempt: &Attempt,
    ) -> Result<Option<Read>, WorkFault>
        requires can { CanFinish self.now.setup attempt.now }
        ensures shape { IsWellFormed self.now.setup.shape }
        ensures read { IfOk result (ReadOrStarved self.now attempt.now (D.shows_damage disks.old) (D.told disks.old) (D.told disks.new)) }
        ensures stopped { IfErr result (StoppedIn (read_plan self.now attempt.now) (D.told disks.old) (D.told disks.new)) }
        ensures asked { ReadsCopies self.now.kept.table.copies (D.told disks.old) (D.told disks.new) }
        ensures valid { (w : World) (copies : List Copy) → Stands w copies (D.told disks.old) → Stands w copies (D.told disks.new) }
        ensures calls { (w : World) → Stands w self.now.kept.table.copies (D.told disks.old) → RightWork D.Disks w disks.old disks.new (IfErr result (λ fault. work.AtMissed fault ⊥)) }
        ensures disks { Leaves D.Disks self.now.setup.schedule.nodes disks.old disks.new }
        ensures device { IfErr result (λ fault. work.AtDevice fault (Rose (D.faults disks.old) (D.faults disks.new))) }
        ensures missed { IfErr result (λ fault. work.AtMissed fault (Rose (D.misses disks.old) (D.misses disks.new))) }
    {
        let inputs = match input_files(alloc, &self.shape, &attempt.task) {
            Ok(inputs) => inputs,
            Err(Memory) => return Err(WorkFault::Memory),
        };
        let desk = Desk {
            shape: &self.shape,
            table: &self.table,
            own: attempt.node,
            part: part_in(&attempt.task),
        };
        let mut files = Vec::new(alloc);
        let read = read_inputs(alloc, disks, &desk, inputs.as_slice(), &mut files);
        let Desk {
            shape: _shape,
            table: _table,
            own: _own,
            part: _part,
        } = desk;
        match read {
            Ok(Some(lists)) => Ok(Some(Read {
                lists,
                counts: count_reads(attempt.node, files.as_slice()),
            })),
            Ok(None) => Ok(None),
            Err(fault) => Err(fault),
        }
    }

    /// What a task makes is written, and its attempt commits.
    fn commit_file<D: Disks>(
        &mut self,
        alloc: Global,
        disks: &mut D,
        attempt: &Attempt,
        counts: ReadCounts,
        name: &Name,
        bytes: &[u8],
    ) -> Result<(), WorkFault>
        requires can { CanFinish self.old.setup attempt.now }
        requires name { made_by attempt.now.task ≡ name.now ∷ [] }
        ensures committed { OnOk result (Follows (commit_plan self.old.setup attempt.now counts self.old.plain) (D.told disks.old) (D.told disks.new) (gives self.new.plain)) }
        ensures begun { OnErr result (Begun (commit_plan self.old.setup attempt.now counts self.old.plain) (D.told disks.old) (D.told disks.new)) }
        ensures valid { OnOk result ((w : World) → IsTextOf w.shape name.now bytes.now (value_of w name.now) → Stands w self.old.kept.table.copies (D.told disks.old) → Stands w self.new.kept.table.copies (D.told disks.new)) }
        ensures digests { OnErr result ((w : World) → IsTextOf w.shape name.now bytes.now (value_of w name.now) → Stands w self.old.kept.table.copies (D.told disks.old) → Stands w self.new.kept.table.copies None) }
        ensures agree { OnOk result (KeepsDigests self.old.kept.table.copies self.new.kept.table.copies (D.told disks.old) (D.told disks.new)) }
        ensures asks { AsksByDigests self.old.kept.table.copies (D.told disks.old) (D.told disks.new) }
        ensures wrote { CallsHave (IsWriteOf name.now bytes.now) (D.told disks.old) (D.told disks.new) }
        ensures values { self.new.kept.values ≡ self.old.kept.values }
        ensures round { self.new.kept.round ≡ self.old.kept.round }
        ensures same { self.new.setup ≡ self.old.setup }
        ensures calls { (w : World) → IsTextOf w.shape name.now bytes.now (value_of w name.now) → RightWork D.Disks w disks.old disks.new (IfErr result (λ fault. work.AtMissed fault ⊥)) }
        ensures disks { Leaves D.Disks self.old.setup.schedule.nodes disks.old disks.new }
        ensures device { IfErr result (λ fault. work.AtDevice fault (Rose (D.faults disks.old) (D.faults disks.new))) }
        ensures missed { IfErr result (λ fault. work.AtMissed fault ⊥) }
    {
        match self.write_made(alloc, disks, attempt, name, bytes) {
            Ok(()) => {}
            Err(fault) => return Err(fault),
        }
        match self.note_commit(attempt, counts) {
            Ok(()) => Ok(()),
            Err(Memory) => Err(WorkFault::Memory),
        }
    }

    /// A test has its value, and its attempt commits.
    fn commit_value(
        &mut self,
        attempt: &Attempt,
        counts: ReadCounts,
        part: u32,
        value: u64,
    ) -> Result<(), Memory>
        requires can { CanFinish self.old.setup attempt.now }
        requires test { (i : ℕ) × (attempt.now.task ≡ task.Test i part) }
        ensures committed { OnOk result (commit_plan self.old.setup attempt.now counts self.old.plain ≡ gives self.new.plain) }
        ensures table { self.new.kept.table ≡ self.old.kept.table }
        ensures values { self.new.kept.values ≡ slice_set self.old.kept.values part (Some value) }
        ensures round { self.new.kept.round ≡ self.old.kept.round }
        ensures same { self.new.setup ≡ self.old.setup }
    {
        self.values[part as usize] = Some(value);
        self.note_commit(attempt, counts)
    }

    /// Notes that an attempt commits.
    fn note_commit(&mut self, attempt: &Attempt, counts: ReadCounts) -> Result<(), Memory>
        ensures noted { OnOk result (self.new.plain ≡ noted (line.Commit attempt.now.task attempt.now.node counts.local counts.remote counts.caches ∷ []) self.old.plain) }
        ensures table { self.new.kept.table ≡ self.old.kept.table }
        ensures values { self.new.kept.values ≡ self.old.kept.values }
        ensures round { self.new.kept.round ≡ self.old.kept.round }
        ensures same { self.new.setup ≡ self.old.setup }
    {
        self.journal.push(Entry::Commit {
            task: attempt.task,
            node: attempt.node,
            local: counts.local,
            remote: counts.remote,
            caches: counts.caches,
        })
    }

    /// Notes that a need of an attempt has no copy left.
    fn starve(&mut self, attempt: &Attempt) -> Result<(), Memory>
        ensures noted { OnOk result (self.new.plain ≡ noted (line.Starve attempt.now.task attempt.now.node ∷ []) self.old.plain) }
        ensures kept { self.new.kept.table ≡ self.old.kept.table }
        ensures values { self.new.kept.values ≡ self.old.kept.values }
        ensures round { self.new.kept.round ≡ self.old.kept.round }
        ensures same { self.new.setup ≡ self.old.setup }
    {
        self.journal.push(Entry::Starve {
            task: attempt.task,
            node: attempt.node,
        })
    }
}

/// The part of which a task reads sections.
fn part_in(task: &Task) -> u32
    ensures { result ≡ part_in task.now }
{
    match *task {
        Task::Map { .. } => 0,
        Task::Reduce { part, .. } | Task::Test { part, .. } => part,
    }
}

/// The files of each input of a task.
fn input_files(alloc: Global, shape: &Shape, task: &Task) -> Result<Vec<Vec<Name>>, Memory>
    requires { IsWellFormed shape.now }
    ensures { IfOk result (λ inputs. names_in inputs.items ≡ files_of shape.now task.now) }
{
    let lists = task_files(alloc, shape, task)?;
    let mut inputs = Vec::new(alloc);
    'lists: for names in lists.into_vec() {
        inputs.push(names.into_vec())?;
    }
    Ok(inputs)
}
