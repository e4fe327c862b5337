ghost use Rattle.std.specs.Prelude.{◌≡◌, ℕ, ◌<◌, ◌≤◌, [], ◌∷◌, false, true, IfNone, IfOk, IfSome, OnOk};
ghost use Rattle.std.specs.List.{list_any};
ghost use Rattle.std.specs.Option.{option_map};
ghost use Rattle.node_names.specs.declared.task.Task.{Task as AnyTask};
ghost use Rattle.replica_table.specs.Sets.{among};
ghost use Rattle.run_model.specs.Tasks.{IsTask, is_task, maker};
ghost use Rattle.run_model.specs.Wanted.{missing_of, missing_parts};
ghost use Rattle.run_model.specs.Needs.{missing};
ghost use Rattle.run_laws.specs.Rounds.{round_in};
ghost use Rattle.cache_rebuild.specs.Goals.{plain_goal};
ghost use Rattle.cache_rebuild.specs.steps.Asking.{AsksMore, gone, is_asked_for, lost, makes_one, may_have};
ghost use Rattle.cache_rebuild.specs.steps.Files.{files_in};
ghost use Rattle.cache_rebuild.specs.steps.Needing.{needed};

use crate::files::Files;
use crate::goal::Goal;
use crate::needs::{input_count, is_there, is_up, needed, up_site};
use hal_base::Memory;
use loop_scheduler::{View, last_step};
use node_names::{Name, Task};
use std::alloc::Global;
use std::collections::HashSet;

/// The files that are asked for.
#[derive(Drop)]
pub struct Asked {
    names: HashSet<Name>,
    /// Whether files of the first round may be among them.
    first: bool,
    /// All others are of this round or a later one.
    lowest: u32,
    ghost rounds: { (task : AnyTask) → makes_one names.keys task ≡ true → may_have first lowest (round_in task) ≡ true },
}

impl Asked {
    /// No files. Those that are asked for first are of this round.
    fn new(alloc: Global, round: u32) -> Asked
        ensures { (task : AnyTask) → makes_one result.names.keys task ≡ false }
    {
        Asked {
            names: HashSet::new(alloc),
            first: false,
            lowest: round,
        }
    }

    /// The missing parts of a goal.
    pub fn of_goal(alloc: Global, goal: &Goal, view: &View) -> Result<Asked, Memory>
        ensures { IfOk result (λ asked. (task : AnyTask) → makes_one asked.names.keys task ≡ list_any (is_task task) (missing_parts view.now goal.now.round)) }
    {
        let mut asked = Asked::new(alloc, goal.round);
        let step = last_step(view.shape());
        'parts: for part in 0..view.shape().parts {
            asked.add_lost(
                view,
                &Name::Out {
                    round: goal.round,
                    step,
                    part,
                },
            )?;
        }
        Ok(asked)
    }

    /// Asks for a file too, where no up node holds it.
    fn add_lost(&mut self, view: &View, name: &Name) -> Result<(), Memory>
        ensures { OnOk result (AsksMore self.old.names.keys self.new.names.keys (lost view.now (name.now ∷ []))) }
    {
        if is_up(view, name) {
            Ok(())
        } else {
            self.add(name)
        }
    }

    /// Asks for a file too, where it is not there at a node, which is up.
    fn add_gone(&mut self, view: &View, node: u32, name: &Name) -> Result<(), Memory>
        requires { among node view.now.up ≡ true }
        ensures { OnOk result (AsksMore self.old.names.keys self.new.names.keys (gone view.now node (name.now ∷ []))) }
    {
        if is_there(view, node, name) {
            Ok(())
        } else {
            self.add(name)
        }
    }

    /// Asks for a file too, if some task makes it.
    fn add(&mut self, name: &Name) -> Result<(), Memory>
        ensures { OnOk result (AsksMore self.old.names.keys self.new.names.keys (name.now ∷ [])) }
    {
        let Some(round) = round_made(name) else {
            return Ok(());
        };
        self.count_round(round);
        self.names.insert(*name)?;
        Ok(())
    }

    /// Files of this round may be among them too.
    fn count_round(&mut self, round: u32)
        ensures round { may_have self.new.first self.new.lowest round ≡ true }
        ensures others { (i : ℕ) → may_have self.old.first self.old.lowest i ≡ true → may_have self.new.first self.new.lowest i ≡ true }
        ensures names { self.new.names.keys ≡ self.old.names.keys }
    {
        if round == 1 {
            self.first = true;
        } else if round < self.lowest {
            self.lowest = round;
        }
    }

    /// Asks for what is missing of a task at its site.
    pub fn add_missing(&mut self, view: &View, task: &Task) -> Result<(), Memory>
        requires { IsTask view.now.shape task.now }
        ensures { OnOk result (AsksMore self.old.names.keys self.new.names.keys (missing_of view.now task.now)) }
    {
        match up_site(task, view) {
            Some(node) => self.add_needs(view, node, task),
            None => Ok(()),
        }
    }

    /// Asks for what is missing of a task at a node, which is up.
    fn add_needs(&mut self, view: &View, node: u32, task: &Task) -> Result<(), Memory>
        requires { among node view.now.up ≡ true }
        ensures { OnOk result (AsksMore self.old.names.keys self.new.names.keys (missing view.now node task.now)) }
    {
        'inputs: for input in 1..input_count(view.shape(), task) + 1 {
            self.add_input(view, node, task, input)?;
        }
        Ok(())
    }

    /// Asks for what is missing of an input of a task.
    fn add_input(&mut self, view: &View, node: u32, task: &Task, input: u32) -> Result<(), Memory>
        requires { among node view.now.up ≡ true }
        ensures { OnOk result (AsksMore self.old.names.keys self.new.names.keys (gone view.now node (needed view.now node task.now input))) }
    {
        match needed(view, node, task, input) {
            Some(files) => self.add_files(view, node, &files),
            None => Ok(()),
        }
    }

    /// Asks for those of these files that are missing.
    fn add_files(&mut self, view: &View, node: u32, files: &Files) -> Result<(), Memory>
        requires { among node view.now.up ≡ true }
        ensures { OnOk result (AsksMore self.old.names.keys self.new.names.keys (gone view.now node (files_in files.now))) }
    {
        'files: for number in 0..files.count() {
            self.add_gone(view, node, &files.name(number))?;
        }
        Ok(())
    }

    /// Whether a task is asked for.
    pub fn has(&self, goal: &Goal, task: &Task) -> bool
        ensures { result ≡ is_asked_for (plain_goal goal.now) self.now.names.keys task.now }
    {
        match *task {
            Task::Map {
                round,
                step,
                source,
                split,
            } => self.names.contains(&Name::Spill {
                round,
                step,
                source,
                split,
            }),
            Task::Reduce { round, step, part } => {
                self.names.contains(&Name::Out { round, step, part })
            }
            Task::Test { round, part } => round == goal.round && !goal.known.has(part),
        }
    }

    /// The last round before this one that may have files that are asked for. `None` where none has any.
    pub fn round_before(&self, round: u32) -> Option<u32>
        requires { 1 ≤ round }
        ensures before { IfSome result (λ last. (1 ≤ last) × (last < round)) }
        ensures none { IfNone result ((task : AnyTask) → 1 ≤ round_in task → round_in task < round → makes_one self.now.names.keys task ≡ false) }
        ensures last { IfSome result (λ last. (task : AnyTask) → last < round_in task → round_in task < round → makes_one self.now.names.keys task ≡ false) }
    {
        if round > 1 && self.lowest < round {
            Some(round - 1)
        } else if round > 1 && self.first {
            Some(1)
        } else {
            None
        }
    }
}

/// The round in which a task makes the file. `None` where none does.
fn round_made(name: &Name) -> Option<u32>
    ensures { result ≡ option_map round_in (maker name.now) }
{
    match *name {
        Name::Spill { round, .. } | Name::Out { round, .. } => Some(round),
        _ => None,
    }
}
