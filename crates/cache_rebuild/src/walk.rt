ghost use Rattle.std.specs.Prelude.{◌≡◌, ◌≤◌, ◌-◌, ◌++◌, [], ◌∷◌, ◌<◌, false, List, reverse, IfNone, IfOk, IfSome, OnOk};
ghost use Rattle.node_names.specs.declared.task.Task.{Task as AnyTask};
ghost use Rattle.run_model.specs.Tasks.{IsTask, tasks_until};
ghost use Rattle.run_model.specs.Wanted.{wanted};
ghost use Rattle.run_laws.specs.Rounds.{round_in};
ghost use Rattle.cache_rebuild.specs.Goals.{plain_goal};
ghost use Rattle.cache_rebuild.specs.steps.Asking.{makes_one};
ghost use Rattle.cache_rebuild.specs.steps.Walking.{Comes};

use crate::asked::Asked;
use crate::goal::Goal;
use hal_base::Memory;
use loop_scheduler::{Tasks, View, round_tasks};
use node_names::Task;
use std::alloc::Global;

/// What a walk over the tasks, from the last to the first, has come to.
#[derive(Drop)]
pub struct Walk {
    /// The wanted tasks so far, the last one first.
    found: Vec<Task>,
    asked: Asked,
}

impl Walk {
    /// What a goal asks for, with all tasks of the rounds until its own left.
    pub fn begin(alloc: Global, goal: &Goal, view: &View) -> Result<Walk, Memory>
        ensures { IfOk result (λ walk. Comes view.now (plain_goal goal.now) (tasks_until view.now.shape goal.now.round) (wanted view.now (plain_goal goal.now)) walk) }
    {
        Ok(Walk {
            found: Vec::new(alloc),
            asked: Asked::of_goal(alloc, goal, view)?,
        })
    }

    /// Looks at the tasks of a round.
    pub fn look_through(
        &mut self,
        alloc: Global,
        goal: &Goal,
        view: &View,
        round: u32,
    ) -> Result<(), Memory>
        requires { 1 ≤ round }
        ensures { OnOk result ((all : List AnyTask) → Comes view.now (plain_goal goal.now) (tasks_until view.now.shape round) all self.old → Comes view.now (plain_goal goal.now) (tasks_until view.now.shape (round - 1)) all self.new) }
    {
        let mut left = round_tasks(alloc, view.shape(), round)?.into_vec();
        'tasks: while let Some(task) = left.pop() {
            self.look_at(goal, view, &task)?;
        }
        Ok(())
    }

    /// Looks at the last task that is left: one that is asked for is wanted, and asks for what it misses.
    fn look_at(&mut self, goal: &Goal, view: &View, task: &Task) -> Result<(), Memory>
        requires { IsTask view.now.shape task.now }
        ensures { OnOk result ((left all : List AnyTask) → Comes view.now (plain_goal goal.now) (left ++ task.now ∷ []) all self.old → Comes view.now (plain_goal goal.now) left all self.new) }
    {
        if !self.asked.has(goal, task) {
            return Ok(());
        }
        self.found.push(*task)?;
        self.asked.add_missing(view, task)?;
        Ok(())
    }

    /// The last round before this one with tasks that may be asked for. `None` where no earlier task is wanted.
    pub fn round_before(&self, round: u32) -> Option<u32>
        requires { 1 ≤ round }
        ensures before { IfSome result (λ last. (1 ≤ last) × (last < round)) }
        ensures none { IfNone result ((task : AnyTask) → 1 ≤ round_in task → round_in task < round → makes_one self.now.asked.names.keys task ≡ false) }
        ensures last { IfSome result (λ last. (task : AnyTask) → last < round_in task → round_in task < round → makes_one self.now.asked.names.keys task ≡ false) }
    {
        self.asked.round_before(round)
    }

    /// The wanted tasks in task order.
    pub fn into_tasks(self) -> Tasks
        ensures { result ≡ reverse self.found.items }
    {
        let Walk {
            mut found,
            asked: _,
        } = self;
        found.reverse();
        Tasks::from_vec(found)
    }
}
