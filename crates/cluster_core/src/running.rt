ghost use Rattle.std.specs.Prelude.{◌≡◌, ◌<◌, ◌==◌, [], false, not, length, slice_get, IfOk, MatchOption, OnErr, OnOk, Some};
ghost use Rattle.std.specs.List.{filter, list_any};
ghost use Rattle.cluster_core.specs.Running.{IsFirst, IsOldest, lowest_of};
ghost use Rattle.run_laws.specs.States.{Once};
ghost use Rattle.run_model.specs.Acts.{failures_of, same_attempt, with_failure};
ghost use Rattle.run_model.specs.Lists.{number_of};
ghost use Rattle.run_model.specs.Tasks.{is_task};
ghost use Rattle.run_model.specs.declared.attempt.Attempt.{Attempt as Tried};
ghost use Rattle.run_model.specs.declared.attempt.Failed.{Failed as Counted};

use hal_base::Memory;
use node_names::Task;
use run_model::{Attempt, Failed};

/// How many attempts a node runs.
pub fn load(running: &[Attempt], node: u32) -> usize
    ensures { result ≡ number_of (λ (a : Tried). node == a.node) running.now }
{
    let mut count = 0;
    'running: for attempt in running {
        if node == attempt.node {
            count += 1;
        }
    }
    count
}

/// Whether an attempt at the task runs.
pub fn is_running(running: &[Attempt], task: &Task) -> bool
    ensures { result ≡ list_any (λ (a : Tried). is_task task.now a.task) running.now }
{
    'running: for attempt in running {
        if *task == attempt.task {
            return true;
        }
    }
    false
}

/// Takes an attempt out. No task runs twice.
pub fn take_out(running: &mut Vec<Attempt>, at: usize) -> Attempt
    requires place { at < length running.old.items }
    requires once { Once running.old.items }
    ensures taken { slice_get running.old.items at ≡ Some result }
    ensures left { running.new.items ≡ filter (λ b. not (same_attempt result b)) running.old.items }
{
    running.remove(at)
}

/// The place of the oldest attempt on a node. `None` exactly where the node runs none.
pub fn oldest_on(running: &[Attempt], node: u32) -> Option<usize>
    ensures { MatchOption result (list_any (λ (a : Tried). node == a.node) running.now ≡ false) (λ at. IsFirst (λ (a : Tried). node == a.node) running.now at) }
{
    'running: for at in 0..running.len() {
        if node == running[at].node {
            return Some(at);
        }
    }
    None
}

/// The place of the oldest attempt on the lowest node that runs one. `None` exactly where none runs.
pub fn oldest(running: &[Attempt]) -> Option<usize>
    ensures { MatchOption result (running.now ≡ []) (λ at. IsOldest running.now at) }
{
    match lowest_node(running) {
        Some(node) => oldest_on(running, node),
        None => None,
    }
}

/// The lowest node that runs an attempt. `None` exactly where none runs.
pub fn lowest_node(running: &[Attempt]) -> Option<u32>
    ensures { result ≡ lowest_of running.now }
{
    let (first, others) = running.split_first()?;
    let mut lowest = first.node;
    'others: for attempt in others {
        lowest = lowest.min(attempt.node);
    }
    Some(lowest)
}

/// The place of a task among those that failed. `None` exactly where none of its attempts did.
fn place_of(failures: &[Failed], task: &Task) -> Option<usize>
    ensures { MatchOption result (list_any (λ (f : Counted). is_task task.now f.task) failures.now ≡ false) (λ at. IsFirst (λ (f : Counted). is_task task.now f.task) failures.now at) }
{
    'failures: for at in 0..failures.len() {
        if *task == failures[at].task {
            return Some(at);
        }
    }
    None
}

/// Counts a failure of a task, and tells how many there are.
pub fn count_failure(failures: &mut Vec<Failed>, task: &Task) -> Result<u32, Memory>
    requires few { failures_of task.now failures.old.items < 4294967295 }
    ensures counted { OnOk result (failures.new.items ≡ with_failure task.now failures.old.items) }
    ensures count { IfOk result (λ count. count ≡ failures_of task.now (with_failure task.now failures.old.items)) }
    ensures kept { OnErr result (failures.new.items ≡ failures.old.items) }
{
    match place_of(failures, task) {
        Some(at) => {
            failures[at].count += 1;
            Ok(failures[at].count)
        }
        None => {
            failures.push(Failed {
                task: *task,
                count: 1,
            })?;
            Ok(1)
        }
    }
}
