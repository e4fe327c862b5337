ghost use Rattle.std.specs.Prelude.{◌≡◌, true};
ghost use Rattle.std.specs.List.{list_all};
ghost use Rattle.replica_table.specs.Sets.{among};
ghost use Rattle.run_model.specs.Needs.{is_there, needs};
ghost use Rattle.run_model.specs.Tasks.{IsTask};
ghost use Rattle.run_model.specs.Wanted.{ready};
ghost use Rattle.cache_rebuild.specs.steps.Files.{files_in};
ghost use Rattle.cache_rebuild.specs.steps.Needing.{needed};

use crate::files::Files;
use crate::needs::{input_count, is_there, needed, up_site};
use loop_scheduler::View;
use node_names::Task;

/// Whether a task can start: it has a site, and all that it needs is there. docs/CLUSTER.md, "What a task needs".
pub fn ready(task: &Task, view: &View) -> bool
    requires { IsTask view.now.shape task.now }
    ensures { result ≡ ready view.now task.now }
{
    match up_site(task, view) {
        Some(node) => has_needs(view, node, task),
        None => false,
    }
}

/// Whether all that a task needs at a node, which is up, is there.
fn has_needs(view: &View, node: u32, task: &Task) -> bool
    requires { among node view.now.up ≡ true }
    ensures { result ≡ list_all (is_there view.now.copies view.now.up node) (needs view.now.shape view.now.copies node task.now) }
{
    'inputs: for input in 1..input_count(view.shape(), task) + 1 {
        if !has_input(view, node, task, input) {
            return false;
        }
    }
    true
}

/// Whether what a task needs of an input is there.
fn has_input(view: &View, node: u32, task: &Task, input: u32) -> bool
    requires { among node view.now.up ≡ true }
    ensures { result ≡ list_all (is_there view.now.copies view.now.up node) (needed view.now node task.now input) }
{
    match needed(view, node, task, input) {
        Some(files) => are_there(view, node, &files),
        None => true,
    }
}

/// Whether all of these files are there.
fn are_there(view: &View, node: u32, files: &Files) -> bool
    requires { among node view.now.up ≡ true }
    ensures { result ≡ list_all (is_there view.now.copies view.now.up node) (files_in files.now) }
{
    'files: for number in 0..files.count() {
        if !is_there(view, node, &files.name(number)) {
            return false;
        }
    }
    true
}
