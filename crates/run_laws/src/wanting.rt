ghost use Rattle.run_laws.specs.Wanting.{SiteIsThere, TheWalkIsRight, TheWantedAreLeast, WantedAreTasks};

/// One walk over the tasks, from the last to the first, finds the wanted tasks and no others.
pub fn the_walk_is_right()
    ensures { TheWalkIsRight }
{}

/// The wanted tasks are in each set that has the goals and what they ask for.
pub fn the_wanted_are_least()
    ensures { TheWantedAreLeast }
{}

/// Each wanted task is one of the shape, and of no later round.
pub fn wanted_are_tasks()
    ensures { WantedAreTasks }
{}

/// A task has no site exactly where no node is idle.
pub fn site_is_there()
    ensures { SiteIsThere }
{}
