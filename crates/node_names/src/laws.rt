ghost use Rattle.node_names.specs.Names.{DistinctNames};
ghost use Rattle.node_names.specs.Tasks.{DistinctTasks};

/// No two names have one file.
pub fn distinct_names_have_distinct_texts()
    ensures { DistinctNames }
{}

/// No two tasks have one text.
pub fn distinct_tasks_have_distinct_texts()
    ensures { DistinctTasks }
{}
