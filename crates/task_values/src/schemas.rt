ghost use Rattle.task_values.specs.Schemas.{MapsFit, ReducesFit, ValuesFit};

/// What a task makes is of the schemas that its shape names, where what it read is, and the functions fit.
/// docs/CLUSTER.md, "Values of names".
pub fn computed_fits()
    ensures maps { MapsFit }
    ensures reduces { ReducesFit }
{}

/// The value of each name is of the schema that the shape names for it, where functions and tables fit.
/// docs/CLUSTER.md, "Values of names".
pub fn values_fit()
    ensures { ValuesFit }
{}
