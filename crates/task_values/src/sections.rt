ghost use Rattle.task_values.specs.Sections.{CachesMakeTheOutput, CachesServe, SpillsHaveSections, SpillsMakeTheOutput, SpillsMakeTheSection, SplitsAreTheirFiles, SplitsMakeTheSource};

/// The splits of a source are the values of their files, and one after another they are what the source
/// reads. docs/CLUSTER.md, "Values of names".
pub fn splits_make_the_source()
    ensures files { SplitsAreTheirFiles }
    ensures source { SplitsMakeTheSource }
{}

/// A section of a spill is that of what the map emits for its split, and those of the spills of a source,
/// made one, are the section of its stream. docs/CLUSTER.md, "Values of names".
pub fn spills_have_sections()
    ensures each { SpillsHaveSections }
    ensures merged { SpillsMakeTheSection }
{}

/// The job over what the spills of the round give is the part of the output. docs/CLUSTER.md, "Values of names".
pub fn spills_make_the_output()
    ensures { SpillsMakeTheOutput }
{}

/// The spills of round 1 make a cache, and it serves in each round. docs/CLUSTER.md, "Values of names".
pub fn caches_serve()
    ensures { CachesServe }
{}

/// The job over caches and spills is the part of the output. docs/CLUSTER.md, "Values of names".
pub fn caches_make_the_output()
    ensures { CachesMakeTheOutput }
{}
