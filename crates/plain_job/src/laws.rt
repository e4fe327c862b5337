ghost use Rattle.plain_job.specs.ChainLaws.{ChainsAreByNumbers, ChainsAreOfTheirSchemas, ChainsAreOne, FunctionsTellTheDistance, KeysStandInTheirParts, PartsMakeTheDistance, PartsSumToTheDistance};
ghost use Rattle.plain_job.specs.Laws.{PartsMakeTheJob, SortingKeepsTheJob};
ghost use Rattle.plain_job.specs.Sections.{SectionsMakeThePart, SectionsServeEachRound, SplitsMakeTheSection};

/// The job of a part is the job of the streams' records of that part.
/// docs/SEMANTICS.md, "The plain job".
pub fn parts_make_the_job()
    ensures { PartsMakeTheJob }
{}

/// A job reads each stream as if it were sorted. docs/SEMANTICS.md, "The plain job".
pub fn sorting_keeps_the_job()
    ensures { SortingKeepsTheJob }
{}

/// Sections of streams make a part; those of splits make that of the whole; and they serve in each round
/// where nothing uses the round. docs/SEMANTICS.md, "Parts".
pub fn sections_make_the_job()
    ensures part { SectionsMakeThePart }
    ensures splits { SplitsMakeTheSection }
    ensures rounds { SectionsServeEachRound }
{}

/// The chain by round, step and part. docs/SEMANTICS.md, "The unrolled chain".
pub fn chains_are_by_numbers()
    ensures { ChainsAreByNumbers }
{}

/// A chain ends in one round, in one way, and leaves one list of texts.
/// docs/SEMANTICS.md, "Distance and end".
pub fn chains_are_one()
    ensures { ChainsAreOne }
{}

/// The distances of the parts make that of the round, where each key stands in its part, as it does where
/// the last step keeps its key and its partition does not use the round; and functions that fit tell it.
/// docs/SEMANTICS.md, "Distance and end".
pub fn parts_make_the_distance()
    ensures sum { PartsSumToTheDistance }
    ensures keys { KeysStandInTheirParts }
    ensures rounds { PartsMakeTheDistance }
    ensures functions { FunctionsTellTheDistance }
{}

/// Whatever a chain reads and leaves is of the schemas that its shape names, where functions and tables
/// fit it. docs/SEMANTICS.md, "Schemas".
pub fn chains_are_of_their_schemas()
    ensures { ChainsAreOfTheirSchemas }
{}
