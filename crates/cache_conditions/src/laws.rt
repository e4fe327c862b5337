ghost use Rattle.cache_conditions.specs.Laws.{CachedSourcesStayTheSame, LocalDistancesMakeTheDistance, MappedTablesStayTheSame};
ghost use Rattle.cache_conditions.specs.Worked.{WorkedOrders, WorkedPrograms, WorkedWords};

/// What a cache that is had keeps is what would be made anew in a later round. docs/LANGUAGE.md, "Caches".
pub fn caches_keep_what_would_be_made()
    ensures reducer_input { CachedSourcesStayTheSame }
    ensures mapper_input { MappedTablesStayTheSame }
    ensures reducer_output { LocalDistancesMakeTheDistance }
{}

/// The definitions give for programs what was worked out by hand.
pub fn worked_programs()
    ensures texts { WorkedPrograms }
    ensures words { WorkedWords }
    ensures orders { WorkedOrders }
{}
