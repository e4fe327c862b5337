ghost use Rattle.cache_states.specs.Laws.{CachesGoWhereTheyAreStale, StaleCachesStayStale};
ghost use Rattle.cache_states.specs.Worked.{WorkedLives};

/// A stale cache is never fit again, and the caches that go when a round begins or a node returns are the stale ones.
/// docs/CLUSTER.md, "Lives of caches".
pub fn lives_end_where_caches_go()
    ensures stale { StaleCachesStayStale }
    ensures goes { CachesGoWhereTheyAreStale }
{}

/// The definitions give for caches what was worked out by hand.
pub fn worked_lives()
    ensures { WorkedLives }
{}
