// The life of an output cache of round 1, which is fit in round 2 alone.
use cache_states::{Aged, Filling, RoundToken, Sealed};
use hal_outside::MemDisks;
use node_files::FileRef;
use node_names::{Digest, Name};
use std::alloc::Global;
use std::test::Fail;

/// The round in which it was made and the present one, where the cache is not lent.
fn unfit(sealed: &Sealed, now: &RoundToken) -> Option<(u32, u32)> {
    match sealed.lend(now) {
        Ok(_lease) => None,
        Err(unfit) => Some((unfit.made, unfit.now)),
    }
}

/// The cache where it is not stale; else its file is removed.
fn kept(alloc: Global, disks: &mut MemDisks, sealed: Sealed, now: &RoundToken) -> Option<Sealed> {
    match sealed.age(now) {
        Ok(aged) => {
            let _removed = is_retired(alloc, disks, aged);
            None
        }
        Err(sealed) => Some(sealed),
    }
}

fn is_retired(alloc: Global, disks: &mut MemDisks, aged: Aged) -> bool {
    match aged.retire(alloc, disks) {
        Ok(()) => true,
        Err((aged, fault)) => {
            let _file = aged.leave(fault);
            false
        }
    }
}

#[test]
fn an_output_cache_is_fit_in_the_next_round_alone(rt: HostRuntime) -> Result<(), Fail> {
    let mut disks = MemDisks::new(rt.alloc());
    let name = Name::Roc { round: 1, part: 0 };
    let file = FileRef {
        node: 0,
        name,
        digest: Digest([7; 32]),
    };
    let cache = Filling::begin(name, 0).seal(file);
    let first = RoundToken::first();
    assert!(rt; unfit(&cache, &first) == Some((1, 1)));
    let second = first.next();
    assert!(rt; unfit(&cache, &second).is_none());
    let cache = kept(rt.alloc(), &mut disks, cache, &second);
    assert!(rt; cache.is_some());
    let third = second.next();
    if let Some(cache) = cache {
        assert!(rt; unfit(&cache, &third) == Some((1, 3)));
        assert!(rt; kept(rt.alloc(), &mut disks, cache, &third).is_none());
    }
    Ok(())
}
