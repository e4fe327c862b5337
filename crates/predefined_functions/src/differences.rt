ghost use Rattle.std.specs.Prelude.{◌≡◌};
ghost use Rattle.plain_job.specs.Distances as distances;

use hal_base::Group;

/// 1 where the two groups differ, else 0. docs/SEMANTICS.md, "Distance and end".
pub fn differ(old: &Group, new: &Group) -> u64
    ensures { result ≡ distances.differ old.now new.now }
{
    if old.as_slice().cmp(new.as_slice()).is_eq() {
        0
    } else {
        1
    }
}
