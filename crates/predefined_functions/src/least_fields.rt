ghost use Rattle.std.specs.Prelude.{◌≡◌, None};
ghost use Rattle.std.specs.List.{flat_map};
ghost use Rattle.std.specs.Option.{option_copied};
ghost use Rattle.plain_job.specs.Predefined.{least_of};

use hal_base::{Fields, Group};

pub(crate) fn least_fields(groups: &[Group]) -> Option<&Fields>
    ensures { option_copied result ≡ least_of None (flat_map (λ group. group) groups.now) }
{
    let mut least = None;
    'groups: for group in groups {
        least = least_from(least, group.as_slice());
    }
    least
}

fn least_from<'a>(first: Option<&'a Fields>, fields: &'a [Fields]) -> Option<&'a Fields>
    ensures { option_copied result ≡ least_of (option_copied first.entry) fields.now }
{
    let mut least = first;
    'fields: for one in fields {
        least = match least {
            Some(before) if before.compare(one).is_le() => Some(before),
            _ => Some(one),
        };
    }
    least
}
