ghost use Rattle.std.specs.Prelude.{◌≡◌, map, None};
ghost use Rattle.std.specs.List.{list_all};
ghost use Rattle.cluster_core.specs.States.{is_known, known_at};

/// Whether each value is known.
pub fn all_known(values: &[Option<u64>]) -> bool
    ensures { result ≡ list_all is_known values.now }
{
    'values: for value in values {
        if value.is_none() {
            return false;
        }
    }
    true
}

/// Whether the value of this number is known.
pub fn is_known(values: &[Option<u64>], number: u32) -> bool
    ensures { result ≡ known_at values.now number }
{
    match values.get(number as usize) {
        Some(value) => value.is_some(),
        None => false,
    }
}

/// Forgets each value.
pub fn forget(values: &mut [Option<u64>])
    ensures { values.new ≡ map (λ _. None) values.old }
{
    'values: for at in 0..values.len() {
        values[at] = None;
    }
}
