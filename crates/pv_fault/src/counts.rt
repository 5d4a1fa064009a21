ghost use Rattle.std.specs.Prelude.{◌≡◌};
ghost use Rattle.pv_fault.specs.Counts.{sum_of_two};

/// The sum of two counts of fields, each of which may be absent. It stops at the last value of a `u64`.
pub fn add_counts(a: Option<u64>, b: Option<u64>) -> Option<u64>
    ensures { result ≡ sum_of_two a b }
{
    match (a, b) {
        (Some(m), Some(n)) => Some(m.saturating_add(n)),
        (Some(n), None) | (None, Some(n)) => Some(n),
        (None, None) => None,
    }
}
