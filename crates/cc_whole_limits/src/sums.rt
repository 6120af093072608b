ghost use Rattle.std.specs.Prelude.{◌≡◌, max};
ghost use Rattle.cc_whole_limits.specs.Sums.{capped_plus};

/// A sum, or the greatest number where it is greater.
pub fn sum(a: u64, b: u64) -> u64
    ensures { result ≡ capped_plus a b }
{
    a.saturating_add(b)
}

pub fn larger(a: u64, b: u64) -> u64
    ensures { result ≡ max a b }
{
    a.max(b)
}
