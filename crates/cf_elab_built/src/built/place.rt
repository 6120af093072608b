//! Places, of which the first counts.

ghost use Rattle.std.specs.Prelude.{◌≡◌};
ghost use Rattle.cf_elab.specs.Built as built;

/// The first of two byte places, of which each may be absent.
pub fn first(a: Option<u32>, b: Option<u32>) -> Option<u32>
    ensures { result ≡ built.first a b }
{
    match (a, b) {
        (None, _) => b,
        (Some(_), None) => a,
        (Some(x), Some(y)) => if x <= y { a } else { b },
    }
}
