ghost use Rattle.std.specs.Prelude.{◌≡◌, ◌≤◌};

use cf_base::{Broken, Rule};

/// The rule of this number is broken at this place.
pub fn broken(rule: u8, at: u32) -> Broken
    requires from_one { 1 ≤ rule }
    requires to_last { rule ≤ 48 }
    ensures { result ≡ record { rule = rule; at = at } }
{
    Broken {
        rule: Rule::new(rule),
        at,
    }
}
