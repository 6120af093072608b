ghost use Rattle.std.specs.Prelude.{◌≡◌};

use cf_base::{Broken, Rule};
use cf_elab_env::Stop;

/// What is named at this place is no type: K10 (7.1.6).
pub(crate) fn no_type(at: u32) -> Stop
    ensures { result ≡ Stop.Broken (record { rule = 10; at = at }) }
{
    Stop::Broken(Broken {
        rule: Rule::new(10),
        at,
    })
}
