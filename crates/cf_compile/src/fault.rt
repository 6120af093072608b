ghost use Rattle.std.specs.Prelude.{◌≡◌};
ghost use Rattle.cf_compile.specs.Takes as spec;
ghost use Rattle.cf_compile.specs.declared.fault.Fault.TheVariants as fault;

use cf_base::{Broken, Limit, Memory, Rule};
use thiserror::Error;

/// Why a file is not translated.
#[derive(Debug, Drop, Error)]
pub enum Fault {
    /// The file breaks a rule, at a byte place.
    #[error("rule {} broken at byte {}", .0.rule.number(), .0.at)]
    Broken(Broken),
    /// The file passes a limit.
    #[error("limit {:?} {} passed", .0.bound, .0.most)]
    Limit(Limit),
    #[error("out of memory")]
    Memory,
}

/// A form that is not built, at this place.
pub fn unbuilt_at(at: u32) -> Fault
    ensures { result ≡ fault.Broken (spec.unbuilt_at at) }
{
    Fault::Broken(Broken {
        rule: Rule::new(48),
        at,
    })
}

impl From<Memory> for Fault {
    ghost from_gives = { λ _ e. e ≡ fault.Memory };

    fn from(_error: Memory) -> Fault {
        Fault::Memory
    }
}
