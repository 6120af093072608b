ghost use Rattle.std.specs.Prelude.{◌≡◌};
ghost use Rattle.cc_whole_mean.specs.Types as types;

use cc_whole::{CConstant, CType};
use cc_whole_memory::{Act, Scalar, Value};
use cf_base::Kind;
use std::alloc::{AllocError, AllocFailed};

/// Why an evaluation gives nothing.
#[derive(Clone, Copy, Debug, PartialEq, Eq)]
pub enum Stop {
    Act(Act),
    Memory,
}

impl From<Act> for Stop {
    ghost use Rattle.std.specs.Prelude.{◌≡◌};
    ghost use Rattle.cc_whole_eval.specs.declared.types.Stop.TheVariants as stop;

    ghost from_gives = { λ act e. e ≡ stop.Act act };

    fn from(act: Act) -> Stop {
        Stop::Act(act)
    }
}

impl From<AllocError> for Stop {
    ghost use Rattle.std.specs.Prelude.{◌≡◌};
    ghost use Rattle.cc_whole_eval.specs.declared.types.Stop.TheVariants as stop;

    ghost from_gives = { λ _ e. e ≡ stop.Memory };

    fn from(_error: AllocError) -> Stop {
        Stop::Memory
    }
}

impl<T: Drop> From<AllocFailed<T>> for Stop {
    ghost use Rattle.std.specs.Prelude.{◌≡◌};
    ghost use Rattle.cc_whole_eval.specs.declared.types.Stop.TheVariants as stop;

    ghost from_gives = { λ _ e. e ≡ stop.Memory };

    fn from(_error: AllocFailed<T>) -> Stop {
        Stop::Memory
    }
}

/// What a load or a store of the type is.
pub fn scalar_of(ty: CType) -> Scalar
    ensures { result ≡ types.scalar_of ty }
{
    match ty {
        CType::Char => Scalar::Integer(Kind::Char),
        CType::UChar => Scalar::Integer(Kind::UChar),
        CType::Short => Scalar::Integer(Kind::Short),
        CType::UShort => Scalar::Integer(Kind::UShort),
        CType::Int => Scalar::Integer(Kind::Int),
        CType::UInt => Scalar::Integer(Kind::UInt),
        CType::Pointer => Scalar::Pointer,
        CType::FunctionPointer => Scalar::Function,
    }
}

/// The value of a constant.
pub fn constant_value(constant: CConstant) -> Value
    ensures { result ≡ types.constant_value constant }
{
    match constant {
        CConstant::Signed(number) => Value::Number(Kind::Int, i64::from(number)),
        CConstant::Unsigned(number) => Value::Number(Kind::UInt, i64::from(number)),
    }
}
