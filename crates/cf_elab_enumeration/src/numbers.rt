ghost use Rattle.std.specs.Prelude.{◌≡◌, IfOk};
ghost use Rattle.cf_elab.specs.Enumeration as spec;

use cf_base::Memory;
use cf_elab_env::Value;

/// The number of an enumerator: that of its expression, or without one the next.
pub fn number_of(next: Option<i64>, value: &Option<Value>) -> Option<i64>
    ensures { result ≡ spec.number_of next value.now }
{
    match value {
        Some(value) => value.number(),
        None => next,
    }
}

/// The number of the next enumerator, where it has no expression. One past 63 bits ends as want of memory does.
pub fn one_more(number: Option<i64>) -> Result<Option<i64>, Memory>
    ensures { IfOk result (λ next. next ≡ spec.one_more number) }
{
    match number {
        Some(number) => {
            let next = number.checked_add(1).ok_or(Memory)?;
            Ok(Some(next))
        }
        None => Ok(None),
    }
}

/// The number; where an expression is no constant 0, since K19 comes later.
pub fn number_or_zero(number: Option<i64>) -> i64
    ensures { result ≡ spec.number_or_zero number }
{
    match number {
        Some(number) => number,
        None => 0,
    }
}

/// What an enumerator of this number counts as in the expressions behind it: one past `int` as 0, since K5 comes later.
pub fn int_or_zero(number: Option<i64>) -> i64
    ensures { result ≡ spec.int_or_zero number }
{
    let value = number_or_zero(number);
    if i32::try_from(value).is_ok() {
        value
    } else {
        0
    }
}
