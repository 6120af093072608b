ghost use Rattle.std.specs.Prelude.{◌≡◌};
ghost use Rattle.cf_base.specs.Integers.{bits_of};
ghost use Rattle.cc_whole.specs.Plain.{expression_of, select};
ghost use Rattle.cc_whole_mean.specs.Mean as mean;
ghost use Rattle.cc_whole_step.specs.Running.{beginning, switch_of};
ghost use Rattle.cc_whole_step.specs.Switch.{behind_label};
ghost use Rattle.cc_whole_step.specs.Comes.{Comes};

use crate::mark::{Doing, Mark};
use crate::moment::{Moment, Step};
use crate::stop::Stop;
use cc_whole::{CConstant, CExpression, CSwitchItem};
use cc_whole_eval::integer;

/// An integer modulo 2 ^ 32.
pub fn bits_of(number: i64) -> u32
    ensures { result ≡ bits_of 32 number }
{
    if number < 0 {
        4294967295 - ((-(number + 1)) % 4294967296) as u32
    } else {
        (number % 4294967296) as u32
    }
}

/// A constant modulo 2 ^ 32.
fn constant_bits(constant: CConstant) -> u32
    ensures { result ≡ mean.constant_bits constant }
{
    match constant {
        CConstant::Signed(number) => bits_of(i64::from(number)),
        CConstant::Unsigned(number) => number,
    }
}

/// Whether a `switch` has a label of this value.
fn has_label(bits: u32, items: &[CSwitchItem]) -> bool
    ensures { result ≡ mean.has_label bits (switch_of items.now) }
{
    let mut items = items;
    while let Some((first, rest)) = items.split_first() {
        if let CSwitchItem::Case(constant) = first {
            if constant_bits(*constant) == bits {
                return true;
            }
        }
        items = rest;
    }
    false
}

/// The label that a `switch` goes to: one of this value, or `default`.
fn wanted(bits: u32, items: &[CSwitchItem]) -> Option<u32>
    ensures { result ≡ mean.wanted bits (switch_of items.now) }
{
    if has_label(bits, items) {
        Some(bits)
    } else {
        None
    }
}

/// Whether a label is the one that is wanted.
fn is_wanted(label: Option<u32>, constant: CConstant) -> bool
    ensures { result ≡ mean.is_wanted label constant }
{
    match label {
        None => false,
        Some(bits) => constant_bits(constant) == bits,
    }
}

/// What stands behind the label that is wanted, `default` where none is.
fn behind_label(label: Option<u32>, items: &[CSwitchItem]) -> &[CSwitchItem]
    ensures { switch_of result.now ≡ behind_label label (switch_of items.now) }
{
    let mut items = items;
    while let Some((first, rest)) = items.split_first() {
        let is_here = match first {
            CSwitchItem::Case(constant) => is_wanted(label, *constant),
            CSwitchItem::Default => label.is_none(),
            CSwitchItem::Statement(_) => false,
        };
        if is_here {
            return rest;
        }
        items = rest;
    }
    items
}

impl<'a> Moment<'a> {
    /// `switch (expression) { items }`
    pub fn select(&mut self, e: &CExpression, items: &'a [CSwitchItem]) -> Result<Step<'a>, Stop>
        ensures { Comes (beginning (select (expression_of e.now) (switch_of items.now))) result self.old self.new }
    {
        let number = integer(e, &self.frames, &self.store)?;
        let label = wanted(bits_of(number), items);
        self.frames.marks.push(Mark::Switch)?;
        self.doing = Doing::Items(behind_label(label, items));
        Ok(Step::On)
    }
}
