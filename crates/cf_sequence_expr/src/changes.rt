//! What is changed in place.

ghost use Rattle.std.specs.Prelude.{◌≡◌, OnOk};
ghost use Rattle.cf_sequence_expr.specs.Pieces as spec;

use crate::writing::{Writing, behind};
use cf_base::Memory;
use cf_core::Change;
use cf_plain::Action;

/// Writes the new value of the place in this register, by the value in the next one (5.17).
#[tactic(auto, unfolding(crate::specs::Pieces::updated))]
pub fn updated(change: Change, n: u32, w: &mut Writing) -> Result<(), Memory>
    ensures { OnOk result (w.new ≡ spec.updated change n w.old) }
{
    let second = behind(n)?;
    let third = behind(second)?;
    w.used(second)?;
    w.set(third, Action::Read { place: n })?;
    w.set(
        second,
        Action::Changed {
            change,
            value: third,
            by: second,
        },
    )?;
    w.act(Action::Store {
        place: n,
        value: second,
    })
}

/// Writes `++` or `--` of the place in this register, which stays there (5.3).
#[tactic(auto, unfolding(crate::specs::Pieces::stepped))]
pub fn stepped(change: Change, n: u32, w: &mut Writing) -> Result<(), Memory>
    ensures { OnOk result (w.new ≡ spec.stepped change n w.old) }
{
    let second = behind(n)?;
    let third = behind(second)?;
    w.set(second, Action::Read { place: n })?;
    w.set(third, Action::Number { value: 1 })?;
    w.set(
        second,
        Action::Changed {
            change,
            value: second,
            by: third,
        },
    )?;
    w.act(Action::Store {
        place: n,
        value: second,
    })
}

/// Writes `++` or `--` of the place in the next register, with the value before into this one (5.2.5).
#[tactic(auto, unfolding(crate::specs::Pieces::stepped_behind))]
pub fn stepped_behind(change: Change, n: u32, w: &mut Writing) -> Result<(), Memory>
    ensures { OnOk result (w.new ≡ spec.stepped_behind change n w.old) }
{
    let second = behind(n)?;
    let third = behind(second)?;
    w.set(n, Action::Read { place: second })?;
    w.set(third, Action::Number { value: 1 })?;
    w.set(
        third,
        Action::Changed {
            change,
            value: n,
            by: third,
        },
    )?;
    w.act(Action::Store {
        place: second,
        value: third,
    })
}
