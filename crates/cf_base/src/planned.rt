ghost use Rattle.std.specs.Prelude.{◌≡◌};
ghost use Rattle.cf_base.specs.Plan as plan;

use std::marker::Model;

/// Which of the calls on an object in memory are to fail, and the number of the next one.
#[derive(Debug, Drop)]
pub struct Planned {
    fail: Vec<u32>,
    next: u64,
}

impl Model for Planned {
    ghost use Rattle.cf_base.specs.Plan.{Plan};

    ghost Value = { Plan };

    ghost view = { λ p. record { fail = p.fail.items; next = p.next } };
}

impl Planned {
    /// The calls with these numbers, from 1, are to fail.
    pub fn new(fail: Vec<u32>) -> Planned
        ensures { result ≡ plan.plan_of fail.items }
    {
        Planned { fail, next: 1 }
    }

    /// Counts one more call, and tells whether it is to fail.
    pub fn fails_next(&mut self) -> bool
        ensures answer { result ≡ plan.fails_next self.old }
        ensures counted { self.new ≡ plan.one_later self.old }
    {
        let next = self.next;
        self.next = next.saturating_add(1);
        self.fail.iter().any(|number| u64::from(*number) == next)
    }
}
