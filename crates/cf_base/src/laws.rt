ghost use Rattle.cf_base.specs.World.{Outcome};
ghost use Rattle.cf_base.specs.Agree.{Agree};

/// Agreement over two passes is agreement over both.
pub fn agreement_composes()
    ensures { (x y z : Outcome) → Agree x y → Agree y z → Agree x z }
{}
