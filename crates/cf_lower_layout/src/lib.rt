//! Where the parts of objects lie in their bytes, as definitions and laws: offsets of places, of arrays alone so far. Nothing here runs.
#![tactic(auto)]

ghost use Rattle.std.specs.Prelude.{◌≡◌, ℕ, ◌+◌, ◌≤◌, List, true, ◌⊎◌};
ghost use Rattle.cf_core.specs.Types.{SourceType};
ghost use Rattle.cf_core.specs.Classes.{Class};
ghost use Rattle.cf_core.specs.Places.{Route, type_at, is_scalar};
ghost use Rattle.cf_core.specs.Size.{size};
ghost use Rattle.cf_lower_layout.specs.Layout.{offset, leads, points, Apart};

/// The law that each part of an object lies within its size, and each end of an array within or behind it. It does nothing.
pub fn parts_lie_inside()
    ensures parts { (cs : List Class) (t : SourceType) (π : Route) → leads cs t π ≡ true → offset cs t π + size cs (type_at cs t π) ≤ size cs t }
    ensures ends { (cs : List Class) (t : SourceType) (π : Route) → points cs t π ≡ true → offset cs t π ≤ size cs t }
{}

/// The law that two scalars of one object are the same or have no byte in common. It does nothing.
pub fn scalars_lie_apart()
    ensures { (cs : List Class) (t : SourceType) (π ρ : Route) → leads cs t π ≡ true → leads cs t ρ ≡ true
        → is_scalar (type_at cs t π) ≡ true → is_scalar (type_at cs t ρ) ≡ true
        → (π ≡ ρ) ⊎ Apart (offset cs t π) (size cs (type_at cs t π)) (offset cs t ρ) (size cs (type_at cs t ρ)) }
{}
