//! Actions that name, begin, set and end the objects of a function, beside their C. As laws; nothing here runs.
#![tactic(auto)]

ghost use Rattle.std.specs.Prelude.{◌≡◌, ℕ, true, List, Some};
ghost use Rattle.cf_core.specs.Types.{SourceType, without_const};
ghost use Rattle.cf_lower_layout.specs.Layout.{has_bytes};
ghost use Rattle.cf_lower_layout.specs.Sorts.{Sort, address, code, sort_of};
ghost use Rattle.cf_plain.specs.Plain as plain;
ghost use Rattle.cf_plain.specs.Plain.{Register, act};
ghost use Rattle.cf_lower.specs.Kept.{Kept, holds, local_kept, type_of_local};
ghost use Rattle.cf_lower_steps.specs.Lowering.{Takes, falls_only};
ghost use Rattle.cf_lower_steps.specs.Moment.{Moment, Stands, Lowers};
ghost use Rattle.cf_lower_pointers.specs.Sets.{Sets};
ghost use Rattle.cf_lower_objects.specs.Locals.{MayBegin, Named, InObject, NamesFunction};

/// The law that a local that begins stands in its C local, whose address the register has (6.7). It does nothing.
pub fn locals_begin()
    ensures { (at : Moment) → Stands at → (i : ℕ) (t : SourceType) → MayBegin at i t → Sets (plain.declare i t) (holds (address (without_const t))) at }
{}

/// The law that the storage of a local without a destructor ends in both, the C doing nothing (6.6). It does nothing.
pub fn locals_end()
    ensures { (at : Moment) → Stands at → (i : ℕ) (t : SourceType) → has_bytes t ≡ true → Lowers at (act (plain.finish t i)) at.kept falls_only }
{}

/// The law that the first value of a scalar stands in both where it was stored (8.4). It does nothing.
pub fn first_values_are_stored()
    ensures { (at : Moment) → Stands at → (r q : Register) (t : SourceType) (u : Sort) (x : Kept) (b : Sort) → at.kept r ≡ holds (address t) → sort_of t ≡ Some u
        → at.kept q ≡ x → local_kept x ≡ Some b → Takes u x → InObject at r → Lowers at (act (plain.first r q)) at.kept falls_only }
{}

/// The law that a name stands for the same function, or the same local's place, in both (5.1). It does nothing.
pub fn names_are_lowered()
    ensures functions { (at : Moment) → Stands at → (name : List ℕ) (t : SourceType) → NamesFunction at name t
        → Sets (plain.function name t) (holds (code (without_const t))) at }
    ensures locals { (at : Moment) → Stands at → (i : ℕ) → Named at i
        → Sets (plain.local i) (holds (address (without_const (type_of_local at.own.locals i)))) at }
{}
