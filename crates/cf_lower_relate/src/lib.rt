//! When the objects of the source stand in the memory of the small C, as definitions and laws. Nothing here runs.
#![tactic(auto)]

ghost use Rattle.std.specs.Prelude.{◌≡◌, ℕ, ◌<◌, nat_le, true, false, ℤ, ◌*ℤ◌, pos, Some, Result, Ok};
ghost use Rattle.cf_core.specs.Places.{Place};
ghost use Rattle.cf_core.specs.Pointers.{element_of, route_of, bound_of, further};
ghost use Rattle.cf_core.specs.Store as source;
ghost use Rattle.cf_core.specs.Store.{hold};
ghost use Rattle.cf_core.specs.Run.{State, with_object};
ghost use Rattle.cf_core.specs.Size.{size};
ghost use Rattle.cf_lower_layout.specs.Layout.{leads, points};
ghost use Rattle.cf_lower_layout.specs.Sorts.{Sort, sort_of};
ghost use Rattle.cc_whole_memory.specs.declared.value.Value.{Value};
ghost use Rattle.cc_whole_memory.specs.Blocks.{Memory, read, write};
ghost use Rattle.cc_whole_memory.specs.Pointers.{moved};
ghost use Rattle.cf_lower_relate.specs.Scalars.{c_scalar};
ghost use Rattle.cf_lower_relate.specs.Map.{Fixed, Map, Is, is_ended, pointer_to, type_of_place};
ghost use Rattle.cf_lower_relate.specs.Relation.{Rel, Reads, Writes};

/// The law that the C reads at the place of a scalar what the object holds there. It does nothing.
pub fn reads_give_what_is_held()
    ensures { (K : Fixed) (F : Map) (s : State) (m : Memory) → Rel K F s m → (p : Place) (t : Sort) → p.object < F.count → is_ended (F.stage p.object) ≡ false
        → leads K.classes (F.type p.object) p.route ≡ true → sort_of (type_of_place K F p) ≡ Some t
        → (v : source.Value) → (s.object p.object).held p.route ≡ Some v → Reads K F t v (read (c_scalar t) (pointer_to K F p) m) }
{}

/// The law that after a write at the place of a scalar the objects stand in the memory again, the object holding the value. It does nothing.
pub fn writes_are_held()
    ensures { (K : Fixed) (F : Map) (s : State) (m : Memory) → Rel K F s m → (p : Place) (t : Sort) → p.object < F.count → is_ended (F.stage p.object) ≡ false
        → leads K.classes (F.type p.object) p.route ≡ true → sort_of (type_of_place K F p) ≡ Some t
        → (v : source.Value) (c : Value) → Is K F t v c
        → Writes K F (with_object p.object (hold p.route (Some v)) s) (F.block p.object) m (write (pointer_to K F p) c m) }
{}

/// The law that a pointer moved within its array, or to its end, is the C's pointer moved by the bytes of so many elements. It does nothing.
pub fn pointers_are_moved_by_bytes()
    ensures { (K : Fixed) (F : Map) (s : State) (m : Memory) → Rel K F s m → (p : Place) → p.object < F.count → is_ended (F.stage p.object) ≡ false
        → points K.classes (F.type p.object) p.route ≡ true → (i : ℕ) → nat_le i (bound_of K.classes (F.type p.object) (element_of p.route)) ≡ true
        → (z : ℤ) → further (element_of p.route).index z ≡ Some i
        → moved (pointer_to K F p) (z *ℤ pos (size K.classes (type_of_place K F p))) m
        ≡ Ok (pointer_to K F (record p { route = route_of (element_of p.route) i })) }
{}
