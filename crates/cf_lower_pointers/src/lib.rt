//! Actions on pointers, and on integers but for the operators of `cf_lower_steps`, beside their C: what a register is set to stands in its C local too. As laws; nothing here runs.
#![tactic(auto)]

ghost use Rattle.std.specs.Prelude.{◌≡◌, ◌⊎◌, Bool, true, false, Some};
ghost use Rattle.cf_base.specs.declared.kind.Kind.{Kind};
ghost use Rattle.cf_base.specs.declared.kind.Kind.TheVariants.{Int};
ghost use Rattle.cf_base.specs.declared.arith.Arith.{Arith};
ghost use Rattle.cf_base.specs.Promotion.{promoted};
ghost use Rattle.cf_core.specs.declared.operators.PointerOperator.TheVariants as pointer;
ghost use Rattle.cf_core.specs.declared.operators.UnaryOperator.TheVariants as sign;
ghost use Rattle.cf_core.specs.Types.{SourceType, void, element, without_const};
ghost use Rattle.cf_core.specs.Core.{arithmetic, moved};
ghost use Rattle.cf_lower_layout.specs.Sorts.{Sort, number, address, code, sort_of};
ghost use Rattle.cf_plain.specs.Plain as plain;
ghost use Rattle.cf_plain.specs.Plain.{Register};
ghost use Rattle.cf_lower_relate.specs.Map.{Numbered};
ghost use Rattle.cf_lower.specs.Kept.{integer_of, holds, a_truth, of_kind};
ghost use Rattle.cf_lower_steps.specs.Moment.{Moment, fixed, Stands};
ghost use Rattle.cf_lower_pointers.specs.Sets.{Sets, OneIsNull};

/// The law that a pointer moved by a number of elements is moved so in both, or the source comes to an undefined act (5.7, 5.2.1, 5.17). It does nothing.
pub fn pointers_are_moved()
    ensures sum { (at : Moment) → Stands at → (q v : Register) (t : SourceType) (f : Kind → Bool) → (t ≡ void → ⊥)
        → at.kept q ≡ holds (address t) → at.kept v ≡ integer_of f → Sets (plain.pointer_operate pointer.Add q v) (holds (address t)) at }
    ensures sum_turned { (at : Moment) → Stands at → (q v : Register) (t : SourceType) (f : Kind → Bool) → (t ≡ void → ⊥)
        → at.kept q ≡ integer_of f → at.kept v ≡ holds (address t) → Sets (plain.pointer_operate pointer.Add q v) (holds (address t)) at }
    ensures back { (at : Moment) → Stands at → (q v : Register) (t : SourceType) (f : Kind → Bool) → (t ≡ void → ⊥)
        → at.kept q ≡ holds (address t) → at.kept v ≡ integer_of f → Sets (plain.pointer_operate pointer.Subtract q v) (holds (address t)) at }
    ensures index { (at : Moment) → Stands at → (q v : Register) (t : SourceType) (f : Kind → Bool) → (t ≡ void → ⊥)
        → at.kept q ≡ holds (address t) → at.kept v ≡ integer_of f → Sets (plain.index q v) (holds (address t)) at }
    ensures index_turned { (at : Moment) → Stands at → (q v : Register) (t : SourceType) (f : Kind → Bool) → (t ≡ void → ⊥)
        → at.kept q ≡ integer_of f → at.kept v ≡ holds (address t) → Sets (plain.index q v) (holds (address t)) at }
    ensures changed { (at : Moment) → Stands at → (q v : Register) (t : SourceType) (f : Kind → Bool) → (t ≡ void → ⊥)
        → at.kept q ≡ holds (address t) → at.kept v ≡ integer_of f → Sets (plain.changed (moved false) q v) (holds (address t)) at }
    ensures changed_back { (at : Moment) → Stands at → (q v : Register) (t : SourceType) (f : Kind → Bool) → (t ≡ void → ⊥)
        → at.kept q ≡ holds (address t) → at.kept v ≡ integer_of f → Sets (plain.changed (moved true) q v) (holds (address t)) at }
{}

/// The law that two pointers compare alike in both, and that their difference is the same number of elements, or the source comes to an undefined act
/// (5.7, 5.9, 5.10). It does nothing.
pub fn pointers_are_compared()
    ensures less { (at : Moment) → Stands at → (q v : Register) (t u : SourceType) → at.kept q ≡ holds (address t) → at.kept v ≡ holds (address u)
        → Sets (plain.pointer_operate pointer.Less q v) a_truth at }
    ensures greater { (at : Moment) → Stands at → (q v : Register) (t u : SourceType) → at.kept q ≡ holds (address t) → at.kept v ≡ holds (address u)
        → Sets (plain.pointer_operate pointer.Greater q v) a_truth at }
    ensures less_equal { (at : Moment) → Stands at → (q v : Register) (t u : SourceType) → at.kept q ≡ holds (address t) → at.kept v ≡ holds (address u)
        → Sets (plain.pointer_operate pointer.LessEqual q v) a_truth at }
    ensures greater_equal { (at : Moment) → Stands at → (q v : Register) (t u : SourceType) → at.kept q ≡ holds (address t) → at.kept v ≡ holds (address u)
        → Sets (plain.pointer_operate pointer.GreaterEqual q v) a_truth at }
    ensures equal { (at : Moment) → Stands at → (q v : Register) (t u : SourceType) → at.kept q ≡ holds (address t) → at.kept v ≡ holds (address u)
        → Sets (plain.pointer_operate pointer.Equal q v) a_truth at }
    ensures unequal { (at : Moment) → Stands at → (q v : Register) (t u : SourceType) → at.kept q ≡ holds (address t) → at.kept v ≡ holds (address u)
        → Sets (plain.pointer_operate pointer.NotEqual q v) a_truth at }
    ensures difference { (at : Moment) → Stands at → (q v : Register) (t u : SourceType) → at.kept q ≡ holds (address t) → at.kept v ≡ holds (address u)
        → (t ≡ void → ⊥) → Sets (plain.pointer_operate pointer.Difference q v) (of_kind Int) at }
{}

/// The law that two pointers to functions, one of which is null, compare alike in both, where each function has a number of its own (5.10). It does nothing.
pub fn functions_are_compared()
    ensures equal { (at : Moment) → Stands at → Numbered (fixed at) → (q v : Register) (t u : SourceType) → at.kept q ≡ holds (code t) → at.kept v ≡ holds (code u)
        → OneIsNull at.registers q v → Sets (plain.pointer_operate pointer.Equal q v) a_truth at }
    ensures unequal { (at : Moment) → Stands at → Numbered (fixed at) → (q v : Register) (t u : SourceType) → at.kept q ≡ holds (code t) → at.kept v ≡ holds (code u)
        → OneIsNull at.registers q v → Sets (plain.pointer_operate pointer.NotEqual q v) a_truth at }
{}

/// The law that what is null, or 0, is found so in both (4.1, 5.3, 6.4). It does nothing.
pub fn values_are_tested()
    ensures pointers { (at : Moment) → Stands at → (q : Register) (t : SourceType) → at.kept q ≡ holds (address t) → Sets (plain.truth q) a_truth at }
    ensures no_pointers { (at : Moment) → Stands at → (q : Register) (t : SourceType) → at.kept q ≡ holds (address t) → Sets (plain.logical_not q) a_truth at }
    ensures functions { (at : Moment) → Stands at → Numbered (fixed at) → (q : Register) (t : SourceType) → at.kept q ≡ holds (code t)
        → Sets (plain.truth q) a_truth at }
    ensures no_functions { (at : Moment) → Stands at → Numbered (fixed at) → (q : Register) (t : SourceType) → at.kept q ≡ holds (code t)
        → Sets (plain.logical_not q) a_truth at }
    ensures no_numbers { (at : Moment) → Stands at → (q : Register) (f : Kind → Bool) → at.kept q ≡ integer_of f → Sets (plain.logical_not q) a_truth at }
{}

/// The law that a pointer keeps its place in both where it is followed, cast, or becomes one to an array's first element (4.6, 4.8, 5.3, 5.4). It does nothing.
pub fn pointers_are_cast()
    ensures dereference { (at : Moment) → Stands at → (q : Register) (u : Sort) → at.kept q ≡ holds u → Sets (plain.dereference q) (holds u) at }
    ensures decay { (at : Moment) → Stands at → (q : Register) (t : SourceType) → at.kept q ≡ holds (address t)
        → Sets (plain.decay q) (holds (address (element t))) at }
    ensures from_void { (at : Moment) → Stands at → (q : Register) (t : SourceType) → at.kept q ≡ holds (address t) → (u : SourceType)
        → Sets (plain.from_void u q) (holds (address (without_const u))) at }
    ensures to_type { (at : Moment) → Stands at → (q : Register) (t : SourceType) → at.kept q ≡ holds (address t) → (a u : SourceType)
        → sort_of a ≡ Some (address u) → (u ≡ void) ⊎ (t ≡ u) → Sets (plain.convert a q) (holds (address u)) at }
    ensures to_code { (at : Moment) → Stands at → (q : Register) (u : SourceType) → at.kept q ≡ holds (code u) → (a : SourceType) → sort_of a ≡ Some (code u)
        → Sets (plain.convert a q) (holds (code u)) at }
    ensures null { (at : Moment) → Stands at → (q : Register) (f : Kind → Bool) → at.kept q ≡ integer_of f → (a u : SourceType) → sort_of a ≡ Some (address u)
        → Sets (plain.convert a q) (holds (address u)) at }
    ensures null_code { (at : Moment) → Stands at → (q : Register) (f : Kind → Bool) → at.kept q ≡ integer_of f → (a u : SourceType) → sort_of a ≡ Some (code u)
        → Sets (plain.convert a q) (holds (code u)) at }
{}

/// The law that signs, conversions and changes in place give in both the same integers (4.3, 5.3, 5.17). It does nothing.
pub fn integers_are_changed()
    ensures negate { (at : Moment) → Stands at → (q : Register) (f : Kind → Bool) → at.kept q ≡ integer_of f → (k : Kind) → promoted k ≡ k
        → Sets (plain.unary sign.Negate k q) (of_kind k) at }
    ensures complement { (at : Moment) → Stands at → (q : Register) (f : Kind → Bool) → at.kept q ≡ integer_of f → (k : Kind) → promoted k ≡ k
        → Sets (plain.unary sign.Complement k q) (of_kind k) at }
    ensures converted { (at : Moment) → Stands at → (q : Register) (f : Kind → Bool) → at.kept q ≡ integer_of f → (a : SourceType) (k : Kind)
        → sort_of a ≡ Some (number k) → Sets (plain.convert a q) (of_kind k) at }
    ensures changed { (at : Moment) → Stands at → (q v : Register) (f g : Kind → Bool) → at.kept q ≡ integer_of f → at.kept v ≡ integer_of g
        → (o : Arith) (k to : Kind) → promoted k ≡ k → Sets (plain.changed (arithmetic o k to) q v) (of_kind to) at }
{}
