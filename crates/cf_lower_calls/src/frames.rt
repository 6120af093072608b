//! The C frame of a function: where its blocks are born all stands as between two statements, and where they end the function has come back. As definitions and laws;
//! nothing here runs.

ghost use Rattle.std.specs.Prelude.{◌≡◌, ℕ, ◌≤◌, List, Option, slice_get};
ghost use Rattle.cf_core.specs.Types.{parameters};
ghost use Rattle.cf_core.specs.Core.{Function};
ghost use Rattle.cf_core.specs.Store as source;
ghost use Rattle.cf_core.specs.Run.{State};
ghost use Rattle.cf_lower_layout.specs.Sorts.{Sort};
ghost use Rattle.cf_plain.specs.Acts.{no_registers};
ghost use Rattle.cc_whole_memory.specs.declared.value.Value.{Value};
ghost use Rattle.cc_whole_memory.specs.Blocks.{Memory};
ghost use Rattle.cc_whole_mean.specs.Flow as c;
ghost use Rattle.cc_whole_mean.specs.Flow.{ending};
ghost use Rattle.cc_whole_mean.specs.Scope.{Scope};
ghost use Rattle.cf_lower.specs.Kept.{nothing_kept};
ghost use Rattle.cf_lower_relate.specs.Map.{Fixed, Map};
ghost use Rattle.cf_lower_steps.specs.Own.{Own};
ghost use Rattle.cf_lower_turns.specs.Flags.{Flags};
ghost use Rattle.cf_lower_turns.specs.Here.{Here};
ghost use Rattle.cf_lower_turns.specs.Texts.{Texts, TextsLaid};
ghost use Rattle.cf_lower_turns.specs.Scene.{GivesBack};
ghost use Rattle.cf_lower_calls.specs.Returns.Called.{Programs, fixed, Entry, CameBack};
ghost use Rattle.cf_lower_calls.specs.Frames.Frame.{body_of, Frame, TypesFit, AllOver, OthersStay};

/// The law that where a function is entered, and the blocks of its C frame have been born, all stands as between two statements: no register is set, and no flag in
/// use. It does nothing.
pub fn functions_begin()
    ensures { (B : Programs) (f : Function) (E : Map) (s : State) (first : Memory) (os : List ℕ) (cs : List Value) → Entry B f E s first os cs → (own : Own)
        (flags : Flags) (scope : Scope) (t : c.State) → Frame (fixed B) own flags scope first cs t.memory → TypesFit own (parameters f.type)
        → ((i : ℕ) → s.frame.locals i ≡ slice_get os i) → Here (fixed B) (body_of own flags scope B.texts E first) nothing_kept 0 no_registers s t }
{}

/// The law that a function has come back that returns where no object of its own stands, once the blocks of its C locals have ended: what stands is in blocks of
/// before. It does nothing.
pub fn functions_end()
    ensures { (K : Fixed) (own : Own) (flags : Flags) (scope : Scope) (texts : Texts) (E : Map) (first : Memory) (result : Option Sort) (v : source.Value) (s : State)
        (flow : c.Flow) (back : GivesBack K (body_of own flags scope texts E first) result v s flow) → AllOver own s → (before : State) (os : List ℕ)
        → OthersStay os before s → (k b : ℕ) → first.next ≤ b → TextsLaid K texts first.next → CameBack K texts E first before os result v s (ending k b flow) }
{}
