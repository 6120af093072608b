//! The C frame that lowering makes of a function: where it is entered its C locals are born one behind another, and each has its block and its name. As definitions and
//! laws; nothing here runs.

ghost use Rattle.std.specs.Prelude.{◌≡◌, ℕ, true, List};
ghost use Rattle.cf_core.specs.Types.{parameters};
ghost use Rattle.cf_core.specs.Run.{State};
ghost use Rattle.cf_plain.specs.Plain.{PlainFunction};
ghost use Rattle.cf_plain.specs.Running.{header};
ghost use Rattle.cc_whole_memory.specs.declared.value.Value.{Value};
ghost use Rattle.cc_whole_memory.specs.Blocks.{Memory};
ghost use Rattle.cc_whole_mean.specs.Flow.{born_arguments, born_locals};
ghost use Rattle.cc_whole_mean.specs.Scope.{bind_parameters, bind_locals};
ghost use Rattle.cf_lower.specs.Functions.{lowered_parameters};
ghost use Rattle.cf_lower_relate.specs.Map.{Map};
ghost use Rattle.cf_lower_calls.specs.Returns.Called.{Programs, fixed, Entry};
ghost use Rattle.cf_lower_calls.specs.Frames.Frame.{Frame, TypesFit};
ghost use Rattle.cf_lower_calls.specs.Born.Laid.{c_locals, own_of, flags_of, is_laid_out};

/// The law that a lowered function has its C frame wherever it is entered: registers, flags, parameters, locals and results each in a block of its own, named as lowering
/// names them, where those names differ and parameters are scalars. It does nothing.
pub fn frames_are_born()
    ensures { (B : Programs) (f : PlainFunction) → is_laid_out B.program.classes f ≡ true → (E : Map) (s : State) (first : Memory) (os : List ℕ) (cs : List Value)
        → Entry B (header f) E s first os cs
        → Frame (fixed B) (own_of f first.next (born_arguments cs first).next) (flags_of f (born_arguments cs first).next)
        (bind_locals (c_locals B.program.classes f) (born_arguments cs first).next (bind_parameters (lowered_parameters 0 (parameters f.type)) first.next B.c_program.names))
        first cs (born_locals (c_locals B.program.classes f) (born_arguments cs first))
        × TypesFit (own_of f first.next (born_arguments cs first).next) (parameters f.type) }
{}
