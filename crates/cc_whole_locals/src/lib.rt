//! The names and blocks of a C function's parameters and locals: which block a name stands for, what the blocks are when they are born, and what is left when they
//! have ended. As definitions and laws; nothing here runs.
#![tactic(auto)]

ghost use Rattle.std.specs.Prelude.{◌≡◌, ℕ, ◌+◌, ◌<◌, ◌≤◌, true, false, List, length, Some, None, slice_get};
ghost use Rattle.cc_whole.specs.declared.statement.CLocal.{CLocal};
ghost use Rattle.cc_whole.specs.declared.unit.CParameter.{CParameter};
ghost use Rattle.cc_whole_memory.specs.declared.store.Storage.TheVariants as storage;
ghost use Rattle.cc_whole_memory.specs.declared.value.Value.{Value};
ghost use Rattle.cc_whole_memory.specs.Blocks.{Memory, new_block};
ghost use Rattle.cc_whole_mean.specs.declared.named.Named.TheVariants.{Variable as variable};
ghost use Rattle.cc_whole_mean.specs.declared.named.Shape.TheVariants.{Single as single};
ghost use Rattle.cc_whole_mean.specs.Flow.{born_locals, born_arguments, ended_from};
ghost use Rattle.cc_whole_mean.specs.Scope.{Scope, bind_locals, bind_parameters};
ghost use Rattle.cc_whole_mean.specs.Types.{scalar_of, local_shape, local_size};
ghost use Rattle.cc_whole_locals.specs.Names.{is_local, is_parameter, locals_differ, parameters_differ};
ghost use Rattle.cc_whole_locals.specs.Held.{holding};

/// The law that where no name stands twice each stands for a block of its own, in their order, and other names for what they stood for. It does nothing.
pub fn names_are_bound()
    ensures locals { (xs : List CLocal) (b : ℕ) (scope : Scope) → locals_differ xs ≡ true → (i : ℕ) (x : CLocal) → slice_get xs i ≡ Some x
        → bind_locals xs b scope x.name ≡ Some (variable (b + i) (local_shape x.ty)) }
    ensures parameters { (xs : List CParameter) (b : ℕ) (scope : Scope) → parameters_differ xs ≡ true → (i : ℕ) (x : CParameter) → slice_get xs i ≡ Some x
        → bind_parameters xs b scope x.name ≡ Some (variable (b + i) (single (scalar_of x.ty))) }
    ensures other_than_locals { (xs : List CLocal) (b : ℕ) (scope : Scope) (name : List ℕ) → is_local name xs ≡ false → bind_locals xs b scope name ≡ scope name }
    ensures other_than_parameters { (xs : List CParameter) (b : ℕ) (scope : Scope) (name : List ℕ) → is_parameter name xs ≡ false
        → bind_parameters xs b scope name ≡ scope name }
{}

/// The law that the blocks of locals have no values and those of parameters their arguments, and that the blocks of before stay. It does nothing.
pub fn blocks_are_born()
    ensures locals { (xs : List CLocal) (m : Memory) (i : ℕ) (x : CLocal) → slice_get xs i ≡ Some x
        → (born_locals xs m).block (m.next + i) ≡ Some (new_block storage.Local (local_size x.ty)) }
    ensures locals_next { (xs : List CLocal) (m : Memory) → (born_locals xs m).next ≡ m.next + length xs }
    ensures locals_below { (xs : List CLocal) (m : Memory) (b : ℕ) → b < m.next → (born_locals xs m).block b ≡ m.block b }
    ensures arguments { (vs : List Value) (m : Memory) (i : ℕ) (v : Value) → slice_get vs i ≡ Some v → (born_arguments vs m).block (m.next + i) ≡ Some (holding v) }
    ensures arguments_next { (vs : List Value) (m : Memory) → (born_arguments vs m).next ≡ m.next + length vs }
    ensures arguments_below { (vs : List Value) (m : Memory) (b : ℕ) → b < m.next → (born_arguments vs m).block b ≡ m.block b }
{}

/// The law that nothing is left of blocks that have ended, and that the others stay. It does nothing.
pub fn blocks_end()
    ensures gone { (k b : ℕ) (m : Memory) (i : ℕ) → i < k → (ended_from k b m).block (b + i) ≡ None }
    ensures next { (k b : ℕ) (m : Memory) → (ended_from k b m).next ≡ m.next }
    ensures below { (k b : ℕ) (m : Memory) (c : ℕ) → c < b → (ended_from k b m).block c ≡ m.block c }
    ensures above { (k b : ℕ) (m : Memory) (c : ℕ) → b + k ≤ c → (ended_from k b m).block c ≡ m.block c }
{}
