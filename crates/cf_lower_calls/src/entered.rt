//! Functions of both programs by the bound of ticks: where the statements of all of them have what they need, given that calls do the same at every bound up to one, calls
//! do the same at every bound. As definitions and laws; nothing here runs.

ghost use Rattle.std.specs.Prelude.{◌≡◌, ◌≤◌, ℕ, suc, [], true};
ghost use Rattle.cf_plain_frames.specs.Simple.{functions_simple};
ghost use Rattle.cf_lower_calls.specs.Returns.Called.{Programs, FunctionsAlike};
ghost use Rattle.cf_lower_calls.specs.Entered.Bodies.{AllFit};
ghost use Rattle.cf_lower_calls.specs.Entered.Lowered.{Fitting, AllLowered, AllHaveNeeds};

/// The law that functions do the same in both, and come back, at the bound behind one up to which their statements have what they need (5.2.2, 6.6.3). It does nothing.
pub fn functions_are_alike_at_the_next_bound()
    ensures { (B : Programs) → B.program.classes ≡ [] → functions_simple B.functions ≡ true → (n : ℕ) → AllFit B n → FunctionsAlike B (suc n) }
{}

/// The law that functions do the same in both at every bound of ticks, where their statements have what they need at each bound up to which functions do the same. It does
/// nothing.
pub fn functions_are_alike()
    ensures { (B : Programs) → B.program.classes ≡ [] → functions_simple B.functions ≡ true
        → ((n : ℕ) → ((k : ℕ) → k ≤ n → FunctionsAlike B k) → AllFit B n) → (n : ℕ) → FunctionsAlike B n }
{}

/// The law on all functions of both programs: where the C is lowered, its names stand for functions and literals, and at each bound of ticks, up to which functions do the
/// same, the statements of each have what they need from where it is entered, functions do the same at every bound. It does nothing.
pub fn functions_of_programs_are_alike()
    ensures { (B : Programs) → Fitting B → AllLowered B → AllHaveNeeds B → (n : ℕ) → FunctionsAlike B n }
{}
