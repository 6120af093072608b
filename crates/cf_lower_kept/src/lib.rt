//! What the registers of plain statements hold, as plain statements define it and as lowering does: the first gives the second, where plain functions keep
//! what lowering asks of them besides. As definitions and laws; nothing here runs.
#![tactic(auto)]

ghost use Rattle.std.specs.Prelude.{◌≡◌, true};
ghost use Rattle.cf_core.specs.Types.{SourceType};
ghost use Rattle.cf_plain.specs.Plain.{Register, Action, Plain, Plains};
ghost use Rattle.cf_plain_kept.specs.Kept as plain;
ghost use Rattle.cf_lower.specs.Kept.{unknown, Keeping, Locals, kept_by, all_set, after, after_all};
ghost use Rattle.cf_lower_kept.specs.Ready.{action_ready, ready, all_ready};
ghost use Rattle.cf_lower_kept.specs.Told.{ToldIf, AllTold, AllToldIf, AllJoin, TellsLess, none_builds};

/// The law that what plain statements tell of their registers lowering tells too: of what an action gives, and of all registers behind a statement and behind
/// several. It does nothing.
pub fn registers_are_told()
    ensures actions { (locals : Locals) (result : SourceType) (g : plain.Keeping) (h : Keeping) → AllTold locals g h → (a : Action)
        → action_ready locals.types result g a ≡ true → ToldIf locals (plain.kept_by locals.types result g a) (kept_by locals h a) }
    ensures statements { (locals : Locals) (result : SourceType) (s : Plain) (g : plain.Keeping) (h : Keeping) → AllTold locals g h
        → ready locals.types result s g ≡ true → AllToldIf locals (plain.after locals.types result s g) (after locals s h) }
    ensures lists { (locals : Locals) (result : SourceType) (ss : Plains) (g : plain.Keeping) (h : Keeping) → AllTold locals g h
        → all_ready locals.types result ss g ≡ true → AllToldIf locals (plain.after_all locals.types result ss g) (after_all locals ss h) }
{}

/// The law that at the end of a turn registers hold what is told of them at its begin, where what the turn sets is not told of. It does nothing.
pub fn turns_keep_registers()
    ensures joins { (locals : Locals) (ss : Plains) (g : Keeping) → AllJoin g → AllJoin (after_all locals ss g) }
    ensures kept { (locals : Locals) (ss : Plains) (g : Keeping) → AllJoin g → none_builds ss ≡ true → ((r : Register) → all_set locals r ss ≡ true → g r ≡ unknown)
        → TellsLess (after_all locals ss g) g }
{}
