//! A law for each test of lowering.
ghost use Rattle.std.specs.Prelude.{◌≡◌, true};
ghost use Rattle.std.specs.List.{list_all};
ghost use Rattle.cf_core.specs.Core.{CoreFile};
ghost use Rattle.cf_core.specs.Valid.{valid_file};
ghost use Rattle.cf_plain.specs.Plain.{PlainFunction};
ghost use Rattle.cf_sequence.specs.Built.{is_built_file};
ghost use Rattle.cf_sequence.specs.Sequenced.{sequenced_file};
ghost use Rattle.cf_lower_kept.specs.Ready.{functions_ready};
ghost use Rattle.cf_lower_program.specs.Actions.{actions_lowered};
ghost use Rattle.cf_lower_program.specs.Counts.{counts_fit, shared_apart};
ghost use Rattle.cf_lower_program.specs.Labels.{switches_fit};
ghost use Rattle.cf_lower_program.specs.Lowerable.{Lowerable, is_none, is_plain};
ghost use Rattle.cf_lower_program.specs.Names.{literals_differ, names_lowered};
ghost use Rattle.cf_lower_program.specs.Passed.{arguments_apart};
ghost use Rattle.cf_lower_program.specs.Starts.{statics_known, texts_fit};
ghost use Rattle.cf_lower_program.specs.Types.{types_lowered};
ghost use Rattle.cf_sequence_lowered.specs.Counts.{all_small, none_shared_and_local};
ghost use Rattle.cf_sequence_lowered.specs.Known.{core_statics_known};
ghost use Rattle.cf_sequence_lowered.specs.Labels.{all_labels_agree};
ghost use Rattle.cf_sequence_lowered.specs.Literals.{core_literals_differ};
ghost use Rattle.cf_sequence_lowered.specs.Lowers.{CoreLowers, Left};
ghost use Rattle.cf_sequence_lowered.specs.Names.{core_names_fit};
ghost use Rattle.cf_sequence_lowered.specs.Operators.{operands_are_promoted};
ghost use Rattle.cf_sequence_lowered.specs.Ready.{core_is_ready};
ghost use Rattle.cf_sequence_lowered.specs.Texts.{literals_fit};
ghost use Rattle.cf_sequence_lowered.specs.Types.{core_types_fit};

/// The law that no class is in the plain file. It does nothing.
pub fn sequenced_files_have_no_classes()
    ensures { (file : CoreFile) → is_built_file file ≡ true → is_none (sequenced_file file).classes ≡ true }
{}

/// The law that each plain function is no member of a class. It does nothing.
pub fn sequenced_functions_are_plain()
    ensures { (file : CoreFile) → is_built_file file ≡ true → list_all (λ (f : PlainFunction). is_plain f.role) (sequenced_file file).functions ≡ true }
{}

/// The law that nothing that files share is local to one, where this is so of the core. It does nothing.
pub fn sequenced_names_are_shared_or_local()
    ensures { (file : CoreFile) → none_shared_and_local file ≡ true → shared_apart (sequenced_file file) ≡ true }
{}

/// The law that the objects of calls' arguments are locals of their own. It does nothing.
pub fn sequenced_arguments_are_apart()
    ensures { (file : CoreFile) → is_built_file file ≡ true → arguments_apart (sequenced_file file) ≡ true }
{}

/// The law that all types are lowered, where those of the core are. It does nothing.
pub fn sequenced_types_are_lowered()
    ensures { (file : CoreFile) → is_built_file file ≡ true → core_types_fit file ≡ true → types_lowered (sequenced_file file) ≡ true }
{}

/// The law that the operators of initialisers are of promoted kinds, where those of the core are. It does nothing.
pub fn sequenced_actions_are_lowered()
    ensures { (file : CoreFile) → is_built_file file ≡ true → operands_are_promoted file ≡ true → actions_lowered (sequenced_file file) ≡ true }
{}

/// The law that literals end in 0 and are not too long, where those of the core are so. It does nothing.
pub fn sequenced_texts_fit()
    ensures { (file : CoreFile) → is_built_file file ≡ true → literals_fit file ≡ true → texts_fit (sequenced_file file) ≡ true }
{}

/// The law that the labels of each switch are of one kind, where those of the core are, in the switch before a switch too. It does nothing.
pub fn sequenced_labels_fit()
    ensures { (file : CoreFile) → is_built_file file ≡ true → all_labels_agree file ≡ true → switches_fit (sequenced_file file) ≡ true }
{}

/// The law that registers, flags and locals have numbers of 64 digits at most, where no function of the core is too large. It does nothing.
pub fn sequenced_counts_fit()
    ensures { (file : CoreFile) → is_built_file file ≡ true → all_small file ≡ true → counts_fit (sequenced_file file) ≡ true }
{}

/// The law that each literal has a name of its own, where this is so in the core. It does nothing.
pub fn sequenced_literals_differ()
    ensures { (file : CoreFile) → is_built_file file ≡ true → core_literals_differ file ≡ true → literals_differ (sequenced_file file) ≡ true }
{}

/// The law that all names are link names and each has one type, where this is so in the core. It does nothing.
pub fn sequenced_names_are_lowered()
    ensures { (file : CoreFile) → is_built_file file ≡ true → core_names_fit file ≡ true → names_lowered (sequenced_file file) ≡ true }
{}

/// The law that what initialisers of static objects do is known before the run, where their values are known of the core. It does nothing.
pub fn sequenced_statics_are_known()
    ensures { (file : CoreFile) → valid_file file ≡ true → is_built_file file ≡ true → core_statics_known file ≡ true → statics_known (sequenced_file file) ≡ true }
{}

/// The law that each action of functions is ready for lowering, by what registers hold before it, where the nodes of the core are ready.
/// It does nothing.
pub fn sequenced_functions_are_ready()
    ensures { (file : CoreFile) → valid_file file ≡ true → is_built_file file ≡ true → core_is_ready file ≡ true → functions_ready (sequenced_file file) ≡ true }
{}

/// The law that a sequenced file is lowered where its core is as these laws ask, but for the tests that no law shows yet. It does nothing.
pub fn sequenced_files_are_lowerable()
    ensures { (file : CoreFile) → valid_file file ≡ true → is_built_file file ≡ true → CoreLowers file → Left (sequenced_file file) → Lowerable (sequenced_file file) }
{}
