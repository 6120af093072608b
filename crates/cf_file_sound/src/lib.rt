//! The meaning of one file never comes to `Malformed`: what is asked of a file for that, by its own names.
//!
//! `specs/Files` says it (`is_sound_file`): what does not follow from the file being valid and of built forms. The laws below carry it to the program
//! that the file is where it is joined alone. There is no code here: the laws are functions that do nothing.
#![tactic(auto)]

ghost use Rattle.cf_file_sound.specs.Laws.{OneFileIsSound, SoundFiles};

/// The law that a valid file of built forms that is sound is a sound program where it is joined alone. It does nothing.
pub fn files_are_sound()
    ensures { SoundFiles }
{}

/// The law that the meaning of such a file is never malformed: for every input of bytes, heap limit, depth limit and bound of ticks it gives a trace
/// and an end. It does nothing.
pub fn one_file_is_sound()
    ensures { OneFileIsSound }
{}
