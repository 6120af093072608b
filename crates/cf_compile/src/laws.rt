//! The law on what becomes of a file.

ghost use Rattle.cf_compile.specs.Takes.{FilesAreTakenOnce};

use cf_first::files_have_one_answer;

/// The law that a file is taken with one core, or refused by one rule at one place, or by one limit. It does nothing.
pub fn files_are_taken_once()
    ensures { FilesAreTakenOnce }
{
    files_have_one_answer();
}
