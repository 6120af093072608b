//! The laws that tell what the answers of a job are by what its file means.

ghost use Rattle.cfront.specs.Meant.{RunsAreMeant, RunsDoAsMeant, UnhinderedFilesRun, UnhinderedWordsRun};

use cc_whole_linked::linking_within_the_limit_has_one_answer;
use cf_compile::files_are_taken_once;

/// The law that what a run says is what its source means: the file means an outcome for each input of bytes, that of the program agrees with it, and a run
/// that no fault ended did what the file means, up to its first act without a meaning. It does nothing.
pub fn runs_do_as_meant()
    ensures means { RunsAreMeant }
    ensures does { RunsDoAsMeant }
{}

/// The law that what is not refused runs: where the file is there and taken, its unit links, and the limits let the program start, an answer that is no fault
/// is that of a run. It does nothing.
pub fn unhindered_files_run()
    ensures files { UnhinderedFilesRun }
    ensures words { UnhinderedWordsRun }
{
    linking_within_the_limit_has_one_answer();
    files_are_taken_once();
}
