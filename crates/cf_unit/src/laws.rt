//! Laws of the grammar of files: functions that do nothing, and whose contracts are the laws.

ghost use Rattle.cf_unit.specs.Answers.{HasAnswer, HasOneAnswer, HasOneFile};

/// Tokens are one thing: a file with its tree, refused at one place, or nested too deep (17).
pub fn one_answer()
    ensures one { HasOneAnswer }
    ensures some { HasAnswer }
{}

/// Tokens have at most one tree as a file, whatever their nesting (17).
pub fn one_file()
    ensures { HasOneFile }
{}
