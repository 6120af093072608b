//! What it tells that a first line is read.

ghost use Rattle.std.specs.Prelude.{◌≡◌, ℕ, List, ◌++◌, Ok};
ghost use Rattle.cc_whole.specs.Text.{FirstLine};
ghost use Rattle.cc_whole_first_line.specs.FirstLine.{first_line, Begins};

/// The law that reading finds the first lines that a text may begin with, and nothing else. It does nothing.
pub fn first_lines_are_found()
    ensures read { (version : ℕ) (line rest : List ℕ) → FirstLine version line → first_line (line ++ rest) ≡ Ok (version, rest) }
    ensures found { (text rest : List ℕ) (version : ℕ) → first_line text ≡ Ok (version, rest) → Begins text version rest }
{}
