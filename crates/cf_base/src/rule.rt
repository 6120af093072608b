ghost use Rattle.std.specs.Prelude.{◌≡◌, ℕ, ◌≤◌, ◌-◌, ◌<◌, get_or, length, map, []};
ghost use Rattle.cf_base.specs.Rule.{sections, texts};

use std::marker::Model;

/// One of the 48 rules that a refused file breaks, which contracts see as its number, from 1.
#[derive(Clone, Copy, Debug, PartialEq, Eq)]
pub struct Rule {
    number: u8,
}

impl Model for Rule {
    ghost Value = { ℕ };

    ghost view = { λ r. r.number };

    ghost invariant = { λ r. (1 ≤ r.number) × (r.number ≤ 48) };

    ghost inverse = { λ n. record { number = n } };
}

impl Rule {
    /// The rule of this number.
    pub fn new(number: u8) -> Rule
        requires from_one { 1 ≤ number }
        requires to_last { number ≤ 48 }
        ensures { result ≡ number }
    {
        Rule { number }
    }

    /// From 1 to 48.
    pub fn number(&self) -> u8
        ensures same { result ≡ self.now }
        ensures from_one { 1 ≤ result }
        ensures to_last { result ≤ 48 }
    {
        self.number
    }

    /// The section of the manual that the rule is about, and `none` where it is the profile's own.
    pub fn section(&self) -> &'static str
        ensures { result.now ≡ get_or sections (self.now - 1) [] }
    {
        row(&SECTIONS, usize::from(self.number - 1))
    }

    /// Why a file is refused.
    pub fn text(&self) -> &'static str
        ensures { result.now ≡ get_or texts (self.now - 1) [] }
    {
        row(&TEXTS, usize::from(self.number - 1))
    }
}

/// A broken rule, and the byte place where it is broken.
#[derive(Clone, Copy, Debug, PartialEq, Eq)]
pub struct Broken {
    pub rule: Rule,
    pub at: u32,
}

/// The text at an index of a table.
#[tactic(auto, using(crate::proofs::Tables::text_at))]
fn row(table: &[&'static str], index: usize) -> &'static str
    requires { index < length table.now }
    ensures { result.now ≡ get_or (map (λ text. text.now) table.now) index [] }
{
    table[index]
}

const SECTIONS: [&str; 48] = [
    "2.1", "2.2", "2.3", "2.4", "2.5", "17", "16", "3.1", "3.3", "3.2", "3.4", "3.7", "4", "4.6",
    "5.2.2", "5.2.4", "5.4", "5", "5.19", "6.4.2", "6.6", "6.6.3", "6.7", "7.1", "7.2", "8.2",
    "8.2.6", "8.4", "8.4.3", "9.1", "9.3.1", "9.4", "10.1", "10.1.1", "10.2", "10.2", "10.3", "11",
    "11.5", "12.1", "12.3", "12.4", "12.6.2", "12.8", "13.1", "13.2", "13.4", "none",
];

const TEXTS: [&str; 48] = [
    "stray byte",
    "comment without end",
    "identifier with __ or over 255 bytes",
    "keyword outside the profile",
    "bad or too large constant",
    "tokens not in the grammar",
    "directive",
    "declared twice",
    "linkage differs from an earlier declaration",
    "undeclared name",
    "use or form of main",
    "not a modifiable lvalue",
    "no conversion",
    "base conversion ambiguous or inaccessible",
    "wrong number of arguments",
    "no such member",
    "cast outside the profile",
    "operand types",
    "not a constant",
    "case label twice or misplaced",
    "break or continue outside",
    "return value",
    "passes an initialised declaration",
    "specifiers conflict",
    "integer to enumeration",
    "declarator",
    "default argument",
    "initialiser",
    "reference to a temporary",
    "incomplete class",
    "const",
    "nonstatic member without an object",
    "direct base twice",
    "ambiguous",
    "return type of an override",
    "no single final overrider",
    "abstract object",
    "access",
    "protected",
    "constructor missing or of bad form",
    "user conversion ambiguous",
    "destructor form",
    "initialiser names no direct base, virtual base or member",
    "no generated copy",
    "same parameters declared again",
    "no match or a tie",
    "operator form",
    "outside the profile",
];
