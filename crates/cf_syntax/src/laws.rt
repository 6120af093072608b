//! Laws of the grammar: functions that do nothing, and whose contracts are the laws.

ghost use Rattle.cf_syntax.specs.NamesData.{Names};
ghost use Rattle.cf_syntax.specs.Grammar.{SpellsCommas, SpellsAssign, SpellsCondition, SpellsDeclarator, SpellsParams, SpellsTypeId};
ghost use Rattle.cf_syntax.specs.Longest.{HasOneLongest, HasOneTree};

/// From each token on at most one longest phrase of an expression begins, and it has one tree (5).
pub fn one_longest_expression()
    ensures commas { (names : Names) → HasOneLongest (SpellsCommas names) }
    ensures assign { (names : Names) → HasOneLongest (SpellsAssign names) }
    ensures condition { (names : Names) → HasOneLongest (SpellsCondition names) }
{}

/// From each token on at most one longest phrase of a declarator, of parameters and of a type in brackets
/// begins, and it has one tree (8).
pub fn one_longest_declarator()
    ensures declarator { (names : Names) → HasOneLongest (SpellsDeclarator names) }
    ensures params { (names : Names) → HasOneLongest (SpellsParams names) }
    ensures type_id { (names : Names) → HasOneLongest (SpellsTypeId names) }
{}

/// Tokens that spell an expression as a whole have one tree (5).
pub fn one_tree()
    ensures { (names : Names) → HasOneTree (SpellsCommas names) }
{}
