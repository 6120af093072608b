//! Specifiers, as many as can be taken (7.1).

ghost use Rattle.std.specs.Prelude.{◌≡◌, Some, IfOk};
ghost use Rattle.cf_parse_decl.specs.Insides.{insides};
ghost use Rattle.cf_parse_decl.specs.Nests.{Nests};
ghost use Rattle.cf_parse_decl.specs.Reads.{Gives};
ghost use Rattle.cf_parse_simple.specs.Specifiers as spec;
ghost use Rattle.cf_unit.specs.Declarations as rule;
ghost use Rattle.cf_unit.specs.Enters.{nothing_given};
ghost use Rattle.cf_unit.specs.Files.{inner, by_tree};
ghost use Rattle.cf_unit.specs.Read.{reading};

use crate::given::one_given;
use cf_base::{Items, Memory};
use cf_parse_decl::{Grammar, Known, Node, Wanted};
use cf_parse_expr::{Cursor, Stop};
use cf_unit::Given;
use std::alloc::Global;

/// No specifiers yet.
fn none_yet(alloc: Global) -> Given
    ensures { result ≡ nothing_given }
{
    Given {
        list: Items::new(alloc),
        kind: None,
        is_typedef: false,
        is_friend: false,
    }
}

/// Specifiers, step by step.
pub(crate) fn all_given<
    F: Fn(Global, usize, Wanted, &mut Known, &mut Cursor<'_>) -> Result<Node, Stop>,
>(grammar: &Grammar<F>, known: &mut Known, c: &mut Cursor<'_>) -> Result<Given, Memory>
    requires { Nests grammar.now.depth (F.pre grammar.now.inside) (F.post grammar.now.inside) }
    ensures { IfOk result (λ given. spec.specifiers (insides grammar.now.depth) known.old c.old ≡ Some ((given, known.new), c.new)) }
{
    let mut given = none_yet(grammar.alloc);
    for _turn in 0..c.len() {
        if !one_given(grammar, &mut given, known, c)? {
            return Ok(given);
        }
    }
    Ok(given)
}

/// Specifiers, as many as can be taken (7.1). Behind a definition that can't be read, what is known and the cursor are as before it.
#[tactic(auto, using(crate::proofs::Specifying::specifiers_read))]
pub fn specifiers<F: Fn(Global, usize, Wanted, &mut Known, &mut Cursor<'_>) -> Result<Node, Stop>>(
    grammar: &Grammar<F>,
    known: &mut Known,
    c: &mut Cursor<'_>,
) -> Result<Given, Stop>
    requires { Nests grammar.now.depth (F.pre grammar.now.inside) (F.post grammar.now.inside) }
    ensures { Gives (reading (rule.specifiers (inner by_tree grammar.now.depth) known.old) c.old) result known.new c.new }
{
    Ok(all_given(grammar, known, c)?)
}
