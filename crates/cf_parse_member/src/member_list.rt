//! Declarators of members (9.2).

ghost use Rattle.cf_parse_decl.specs.Reads.{Gives};
ghost use Rattle.cf_parse_member.specs.Members as spec;

use crate::parts::{a_declarator, closed, with_pure};
use cf_base::Items;
use cf_parse_decl::{Grammar, Known};
use cf_parse_expr::words::COMMA;
use cf_parse_expr::{Cursor, Stop};
use cf_parse_simple::Declared;
use cf_unit::{Given, MemberDeclarator};

/// A comma with a declarator behind it.
#[tactic(auto, unfolding(crate::specs::Members::next_declarator))]
fn next_declarator<F>(
    grammar: &Grammar<F>,
    home: usize,
    given: &Given,
    known: &mut Known,
    c: &mut Cursor<'_>,
) -> Result<MemberDeclarator, Stop>
    ensures { Gives (spec.next_declarator grammar.now.depth home given.now known.old c.old) result known.new c.new }
{
    c.word(COMMA)?;
    let declared = a_declarator(grammar, home, given, known, c)?;
    let found = with_pure(declared, c)?;
    Ok(found)
}

/// Declarators behind these, as far as commas go, and the `;`.
fn behind_commas<F>(
    grammar: &Grammar<F>,
    home: usize,
    given: &Given,
    first: Items<MemberDeclarator>,
    known: &mut Known,
    c: &mut Cursor<'_>,
) -> Result<Items<MemberDeclarator>, Stop>
    ensures { Gives (spec.behind_commas grammar.now.depth home given.now (first, known.old) c.old) result known.new c.new }
{
    let mut all = first;
    for _turn in 0..c.len() {
        if c.front() != COMMA {
            return closed(home, all, known, c);
        }
        let left = c.len();
        match next_declarator(grammar, home, given, known, c) {
            Ok(d) => {
                if c.len() >= left {
                    return Err(Stop::Nothing);
                }
                all.push(d)?;
            }
            Err(stop) => return Err(stop),
        }
    }
    closed(home, all, known, c)
}

/// The declarators of a member from this one on, up to the `;`.
#[tactic(auto, unfolding(crate::specs::Members::declarators))]
pub fn declarators<F>(
    grammar: &Grammar<F>,
    home: usize,
    given: &Given,
    declared: Declared,
    known: &mut Known,
    c: &mut Cursor<'_>,
) -> Result<Items<MemberDeclarator>, Stop>
    ensures { Gives (spec.declarators grammar.now.depth home given.now declared known.old c.old) result known.new c.new }
{
    let first = with_pure(declared, c)?;
    let mut all = Items::new(grammar.alloc);
    all.push(first)?;
    behind_commas(grammar, home, given, all, known, c)
}
