//! Members of classes (9.2, 11.1).

ghost use Rattle.std.specs.Prelude.{◌≡◌, IfOk};
ghost use Rattle.cf_parse_decl.specs.Nests.{Nests};
ghost use Rattle.cf_parse_decl.specs.Reads.{Gives};
ghost use Rattle.cf_parse_member.specs.Members as spec;
ghost use Rattle.cf_unit.specs.Files.{inner, by_tree};
ghost use Rattle.cf_unit.specs.Members as rule;
ghost use Rattle.cf_unit.specs.Read.{reading};

use crate::function::{begins_body, defined_read};
use crate::member_list::declarators;
use crate::parts::{a_declarator, maybe_semicolon, some_specifiers};
use cf_base::{Boxed, Items, Memory};
use cf_parse_class::access_word;
use cf_parse_decl::{Grammar, Known, Node, Wanted};
use cf_parse_expr::words::{ACCESS, COLON, SEMICOLON, begins};
use cf_parse_expr::{Cursor, Stop};
use cf_parse_simple::Declared;
use cf_unit::{Given, Member, MemberDeclarator};
use std::alloc::Global;

/// A declaration of these declarators.
fn declaration(
    alloc: Global,
    at: u32,
    given: Given,
    all: Items<MemberDeclarator>,
) -> Result<Boxed<Member>, Memory>
    ensures { IfOk result (λ m. m ≡ spec.declaration_of at given all) }
{
    Ok(Boxed::new(alloc, Member::Declaration(at, given.list, all))?)
}

/// A declaration behind its first declarator.
#[tactic(auto, unfolding(crate::specs::Members::member_declared))]
fn member_declared<F>(
    grammar: &Grammar<F>,
    home: usize,
    at: u32,
    given: Given,
    declared: Declared,
    known: &mut Known,
    c: &mut Cursor<'_>,
) -> Result<Boxed<Member>, Stop>
    ensures { Gives (spec.member_declared grammar.now.depth home at given declared known.old c.old) result known.new c.new }
{
    let all = declarators(grammar, home, &given, declared, known, c)?;
    Ok(declaration(grammar.alloc, at, given, all)?)
}

/// A function behind its declarator. A `;` directly behind its block belongs to it.
#[tactic(auto, unfolding(crate::specs::Members::member_function))]
fn member_function<F: Fn(Global, usize, Wanted, &mut Known, &mut Cursor<'_>) -> Result<Node, Stop>>(
    grammar: &Grammar<F>,
    home: usize,
    at: u32,
    given: Given,
    declared: Declared,
    known: &mut Known,
    c: &mut Cursor<'_>,
) -> Result<Boxed<Member>, Stop>
    requires { Nests grammar.now.depth (F.pre grammar.now.inside) (F.post grammar.now.inside) }
    ensures { Gives (spec.member_function grammar.now.depth home at given declared known.old c.old) result known.new c.new }
{
    let found = defined_read(grammar, home, at, given, declared, known, c)?;
    maybe_semicolon(c)?;
    Ok(Boxed::new(grammar.alloc, Member::Function(found))?)
}

/// A member behind its first declarator.
#[tactic(auto, unfolding(crate::specs::Members::member_behind))]
fn member_behind<F: Fn(Global, usize, Wanted, &mut Known, &mut Cursor<'_>) -> Result<Node, Stop>>(
    grammar: &Grammar<F>,
    home: usize,
    at: u32,
    given: Given,
    declared: Declared,
    known: &mut Known,
    c: &mut Cursor<'_>,
) -> Result<Boxed<Member>, Stop>
    requires { Nests grammar.now.depth (F.pre grammar.now.inside) (F.post grammar.now.inside) }
    ensures { Gives (spec.member_behind grammar.now.depth home at given declared known.old c.old) result known.new c.new }
{
    if begins_body(c) {
        return member_function(grammar, home, at, given, declared, known, c);
    }
    member_declared(grammar, home, at, given, declared, known, c)
}

/// A member behind its specifiers.
#[tactic(auto, unfolding(crate::specs::Members::member_specified))]
fn member_specified<
    F: Fn(Global, usize, Wanted, &mut Known, &mut Cursor<'_>) -> Result<Node, Stop>,
>(
    grammar: &Grammar<F>,
    home: usize,
    at: u32,
    given: Given,
    known: &mut Known,
    c: &mut Cursor<'_>,
) -> Result<Boxed<Member>, Stop>
    requires { Nests grammar.now.depth (F.pre grammar.now.inside) (F.post grammar.now.inside) }
    ensures { Gives (spec.member_specified grammar.now.depth home at given known.old c.old) result known.new c.new }
{
    if c.front() == SEMICOLON {
        c.word(SEMICOLON)?;
        let none = Items::new(grammar.alloc);
        return Ok(declaration(grammar.alloc, at, given, none)?);
    }
    let declared = a_declarator(grammar, home, &given, known, c)?;
    member_behind(grammar, home, at, given, declared, known, c)
}

/// A word of access and its colon (11.1).
#[tactic(auto, unfolding(crate::specs::Members::access_label))]
fn access_label(alloc: Global, known: &Known, c: &mut Cursor<'_>) -> Result<Boxed<Member>, Stop>
    ensures { Gives (spec.access_label known.now c.old) result known.now c.new }
{
    let (at, access) = access_word(c)?;
    c.word(COLON)?;
    Ok(Boxed::new(alloc, Member::Access(at, access))?)
}

/// A member, step by step.
#[tactic(auto, unfolding(crate::specs::Members::one_member))]
pub fn member_read<F: Fn(Global, usize, Wanted, &mut Known, &mut Cursor<'_>) -> Result<Node, Stop>>(
    grammar: &Grammar<F>,
    known: &mut Known,
    c: &mut Cursor<'_>,
) -> Result<Boxed<Member>, Stop>
    requires { Nests grammar.now.depth (F.pre grammar.now.inside) (F.post grammar.now.inside) }
    ensures { Gives (spec.one_member grammar.now.depth known.old c.old) result known.new c.new }
{
    if begins(&ACCESS, c) {
        return access_label(grammar.alloc, known, c);
    }
    let at = c.place();
    let home = known.open_scopes();
    let given = some_specifiers(grammar, known, c)?;
    member_specified(grammar, home, at, given, known, c)
}

/// A member of a class (9.2), or a word of access with its colon (11.1).
pub fn one_member<F: Fn(Global, usize, Wanted, &mut Known, &mut Cursor<'_>) -> Result<Node, Stop>>(
    grammar: &Grammar<F>,
    known: &mut Known,
    c: &mut Cursor<'_>,
) -> Result<Boxed<Member>, Stop>
    requires { Nests grammar.now.depth (F.pre grammar.now.inside) (F.post grammar.now.inside) }
    ensures { Gives (reading (rule.one_member (inner by_tree grammar.now.depth) known.old) c.old) result known.new c.new }
{
    member_read(grammar, known, c)
}
