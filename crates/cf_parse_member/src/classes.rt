//! Classes (9).

ghost use Rattle.std.specs.Prelude.{◌≡◌, IfOk};
ghost use Rattle.cf_parse_decl.specs.Nests.{Nests};
ghost use Rattle.cf_parse_decl.specs.Reads.{Gives};
ghost use Rattle.cf_parse_member.specs.Classes as spec;
ghost use Rattle.cf_unit.specs.Files.{inner, by_tree};
ghost use Rattle.cf_unit.specs.Members as rule;
ghost use Rattle.cf_unit.specs.Read.{reading};

use crate::heads::{Head, class_head};
use crate::list::members_by;
use cf_base::{Boxed, Items, Memory};
use cf_parse_decl::{Grammar, Known, Node, Wanted};
use cf_parse_expr::{Cursor, Stop};
use cf_syntax::NameKind;
use cf_unit::{ClassDef, Member};
use std::alloc::Global;
use std::mem::replace;

/// The class of this head with these members, and what its name stands for.
fn class_of(
    alloc: Global,
    head: Head,
    members: Items<Member>,
) -> Result<(Boxed<ClassDef>, NameKind), Memory>
    ensures { IfOk result (λ x. x ≡ spec.class_of head members) }
{
    let Head {
        at,
        key,
        name,
        bases,
        class,
    } = head;
    let found = ClassDef {
        at,
        key,
        name,
        bases,
        members,
    };
    Ok((Boxed::new(alloc, found)?, NameKind::OfClass(class)))
}

/// A class whose members stand in a scope behind so many open ones, up to its `}`.
#[tactic(auto, unfolding(crate::specs::Classes::class_behind))]
fn class_behind<F: Fn(Global, usize, Wanted, &mut Known, &mut Cursor<'_>) -> Result<Node, Stop>>(
    grammar: &Grammar<F>,
    home: usize,
    head: Head,
    known: &mut Known,
    c: &mut Cursor<'_>,
) -> Result<(Boxed<ClassDef>, NameKind), Stop>
    requires { Nests grammar.now.depth (F.pre grammar.now.inside) (F.post grammar.now.inside) }
    ensures { Gives (spec.class_behind grammar.now.depth home head known.old c.old) result known.new c.new }
{
    let members = members_by(grammar, home, known, c)?;
    Ok(class_of(grammar.alloc, head, members)?)
}

/// A class, step by step.
#[tactic(auto, unfolding(crate::specs::Classes::class))]
fn class_read<F: Fn(Global, usize, Wanted, &mut Known, &mut Cursor<'_>) -> Result<Node, Stop>>(
    grammar: &Grammar<F>,
    known: &mut Known,
    c: &mut Cursor<'_>,
) -> Result<(Boxed<ClassDef>, NameKind), Stop>
    requires { Nests grammar.now.depth (F.pre grammar.now.inside) (F.post grammar.now.inside) }
    ensures { Gives (spec.class grammar.now.depth known.old c.old) result known.new c.new }
{
    let home = known.open_scopes();
    let own = replace(&mut known.own, None);
    let found = class_head(grammar.alloc, known, c)?;
    let class = class_behind(grammar, home, found, known, c)?;
    known.own = own;
    Ok(class)
}

/// A class that is defined (9), and what its name stands for. Its name is entered before its bases are read, and it is defined from its `{` on. In a class
/// that stands in no other, bodies are read with the names that are known at its end (9.3.2).
pub fn class<F: Fn(Global, usize, Wanted, &mut Known, &mut Cursor<'_>) -> Result<Node, Stop>>(
    grammar: &Grammar<F>,
    known: &mut Known,
    c: &mut Cursor<'_>,
) -> Result<(Boxed<ClassDef>, NameKind), Stop>
    requires { Nests grammar.now.depth (F.pre grammar.now.inside) (F.post grammar.now.inside) }
    ensures { Gives (reading (rule.class (inner by_tree grammar.now.depth) known.old) c.old) result known.new c.new }
{
    class_read(grammar, known, c)
}
