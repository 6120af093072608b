//! Declarators behind their specifiers (8).

ghost use Rattle.std.specs.Prelude.{◌≡◌, ◌++◌, IfSome, OnOk};
ghost use Rattle.cf_elab_declaration.specs.Declarations.Shut as shut;
ghost use Rattle.cf_elab_declaration.specs.Declarators.DefineReached.{maybe_reached};
ghost use Rattle.cf_elab_env.specs.Answered.{Agrees, AgreesAs};
ghost use Rattle.cf_elab_env.specs.Holds.{Grows, IsType};

use crate::declarations::built;
use crate::declarators::{check_conflict, named_declarator};
use crate::enums::{declared_name, shape_of};
use cf_base::{Broken, Items, Memory, Rule};
use cf_elab_env::{Env, Stop};
use cf_elab_limits::check_types;
use cf_elab_made::Reached;
use cf_elab_specifiers::Gathered;
use cf_unit::InitDeclarator;

/// What is declared behind specifiers at this byte place: each declarator in order; where there is none the specifiers do not conflict, K24.
#[tactic(auto, using(crate::proofs::DeclarationsLaws::DeclaratorRows::all_laws))]
pub(crate) fn behind_specifiers(
    declarators: &[InitDeclarator],
    at: u32,
    gathered: &Gathered,
    env: &mut Env,
) -> Result<Items<Reached>, Stop>
    requires built { shut.DeclaratorsAreBuilt declarators.now }
    requires named { IfSome gathered.now.named (λ t. IsType env.old.types t) }
    ensures made { Agrees (shut.behind_specifiers at gathered.now declarators.now env.old) result env.new }
    ensures grows { OnOk result (Grows env.old.types env.new.types) }
{
    if declarators.is_empty() {
        let in_file = env.is_file_scope();
        check_conflict(env, in_file, false, at, gathered)?;
        Ok(Items::new(env.alloc()))
    } else {
        let reached = each(declarators, gathered, env)?;
        Ok(reached)
    }
}

/// Declarators in order, each within the limit on sizes before the next: the statements that they make.
fn each(
    declarators: &[InitDeclarator],
    gathered: &Gathered,
    env: &mut Env,
) -> Result<Items<Reached>, Stop>
    requires built { shut.DeclaratorsAreBuilt declarators.now }
    requires named { IfSome gathered.now.named (λ t. IsType env.old.types t) }
    ensures made { Agrees (shut.declarators gathered.now declarators.now env.old) result env.new }
    ensures grows { OnOk result (Grows env.old.types env.new.types) }
{
    let mut found = Items::new(env.alloc());
    for d in declarators {
        let reached = limited(d, gathered, env)?;
        add(&mut found, reached)?;
    }
    Ok(found)
}

/// One more statement, if there is one.
fn add(found: &mut Items<Reached>, reached: Option<Reached>) -> Result<(), Memory>
    ensures { OnOk result (found.new ≡ found.old ++ maybe_reached reached) }
{
    match reached {
        None => Ok(()),
        Some(reached) => found.push(reached),
    }
}

/// A declarator with its initialiser, which makes no type that is larger than the limit on sizes.
#[tactic(auto, using(crate::proofs::DeclarationsLaws::DeclaratorRows::limited_laws))]
fn limited(d: &InitDeclarator, gathered: &Gathered, env: &mut Env) -> Result<Option<Reached>, Stop>
    requires built { shut.DeclaratorIsBuilt d.now }
    requires named { IfSome gathered.now.named (λ t. IsType env.old.types t) }
    ensures made { AgreesAs maybe_reached (shut.limited gathered.now d.now env.old) result env.new }
    ensures grows { OnOk result (Grows env.old.types env.new.types) }
{
    let count = env.types().count();
    let reached = declarator(d, gathered, env)?;
    check_types(env, count)?;
    Ok(reached)
}

/// A declarator with its initialiser: the statement that it makes, if it makes one; K26 where it declares no name.
#[tactic(auto, using(crate::proofs::DeclarationsLaws::DeclaratorRows::declarator_laws))]
fn declarator(
    d: &InitDeclarator,
    gathered: &Gathered,
    env: &mut Env,
) -> Result<Option<Reached>, Stop>
    requires built { shut.DeclaratorIsBuilt d.now }
    requires named { IfSome gathered.now.named (λ t. IsType env.old.types t) }
    ensures made { AgreesAs maybe_reached (shut.declarator gathered.now d.now env.old) result env.new }
    ensures grows { OnOk result (Grows env.old.types env.new.types) }
{
    built::declarator(d);
    let tree = d.declarator.get();
    let shape = shape_of(tree, env)?;
    match declared_name(tree) {
        None => Err(Stop::Broken(Broken {
            rule: Rule::new(26),
            at: d.at,
        })),
        Some(name) => {
            let reached = named_declarator(&d.initialiser, name, &shape, gathered, d.at, env)?;
            Ok(reached)
        }
    }
}
