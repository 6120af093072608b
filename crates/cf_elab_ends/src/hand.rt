//! The function at hand.

ghost use Rattle.std.specs.Prelude.{◌≡◌, []};
ghost use Rattle.cf_elab.specs.Env.{file_level};
ghost use Rattle.cf_elab_valid_files.specs.File.Ends as ends;

use cf_base::Items;
use cf_elab_env::{Asker, BodyKind, Env, Hand};
use cf_types::TyId;
use std::alloc::Global;

/// Whether what is at hand has no locals, as between the functions of a file. It is taken out to be looked at, and put back.
pub(crate) fn has_no_locals(env: &mut Env) -> bool
    ensures value { result ≡ ends.no_locals env.old.hand.locals }
    ensures kept { env.new ≡ env.old }
{
    env.holds();
    let spare = spare_hand(env.alloc(), env.result());
    let hand = env.replace_hand(spare);
    let found = are_none(hand.locals.as_slice());
    let _spare = env.replace_hand(hand);
    found
}

fn are_none(locals: &[TyId]) -> bool
    ensures { result ≡ ends.no_locals locals.now }
{
    match locals {
        [] => true,
        [_, ..] => false,
    }
}

/// A function without locals, whose result has this type.
fn spare_hand(alloc: Global, ty: TyId) -> Hand
    ensures kind { result.kind ≡ file_level }
    ensures ty { result.result ≡ ty }
    ensures locals { result.locals ≡ [] }
{
    Hand {
        link: Items::new(alloc),
        kind: BodyKind::File,
        asker: Asker {
            name: Items::new(alloc),
            ty: 0,
        },
        result: ty.number(),
        locals: Items::new(alloc),
        literals: 0,
        statics: 0,
        breaks: false,
        continues: false,
    }
}
