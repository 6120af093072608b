ghost use Rattle.std.specs.Prelude.{◌≡◌, ◌+◌, length, slice_get, IfOk, if◌then◌else◌};
ghost use Rattle.std.specs.Option.{option_copied};
ghost use Rattle.cf_elab.specs.Lists as lists;
ghost use Rattle.cf_elab_env.specs.Holds.{IsType};
ghost use Rattle.cf_elab_initial.specs.Lists.Fronts as front;
ghost use Rattle.cf_elab_initial.specs.Lists.Seen.{tree_seen, trees_seen};
ghost use Rattle.cf_elab_initial.specs.Lists.Shut as shut;

use crate::lists::form::{Form, Row, form_of, is_char};
use crate::lists::front::{Front, front_by, lesser};
use crate::lists::tree::Tree;
use cf_base::{Bytes, Memory};
use cf_elab_env::Env;
use cf_types::TyId;

/// How many elements of the type an initialiser gives an array whose bound is left out (8.2.4).
#[tactic(auto, using(crate::proofs::ListsLaws::CountLaws::count_laws))]
pub fn count_in(env: &Env, element: TyId, tree: &Tree) -> Result<u32, Memory>
    requires { IsType env.now.types element }
    ensures { IfOk result (λ n. n ≡ shut.count_in env.now.types element (tree_seen tree.now)) }
{
    match tree {
        Tree::Leaf { .. } => Ok(1),
        Tree::Text { bytes, .. } => {
            let count = text_count(is_char(env, element), bytes)?;
            Ok(count)
        }
        Tree::Branch { trees, .. } => {
            let count = list_count(env, element, trees.as_slice())?;
            Ok(count)
        }
    }
}

/// The characters of a literal with the zero behind them, or one element.
fn text_count(is_char: bool, bytes: &Bytes) -> Result<u32, Memory>
    ensures { IfOk result (λ n. n ≡ (if is_char then length bytes.now + 1 else 1)) }
{
    if is_char {
        narrowed(bytes.len())?.checked_add(1).ok_or(Memory)
    } else {
        Ok(1)
    }
}

fn narrowed(count: usize) -> Result<u32, Memory>
    ensures { IfOk result (λ n. n ≡ count) }
{
    u32::try_from(count).map_err(|_| Memory)
}

/// How many elements initialisers in braces give: of a literal alone as the literal, and else as many as they fill.
#[tactic(auto, using(crate::proofs::ListsLaws::CountLaws::list_laws))]
fn list_count(env: &Env, element: TyId, trees: &[Tree]) -> Result<u32, Memory>
    requires { IsType env.now.types element }
    ensures { IfOk result (λ n. n ≡ shut.list_count env.now.types element (trees_seen trees.now)) }
{
    match lone_bytes(trees) {
        Some(bytes) => {
            let count = text_count(is_char(env, element), bytes)?;
            Ok(count)
        }
        None => {
            let (filled, _) = some_of(env, element, trees.len(), trees);
            let count = narrowed(filled)?;
            Ok(count)
        }
    }
}

/// The literal that is all of a list.
fn lone_bytes(trees: &[Tree]) -> Option<&Bytes>
    ensures { option_copied result ≡ front.lone_bytes (trees_seen trees.now) }
{
    match trees {
        [Tree::Text { bytes, .. }] => Some(bytes),
        _ => None,
    }
}

/// How many objects of the type, so many at most, are initialised from the front of a list, and what they leave of it.
#[cycle(counting)]
#[tactic(auto, using(crate::proofs::ListsLaws::CountLaws::some_laws))]
fn some_of<'t>(env: &Env, ty: TyId, most: usize, trees: &'t [Tree]) -> (usize, &'t [Tree])
    requires { IsType env.now.types ty }
    ensures count { result.0 ≡ length (shut.elements env.now.types ty most (trees_seen trees.now)).0 }
    ensures left { trees_seen result.1.now ≡ (shut.elements env.now.types ty most (trees_seen trees.now)).1 }
{
    let mut left = trees;
    let mut count = 0;
    while count < most && !is_none_left(left) {
        left = behind_one(env, ty, left);
        count += 1;
    }
    (count, left)
}

fn is_none_left(trees: &[Tree]) -> bool
    ensures { result ≡ front.is_nil (trees_seen trees.now) }
{
    match trees.split_first() {
        None => true,
        Some(_) => false,
    }
}

/// What an object of the type leaves of a list that initialises it from its front.
#[cycle(counting)]
#[tactic(auto, using(crate::proofs::ListsLaws::CountLaws::behind_laws))]
fn behind_one<'t>(env: &Env, ty: TyId, trees: &'t [Tree]) -> &'t [Tree]
    requires { IsType env.now.types ty }
    ensures { trees_seen result.now ≡ (shut.from_front env.now.types ty (trees_seen trees.now)).1 }
{
    env.holds();
    match form_of(env, ty) {
        Form::Scalar(_) => behind_first(trees),
        Form::Array(row) => behind_array(env, row, trees),
    }
}

fn behind_first(trees: &[Tree]) -> &[Tree]
    ensures { trees_seen result.now ≡ front.tail (trees_seen trees.now) }
{
    match trees.split_first() {
        None => trees,
        Some((_, rest)) => rest,
    }
}

/// What an array leaves of a list.
#[cycle(counting)]
#[tactic(auto, using(crate::proofs::ListsLaws::CountLaws::array_laws))]
fn behind_array<'t>(env: &Env, row: Row, trees: &'t [Tree]) -> &'t [Tree]
    requires { IsType env.now.types row.element }
    ensures { trees_seen result.now ≡ (shut.array_front env.now.types row (trees_seen trees.now)).1 }
{
    match front_of(row.is_char, trees) {
        Front::Nothing => trees,
        Front::Whole => behind_first(trees),
        Front::Parts(_) => {
            let (_, left) = some_of(env, row.element, most_of(row.count, trees), trees);
            left
        }
    }
}

fn front_of(is_char: bool, trees: &[Tree]) -> Front
    ensures { result ≡ front.front_by is_char (slice_get (trees_seen trees.now) 0) }
{
    match trees.split_first() {
        None => front_by(is_char, None),
        Some((first, _)) => front_by(is_char, Some(first)),
    }
}

/// As many elements as a list can initialise, of an array with so many.
fn most_of(count: u32, trees: &[Tree]) -> usize
    ensures { result ≡ lists.at_most count (trees_seen trees.now) }
{
    lesser(count as usize, trees.len())
}
