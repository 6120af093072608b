ghost use Rattle.std.specs.Prelude.{◌≡◌, Some, slice_get, IfOk, if◌then◌else◌, nat_le};
ghost use Rattle.std.specs.Option.{option_map, option_copied};
ghost use Rattle.cf_elab.specs.Lists as lists;
ghost use Rattle.cf_elab_initial.specs.Lists.Fronts as spec;
ghost use Rattle.cf_elab_initial.specs.Lists.Seen.{tree_seen, trees_seen};

use crate::lists::tree::Tree;
use cf_base::{Bytes, Items, Memory};
use std::alloc::Global;
use std::collections::VecDeque;

/// What stands at the front of a list for an array that may take several of its initialisers.
#[derive(Clone, Copy, Debug, PartialEq, Eq)]
pub(crate) enum Front {
    Nothing,
    /// One initialiser for the whole array.
    Whole,
    /// The first element's initialiser, at this byte place, without a brace around the array's.
    Parts(u32),
}

/// What its first initialiser is to an array whose elements are chars or not.
pub(crate) fn front_by(is_char: bool, first: Option<&Tree>) -> Front
    ensures { result ≡ spec.front_by is_char (option_map tree_seen (option_copied first.entry)) }
{
    match first {
        None => Front::Nothing,
        Some(tree) => front_at(is_char, tree),
    }
}

fn front_at(is_char: bool, tree: &Tree) -> Front
    ensures { result ≡ spec.front_at is_char (tree_seen tree.now) }
{
    match tree {
        Tree::Leaf { at, .. } => Front::Parts(*at),
        Tree::Text { at, .. } => text_front(is_char, *at),
        Tree::Branch { .. } => Front::Whole,
    }
}

fn text_front(is_char: bool, at: u32) -> Front
    ensures { result ≡ (if is_char then spec.whole else spec.parts at) }
{
    if is_char {
        Front::Whole
    } else {
        Front::Parts(at)
    }
}

/// The first initialiser of those that are left.
pub(crate) fn first(left: &VecDeque<Tree>) -> Option<&Tree>
    ensures { option_copied result ≡ slice_get left.now.items 0 }
{
    left.front()
}

/// Initialisers to be taken from the front.
pub(crate) fn queued(trees: Items<Tree>) -> VecDeque<Tree>
    ensures { result.items ≡ trees }
{
    VecDeque::from(trees.into_vec())
}

/// Whether none is left.
pub(crate) fn is_done(left: &VecDeque<Tree>) -> bool
    ensures { result ≡ spec.is_nil (trees_seen left.now.items) }
{
    left.is_empty()
}

/// As many elements as those that are left can initialise, of an array with so many.
pub(crate) fn at_most(count: u32, left: &VecDeque<Tree>) -> usize
    ensures { result ≡ lists.at_most count (trees_seen left.now.items) }
{
    lesser(count as usize, left.len())
}

pub(crate) fn lesser(count: usize, available: usize) -> usize
    ensures { result ≡ (if nat_le count available then count else available) }
{
    count.min(available)
}

/// A string literal that stands alone in braces, with the byte place of the initialiser that it is.
pub(crate) struct LoneText {
    pub at: u32,
    pub bytes: Bytes,
}

/// The literal that is all of a list, where a literal may initialise the array.
pub(crate) fn lone_text(
    alloc: Global,
    is_char: bool,
    trees: &[Tree],
) -> Result<Option<LoneText>, Memory>
    ensures { IfOk result (λ found. option_map spec.lone_seen found ≡ spec.lone_text is_char (trees_seen trees.now)) }
{
    match trees {
        [Tree::Text { at, bytes, .. }] => {
            if is_char {
                let bytes = Items::from_slice(alloc, bytes.as_slice())?;
                Ok(Some(LoneText { at: *at, bytes }))
            } else {
                Ok(None)
            }
        }
        _ => Ok(None),
    }
}
