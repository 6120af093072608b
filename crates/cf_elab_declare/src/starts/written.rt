ghost use Rattle.std.specs.Prelude.{◌≡◌, ◌++◌, ◌∷◌, [], option_map};
ghost use Rattle.std.specs.Option.{option_copied};
ghost use Rattle.cf_elab.specs.Objects as objects;
ghost use Rattle.cf_elab_initial.specs.Lists.Seen.{tree_seen, trees_seen};
ghost use Rattle.cf_elab_declare.specs.Starts.Written as spec;

use cf_base::Items;
use cf_elab_initial::Tree;

/// What a declaration initialises its object by, with its byte place (8.4).
#[derive(Drop)]
pub enum Written {
    /// An initialiser behind `=`.
    Equals { at: u32, tree: Tree },
    /// Arguments in brackets.
    Bracketed { at: u32, trees: Items<Tree> },
}

impl Written {
    pub fn at(&self) -> u32
        ensures { result ≡ objects.written_place (spec.written_seen self.now) }
    {
        match self {
            Written::Equals { at, .. } => *at,
            Written::Bracketed { at, .. } => *at,
        }
    }

    /// Whether it is arguments in brackets.
    pub(crate) fn is_bracketed(&self) -> bool
        ensures { result ≡ spec.is_bracketed (spec.written_seen self.now) }
    {
        matches!(self, Written::Bracketed { .. })
    }

    /// The one initialiser that it is.
    pub fn one(&self) -> Option<&Tree>
        ensures { option_map tree_seen (option_copied result) ≡ spec.one_of (spec.written_seen self.now) }
    {
        match self {
            Written::Equals { tree, .. } => Some(tree),
            Written::Bracketed { trees, .. } => only(trees.as_slice()),
        }
    }

    /// The one initialiser that it is, taken out.
    pub(crate) fn into_one(self) -> Option<Tree>
        ensures { option_map tree_seen result ≡ spec.one_of (spec.written_seen self) }
    {
        match self {
            Written::Equals { tree, .. } => Some(tree),
            Written::Bracketed { trees, .. } => alone(trees),
        }
    }
}

/// The initialiser that is all of a list.
#[tactic(auto, using(crate::proofs::StartsLaws::WrittenLaws::alone_laws))]
fn alone(trees: Items<Tree>) -> Option<Tree>
    ensures { option_map tree_seen result ≡ spec.alone (trees_seen trees) }
{
    let mut trees = trees.into_vec();
    match trees.pop() {
        None => None,
        Some(last) => when_empty(&Items::from_vec(trees), last),
    }
}

/// The last of a list, where nothing stands before it.
#[tactic(auto, using(crate::proofs::StartsLaws::WrittenLaws::empty_laws))]
fn when_empty(before: &Items<Tree>, last: Tree) -> Option<Tree>
    ensures { option_map tree_seen result ≡ spec.alone (trees_seen (before.now ++ last ∷ [])) }
{
    if before.is_empty() { Some(last) } else { None }
}

/// The initialiser that is all of a list, which stays there.
fn only(trees: &[Tree]) -> Option<&Tree>
    ensures { option_map tree_seen (option_copied result) ≡ spec.alone (trees_seen trees.now) }
{
    match trees {
        [tree] => Some(tree),
        _ => None,
    }
}

/// The byte place of what initialises an object, or else this one.
pub fn start_place(written: &Option<Written>, at: u32) -> u32
    ensures { result ≡ spec.start_place (option_map spec.written_seen written.now) at }
{
    match written {
        Some(written) => written.at(),
        None => at,
    }
}
