ghost use Rattle.std.specs.Prelude.{◌≡◌};
ghost use Rattle.cf_elab.specs.Lists as lists;
ghost use Rattle.cf_elab_initial.specs.Lists.Fronts as spec;
ghost use Rattle.cf_elab_initial.specs.Lists.Seen.{tree_seen};

use cf_base::{Bytes, Items};
use cf_elab_env::Value;

/// An initialiser whose expressions are elaborated, with its byte place.
#[derive(Drop)]
pub enum Tree {
    Leaf {
        at: u32,
        value: Value,
    },
    /// A string literal alone, which may initialise an array, with the literal's own byte place.
    Text {
        at: u32,
        literal_at: u32,
        bytes: Bytes,
    },
    /// Initialisers in braces.
    Branch {
        at: u32,
        trees: Items<Tree>,
    },
}

impl Tree {
    /// The byte place of the initialiser.
    pub fn at(&self) -> u32
        ensures { result ≡ lists.tree_place (tree_seen self.now) }
    {
        match self {
            Tree::Leaf { at, .. } => *at,
            Tree::Text { at, .. } => *at,
            Tree::Branch { at, .. } => *at,
        }
    }

    /// The byte place of its brace, where it stands in braces.
    pub(crate) fn brace(&self) -> Option<u32>
        ensures { result ≡ spec.brace_of (tree_seen self.now) }
    {
        match self {
            Tree::Branch { at, .. } => Some(*at),
            _ => None,
        }
    }
}
