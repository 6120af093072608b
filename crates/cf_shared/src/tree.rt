ghost use Rattle.std.specs.Prelude.{◌≡◌, IfOk};
ghost use Rattle.std.specs.Option.{option_copied};
ghost use Rattle.cf_shared.specs.At.{at, opened, Puts};

use crate::shared::Shared;
use cf_base::Memory;
use std::alloc::Global;

/// Values at indices. A copy shares all of them, and a write makes anew what lies on the way from the root,
/// at most as many forks as the index has bits.
#[cycle(tree)]
#[derive(Drop)]
pub enum Tree<T> {
    Empty,
    Fork(Shared<Fork<T>>),
}

/// The value at index 0, those at odd indices, and those at even ones beyond 0.
#[cycle(tree)]
#[derive(Drop)]
pub struct Fork<T> {
    pub here: Option<Shared<T>>,
    pub odd: Tree<T>,
    pub even: Tree<T>,
}

/// The value at this index, if there is one.
pub fn get<T>(tree: &Tree<T>, index: usize) -> Option<&T>
    ensures { option_copied result ≡ at tree.now index }
{
    let Tree::Fork(fork) = tree else {
        return None;
    };
    let fork = fork.get();
    if index == 0 {
        return match &fork.here {
            Some(value) => Some(value.get()),
            None => None,
        };
    }
    let beyond = index - 1;
    if beyond % 2 == 0 {
        get(&fork.odd, beyond / 2)
    } else {
        get(&fork.even, beyond / 2)
    }
}

/// The same tree, in constant time.
pub fn copy<T: Drop>(tree: &Tree<T>) -> Result<Tree<T>, Memory>
    ensures { IfOk result (λ made. made ≡ tree.now) }
{
    match tree {
        Tree::Empty => Ok(Tree::Empty),
        Tree::Fork(fork) => Ok(Tree::Fork(fork.another()?)),
    }
}

/// The same value, if there is one.
fn here_of<T: Drop>(here: &Option<Shared<T>>) -> Result<Option<Shared<T>>, Memory>
    ensures { IfOk result (λ made. made ≡ here.now) }
{
    match here {
        Some(value) => Ok(Some(value.another()?)),
        None => Ok(None),
    }
}

/// The root with its branches.
fn root<T: Drop>(tree: &Tree<T>) -> Result<Fork<T>, Memory>
    ensures { IfOk result (λ made. made ≡ opened tree.now) }
{
    match tree {
        Tree::Empty => Ok(Fork {
            here: None,
            odd: Tree::Empty,
            even: Tree::Empty,
        }),
        Tree::Fork(fork) => {
            let fork = fork.get();
            Ok(Fork {
                here: here_of(&fork.here)?,
                odd: copy(&fork.odd)?,
                even: copy(&fork.even)?,
            })
        }
    }
}

/// The tree with this root.
fn rooted<T: Drop>(alloc: Global, root: Fork<T>) -> Result<Tree<T>, Memory>
    ensures { IfOk result (λ made. opened made ≡ root) }
{
    Ok(Tree::Fork(Shared::new(alloc, root)?))
}

/// The same values, but this one at this index.
pub fn put<T: Drop>(
    alloc: Global,
    tree: &Tree<T>,
    index: usize,
    value: T,
) -> Result<Tree<T>, Memory>
    ensures { IfOk result (λ made. Puts tree.now index value made) }
{
    let Fork { here, odd, even } = root(tree)?;
    if index == 0 {
        let here = Some(Shared::new(alloc, value)?);
        let newer = rooted(alloc, Fork { here, odd, even })?;
        return Ok(newer);
    }
    let beyond = index - 1;
    if beyond % 2 == 0 {
        let odd = put(alloc, &odd, beyond / 2, value)?;
        let newer = rooted(alloc, Fork { here, odd, even })?;
        Ok(newer)
    } else {
        let even = put(alloc, &even, beyond / 2, value)?;
        let newer = rooted(alloc, Fork { here, odd, even })?;
        Ok(newer)
    }
}
