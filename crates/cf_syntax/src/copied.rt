//! Copies of scopes and classes.

ghost use Rattle.std.specs.Prelude.{◌≡◌, drop, IfOk};

use crate::type_names::{ClassNames, Scope};
use cf_base::Memory;
use std::alloc::Global;

/// The same class, in constant time.
pub fn class(c: &ClassNames) -> Result<ClassNames, Memory>
    ensures { IfOk result (λ made. made ≡ c.now) }
{
    Ok(ClassNames {
        entries: c.entries.copy()?,
        bases: c.bases.another()?,
        is_defined: c.is_defined,
    })
}

fn scope(s: &Scope) -> Result<Scope, Memory>
    ensures { IfOk result (λ made. made ≡ s.now) }
{
    match s {
        Scope::Block(entries) => Ok(Scope::Block(entries.copy()?)),
        Scope::Class(number) => Ok(Scope::Class(*number)),
    }
}

/// The same scopes, in a time that grows with their number alone.
pub fn scopes(alloc: Global, all: &[Scope]) -> Result<Vec<Scope>, Memory>
    ensures { IfOk result (λ made. made.items ≡ all.now) }
{
    let mut made = Vec::new(alloc);
    for one in all {
        made.push(scope(one)?)?;
    }
    Ok(made)
}

/// The same scopes without so many at the front.
pub fn scopes_beyond(alloc: Global, all: &[Scope], count: usize) -> Result<Vec<Scope>, Memory>
    ensures { IfOk result (λ made. made.items ≡ drop count all.now) }
{
    if count < all.len() {
        scopes(alloc, &all[count..])
    } else {
        Ok(Vec::new(alloc))
    }
}
