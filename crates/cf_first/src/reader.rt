//! Reads a file.

ghost use Rattle.std.specs.Prelude.{Ok, MatchResult};
ghost use Rattle.cf_tokens.specs.Lex.{Lex};
ghost use Rattle.cf_first.specs.Reads.{Reads};
ghost use Rattle.cf_first.specs.Steps.{IsUncut, IsTree, HasCore};

use crate::fault::Fault;
use cf_base::{Broken, Rule};
use cf_core::CoreUnit;
use cf_elab_env::Stop;
use cf_elab_finished::core_of;
use cf_parse_file::{ParseFault, unit};
use cf_tokens::{LexFault, Token};
use cf_unit::Unit;
use std::alloc::Global;

/// The tokens that the bytes are.
fn listed(alloc: Global, bytes: &[u8]) -> Result<Vec<Token>, Fault>
    ensures { MatchResult result (λ found. Lex bytes.now (Ok found.items)) (λ fault. IsUncut bytes.now fault) }
{
    match cf_tokens::tokens(alloc, bytes) {
        Ok(found) => Ok(found),
        Err(LexFault::Broken(broken)) => Err(Fault::Broken(broken)),
        Err(LexFault::Limit(limit)) => Err(Fault::Limit(limit)),
        Err(LexFault::Memory) => Err(Fault::Memory),
    }
}

/// The tree of the tokens.
fn parsed(alloc: Global, tokens: &[Token]) -> Result<Unit, Fault>
    ensures { IsTree tokens.now result }
{
    match unit(alloc, tokens) {
        Ok(tree) => Ok(tree),
        Err(ParseFault::Broken(broken)) => Err(Fault::Broken(broken)),
        Err(ParseFault::Limit(limit)) => Err(Fault::Limit(limit)),
        Err(ParseFault::Memory) => Err(Fault::Memory),
    }
}

/// The core of the tree.
fn elaborated(alloc: Global, tree: &Unit) -> Result<CoreUnit, Fault>
    ensures { HasCore tree.now result }
{
    match core_of(alloc, tree) {
        Ok(Some(core)) => Ok(core),
        Ok(None) => Err(Fault::Broken(Broken {
            rule: Rule::new(48),
            at: 0,
        })),
        Err(Stop::Broken(broken)) => Err(Fault::Broken(broken)),
        Err(Stop::Passed(limit)) => Err(Fault::Limit(limit)),
        Err(Stop::Memory) => Err(Fault::Memory),
    }
}

/// The core of a file, which is valid, or why it has none.
///
/// The lexical form comes first: the limit of bytes, then the first of K1 to K5 and K7 in text order, then the limit of tokens. Then come the limit of nesting, and K6
/// where the tokens are not in the grammar (17). Then comes the first rule that the declarations break in their turn, or the limit that they pass; K48 at the
/// file's begin is the answer where they break none and a look does not find the end well formed.
pub fn first(alloc: Global, bytes: &[u8]) -> Result<CoreUnit, Fault>
    ensures { Reads bytes.now result }
{
    let tokens = listed(alloc, bytes)?;
    let tree = parsed(alloc, tokens.as_slice())?;
    elaborated(alloc, &tree)
}
