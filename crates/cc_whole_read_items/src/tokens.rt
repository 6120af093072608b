//! The items of tokens.

ghost use Rattle.std.specs.Prelude.{◌≡◌, ◌-◌, false, length};
ghost use Rattle.cc_whole_fitting.specs.Numbers.{numbers_fit};
ghost use Rattle.cc_whole_reading.specs.Constants.{keeps};
ghost use Rattle.cc_whole_reading.specs.declared.constants.Constants.TheVariants as constants;
ghost use Rattle.cc_whole_read_items.specs.ReadItems.{whole as all_items};
ghost use Rattle.cc_whole_read_items.specs.Passes.{ReadsWhole, second_answer};
ghost use Rattle.cc_whole_read_items.specs.Answers.{Answers};

use crate::item::whole;
use cc_whole::CItem;
use cc_whole_reading::{Constants, Cursor, Stop};
use cc_whole_tokens::Token;
use cf_base::Items;
use std::alloc::Global;

/// Why tokens have no items.
#[derive(Clone, Copy, Debug, PartialEq, Eq)]
pub enum ItemsErr {
    /// They are not C at the token of this number, from 0, or at their end.
    NotC { at: usize },
    /// They are C, and have a constant beyond 32 bits.
    Wide,
    /// Memory was wanting, which tells nothing of the tokens.
    Memory,
}

/// The number of the token from which on so many are left.
fn place(tokens: &[Token], left: usize) -> usize
    ensures { result ≡ length tokens.now - left }
{
    tokens.len().saturating_sub(left)
}

/// All items of tokens, with some constants alone or with all.
fn once(alloc: Global, constants: Constants, tokens: &[Token]) -> Result<Items<CItem>, Stop>
    ensures { ReadsWhole (all_items (keeps constants) (length tokens.now) tokens.now) result }
{
    let mut c = Cursor::new(tokens);
    whole(alloc, constants, tokens.len(), &mut c)
}

/// What the second reading tells of tokens with a number that does not fit.
fn told(tokens: &[Token], second: Result<Items<CItem>, Stop>) -> ItemsErr
    ensures { result ≡ second_answer (length tokens.now) second }
{
    match second {
        Ok(_) | Err(Stop::Unfit { .. }) => ItemsErr::Wide,
        Err(Stop::NotC { left }) => ItemsErr::NotC {
            at: place(tokens, left),
        },
        Err(Stop::Memory) => ItemsErr::Memory,
    }
}

/// Why tokens with a number that does not fit have no items here: they are read again, whatever the numbers are.
fn refusal(alloc: Global, tokens: &[Token]) -> Result<Items<CItem>, ItemsErr>
    requires { numbers_fit tokens.now ≡ false }
    ensures { Answers tokens.now result }
{
    let second = once(alloc, Constants::Any, tokens);
    Err(told(tokens, second))
}

/// The items that tokens spell, where all constants of the items fit 32 bits.
///
/// `NotC` tells the first token that no unit with the same tokens before it has, `Wide` that they are those of a unit with
/// a constant beyond 32 bits, `Memory` that memory fails.
pub fn items_of(alloc: Global, tokens: &[Token]) -> Result<Items<CItem>, ItemsErr>
    ensures { Answers tokens.now result }
{
    match once(alloc, Constants::Exact, tokens) {
        Ok(items) => Ok(items),
        Err(Stop::NotC { left }) => Err(ItemsErr::NotC {
            at: place(tokens, left),
        }),
        Err(Stop::Unfit { .. }) => refusal(alloc, tokens),
        Err(Stop::Memory) => Err(ItemsErr::Memory),
    }
}
