//! Reading a text.

ghost use Rattle.std.specs.Prelude.{◌≡◌, ◌≤◌, ◌<◌, ◌+◌, ℕ, true, length, IfOk};
ghost use Rattle.cc_whole.specs.Spellable.{spellable_version};
ghost use Rattle.cc_whole.specs.SpellsItems.{SpellsItems};
ghost use Rattle.cc_whole_fitting.specs.Numbers.{numbers_fit};
ghost use Rattle.cc_whole_read_items.specs.Answers.{AreItems, AreWide};
ghost use Rattle.cc_whole_laws.specs.Landmark.{landmarks_in};
ghost use Rattle.cc_whole_read.specs.declared.error.ReadErr.TheVariants as error;
ghost use Rattle.cc_whole_read.specs.Behind.{place_in, FaultIs, told_by, TellsAt, Spells, IsChecked, ReadsTokens, ReadsBehind};
ghost use Rattle.cc_whole_read.specs.Good.{all_good};
ghost use Rattle.cc_whole_read.specs.Read.{IsRead, text_limit};

use crate::error::ReadErr;
use crate::landmarks::landmark_at;
use crate::places::place_of;
use cc_whole::{CItem, CUnit};
use cc_whole_first_line::first_line;
use cc_whole_front::{Front, front_of};
use cc_whole_nesting::{NESTING_LIMIT, is_too_deep};
use cc_whole_read_items::{ItemsErr, items_of};
use cc_whole_tokens::Token;
use cc_whole_valid::{Fault, ValidUnit, first_fault};
use cc_whole_wide::{first_wide, others};
use cf_base::{Bound, Items, Limit, Memory};
use std::alloc::Global;

/// The most bytes of a text that is read.
pub const TEXT_LIMIT: usize = 16_777_216;

/// Where the first fault of a unit is told, whose items these are the tokens of.
fn fault_at(front: &Front, fault: Fault) -> ReadErr
    requires { fault.place < landmarks_in front.now.tokens.items }
    ensures { FaultIs front.now fault result }
{
    match landmark_at(front.tokens.as_slice(), fault.place) {
        Some(index) => ReadErr::Invalid {
            rule: fault.rule,
            at: place_of(front, index),
        },
        None => unreachable!(),
    }
}

/// The unit that these are the tokens of, if it is valid.
fn checked(alloc: Global, front: &Front, unit: CUnit) -> Result<ValidUnit, ReadErr>
    requires { Spells front.now unit }
    ensures { IsChecked front.now unit result }
{
    match first_fault(alloc, unit.items.as_slice())? {
        Some(fault) => Err(fault_at(front, fault)),
        None => match ValidUnit::new(alloc, unit)? {
            Some(valid) => Ok(valid),
            None => unreachable!(),
        },
    }
}

/// The refusal of a text that stops being C at the token of this index, or behind the last one.
fn stops_at(front: &Front, index: usize) -> ReadErr
    ensures { result ≡ error.NotC (place_in front.now.places.items front.now.end index) }
{
    ReadErr::NotC {
        at: place_of(front, index),
    }
}

/// The first fault of a unit, by that of others in its place: V11 at the first constant that does not fit, before which so many landmarks stand, where
/// their fault stands behind it.
fn told_at(front: &Front, fault: Fault, wide: usize) -> ReadErr
    requires { wide < landmarks_in front.now.tokens.items }
    ensures { TellsAt front.now (told_by wide fault) result }
{
    if fault.place <= wide {
        fault_at(front, fault)
    } else {
        fault_at(
            front,
            Fault {
                rule: 11,
                place: wide,
            },
        )
    }
}

/// The items of tokens that are C, and whose numbers fit.
fn fitting_items(alloc: Global, tokens: &[Token]) -> Result<Items<CItem>, Memory>
    requires spelled { AreItems tokens.now }
    requires fit { numbers_fit tokens.now ≡ true }
    ensures { IfOk result (λ items. SpellsItems items tokens.now) }
{
    match items_of(alloc, tokens) {
        Ok(items) => Ok(items),
        Err(ItemsErr::NotC { .. }) => unreachable!(),
        Err(ItemsErr::Wide) => unreachable!(),
        Err(ItemsErr::Memory) => Err(Memory),
    }
}

/// The refusal of a unit with a constant that does not fit.
fn wide(alloc: Global, front: &Front) -> Result<ValidUnit, ReadErr>
    requires whole { front.now.is_whole ≡ true }
    requires wide { AreWide front.now.tokens.items }
    ensures { (version : ℕ) → ReadsTokens version front.now result }
{
    let all = others(alloc, front.tokens.as_slice())?;
    let items = fitting_items(alloc, all.as_slice())?;
    match first_wide(front.tokens.as_slice()) {
        None => unreachable!(),
        Some(wide) => match first_fault(alloc, items.as_slice())? {
            None => unreachable!(),
            Some(fault) => Err(told_at(front, fault, wide)),
        },
    }
}

/// The unit of tokens, which spell items where they are whole.
fn unit_of(alloc: Global, version: u32, front: &Front) -> Result<ValidUnit, ReadErr>
    requires version { spellable_version version ≡ true }
    requires good { all_good front.now.tokens.items ≡ true }
    ensures { ReadsTokens version front.now result }
{
    match items_of(alloc, front.tokens.as_slice()) {
        Err(ItemsErr::NotC { at }) => Err(stops_at(front, at)),
        Err(ItemsErr::Wide) => {
            if !front.is_whole {
                return Err(ReadErr::NotC { at: front.end });
            }
            wide(alloc, front)
        }
        Err(ItemsErr::Memory) => Err(ReadErr::Memory),
        Ok(items) => {
            if !front.is_whole {
                return Err(ReadErr::NotC { at: front.end });
            }
            checked(alloc, front, CUnit { version, items })
        }
    }
}

/// The unit of a text from what stands behind its first line, before which so many bytes stand.
fn behind_line(
    alloc: Global,
    before: usize,
    version: u32,
    body: &[u8],
) -> Result<ValidUnit, ReadErr>
    requires fits { before + length body.now ≤ text_limit }
    requires version { spellable_version version ≡ true }
    ensures { ReadsBehind before version body.now result }
{
    let front = front_of(alloc, before, body)?;
    if is_too_deep(alloc, front.tokens.as_slice())? {
        return Err(ReadErr::Limit(Limit {
            bound: Bound::Nesting,
            most: NESTING_LIMIT,
        }));
    }
    unit_of(alloc, version, &front)
}

/// The valid unit of a text.
///
/// A refusal tells where the text stops being C, which rule of validity its unit breaks first and where, or which limit it passes; `Memory` that
/// memory fails.
pub fn read(alloc: Global, text: &[u8]) -> Result<ValidUnit, ReadErr>
    ensures { IsRead text.now result }
{
    if text.len() > TEXT_LIMIT {
        return Err(ReadErr::Limit(Limit {
            bound: Bound::Text,
            most: 16_777_216,
        }));
    }
    match first_line(text) {
        Err(rest) => Err(ReadErr::NotC {
            at: text.len() - rest.len(),
        }),
        Ok((version, body)) => behind_line(alloc, text.len() - body.len(), version, body),
    }
}
