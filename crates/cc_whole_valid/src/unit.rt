ghost use Rattle.std.specs.Prelude.{◌≡◌, [], true, IfOk};
ghost use Rattle.cc_whole.specs.Plain.{items_of};
ghost use Rattle.cc_whole.specs.Spellable as texts;
ghost use Rattle.cc_whole.specs.ValidUnit as spec;
ghost use Rattle.cc_whole.specs.Valid as checks;
ghost use Rattle.cc_whole_valid.specs.CheckingItems as checking;
ghost use Rattle.cc_whole_valid.specs.Walk.{Walks, fault_of, where_so};

use crate::items::item_from;
use crate::scope::Scope;
use crate::spellable::spellable_items;
use crate::stop::{Fault, Stop};
use cc_whole::{CItem, CUnit};
use cf_base::Memory;
use cf_name_list::Names;
use std::alloc::Global;
use std::marker::Model;

/// The greatest version and one more.
const VERSIONS: u32 = 1_000_000_000;

/// Whether a version is one that a text can have.
fn spellable_version(version: u32) -> bool
    ensures { result ≡ texts.spellable_version version }
{
    0 < version && version < VERSIONS
}

/// Goes past all items.
fn items_from(alloc: Global, at: &mut usize, items: &[CItem]) -> Result<(), Stop>
    ensures { Walks (checking.items_from (items_of items.now) [] [] at.old) result at.new }
{
    let mut names = Scope::new(alloc);
    let mut defined = Names::new(alloc);
    for item in items {
        item_from(alloc, &mut names, &mut defined, at, item)?;
    }
    Ok(())
}

/// The first broken rule of validity, V1 to V12, of items, and its place. There is none exactly where all rules are kept.
pub fn first_fault(alloc: Global, items: &[CItem]) -> Result<Option<Fault>, Memory>
    ensures { IfOk result (λ found. found ≡ fault_of (checks.first_fault (items_of items.now))) }
{
    let mut at = 0;
    match items_from(alloc, &mut at, items) {
        Ok(()) => Ok(None),
        Err(Stop::Broken { rule, place }) => Ok(Some(Fault { rule, place })),
        Err(Stop::Memory) => Err(Memory),
    }
}

/// Whether items keep the rules of validity.
fn keeps_rules(alloc: Global, items: &[CItem]) -> Result<bool, Memory>
    ensures { IfOk result (λ ok. ok ≡ spec.keeps (checks.first_fault (items_of items.now))) }
{
    let fault = first_fault(alloc, items)?;
    Ok(fault.is_none())
}

/// Whether items have a text and keep the rules of validity.
pub fn valid_items(alloc: Global, items: &[CItem]) -> Result<bool, Memory>
    ensures { IfOk result (λ ok. ok ≡ spec.valid_items (items_of items.now)) }
{
    if spellable_items(items) {
        keeps_rules(alloc, items)
    } else {
        Ok(false)
    }
}

/// Whether a unit has a text and keeps the rules of validity, V1 to V12.
pub fn is_valid(alloc: Global, unit: &CUnit) -> Result<bool, Memory>
    ensures { IfOk result (λ ok. ok ≡ spec.valid_unit unit.now) }
{
    if spellable_version(unit.version) {
        valid_items(alloc, unit.items.as_slice())
    } else {
        Ok(false)
    }
}

/// A unit that has a text and keeps the rules of validity. There is no other of this type.
#[derive(Drop)]
pub struct ValidUnit {
    unit: CUnit,
}

impl Model for ValidUnit {
    ghost use Rattle.std.specs.Prelude.{◌≡◌, true};
    ghost use Rattle.std.specs.Coded.{codes};
    ghost use Rattle.cc_whole.specs.contracts.statement.CStatement as statement;
    ghost use Rattle.cc_whole.specs.contracts.statement.CBody as body;
    ghost use Rattle.cc_whole.specs.declared.unit.CUnit.{CUnit as Tree};
    ghost use Rattle.cc_whole.specs.ValidUnit.{valid_unit};

    ghost Value = { Tree };

    ghost coded = { Prim.hlevel (codes, statement.the_row.coded, body.the_row.coded) };

    ghost view = { λ v. v.unit };

    ghost invariant = { λ v. valid_unit v.unit ≡ true };
}

impl ValidUnit {
    /// This unit, if it is valid.
    pub fn new(alloc: Global, unit: CUnit) -> Result<Option<ValidUnit>, Memory>
        ensures { IfOk result (λ made. made ≡ where_so (spec.valid_unit unit) unit) }
    {
        if is_valid(alloc, &unit)? {
            Ok(Some(ValidUnit { unit }))
        } else {
            Ok(None)
        }
    }

    /// Its tree.
    pub fn tree(&self) -> &CUnit
        ensures is { result.now ≡ self.now }
        ensures valid { spec.valid_unit result.now ≡ true }
    {
        &self.unit
    }

    /// Its tree, taken out.
    pub fn into_tree(self) -> CUnit
        ensures is { result ≡ self }
        ensures valid { spec.valid_unit result ≡ true }
    {
        let ValidUnit { unit } = self;
        unit
    }
}
