ghost use Rattle.std.specs.Prelude.{◌≡◌, not, true, IfOk};
ghost use Rattle.std.specs.List.{list_all};
ghost use Rattle.cc_whole.specs.Plain.{item_of, items_of, body_of};
ghost use Rattle.cc_whole.specs.Uses.{parameter_names};
ghost use Rattle.cc_whole.specs.ValidUnit as units;
ghost use Rattle.cc_whole_program.specs.Uses as spec;
ghost use Rattle.cc_whole_valid.specs.Walk.{where_so};

use crate::defined::{all_defined, is_static};
use crate::expressions::is_there;
use crate::statements::good_body;
use cc_whole::{CFunction, CInitialiser, CItem, CPair, CParameter, CProgram};
use cc_whole_valid::valid_items;
use cf_base::{Memory, Name};
use cf_name_list::Names;
use std::alloc::Global;
use std::marker::Model;

fn good_function(defined: &Names<'_>, function: &Option<Name>) -> bool
    ensures { result ≡ spec.good_function function.now defined.now }
{
    match function {
        None => true,
        Some(name) => is_there(defined, name.as_slice()),
    }
}

fn good_pairs(defined: &Names<'_>, pairs: &[CPair]) -> bool
    ensures { result ≡ spec.good_pairs pairs.now defined.now }
{
    for pair in pairs {
        if !good_function(defined, &pair.function) {
            return false;
        }
    }
    true
}

fn good_start(defined: &Names<'_>, start: &Option<CInitialiser>) -> bool
    ensures { result ≡ spec.good_start start.now defined.now }
{
    match start {
        None => true,
        Some(CInitialiser::Text(_)) => true,
        Some(CInitialiser::Pairs(pairs)) => good_pairs(defined, pairs.as_slice()),
    }
}

/// The names of parameters, in order.
fn hidden_by<'a>(alloc: Global, parameters: &'a [CParameter]) -> Result<Names<'a>, Memory>
    ensures { IfOk result (λ names. names ≡ parameter_names parameters.now) }
{
    let mut names = Names::new(alloc);
    let mut left = parameters.len();
    while left > 0 {
        left -= 1;
        let parameter = &parameters[left];
        names.add(parameter.name.as_slice())?;
    }
    Ok(names)
}

/// Whether a function uses only what is defined, and library functions.
fn good_definition(alloc: Global, defined: &Names<'_>, f: &CFunction) -> Result<bool, Memory>
    ensures { IfOk result (λ ok. ok ≡ spec.good_body (body_of f.now.body) defined.now (parameter_names f.now.prototype.parameters)) }
{
    let mut hidden = hidden_by(alloc, f.prototype.parameters.as_slice())?;
    good_body(defined, &mut hidden, &f.body)
}

/// The same of an item.
fn good_item(alloc: Global, defined: &Names<'_>, item: &CItem) -> Result<bool, Memory>
    ensures { IfOk result (λ ok. ok ≡ spec.good_item (item_of item.now) defined.now) }
{
    match item {
        CItem::Prototype(_) => Ok(true),
        CItem::Extern(_, _) => Ok(true),
        CItem::Function(f) => good_definition(alloc, defined, f),
        CItem::Variable(v) => Ok(good_start(defined, &v.initialiser)),
    }
}

fn good_items(alloc: Global, defined: &Names<'_>, items: &[CItem]) -> Result<bool, Memory>
    ensures { IfOk result (λ ok. ok ≡ spec.good_items (items_of items.now) defined.now) }
{
    for item in items {
        if !good_item(alloc, defined, item)? {
            return Ok(false);
        }
    }
    Ok(true)
}

fn none_static(items: &[CItem]) -> bool
    ensures { result ≡ list_all (λ i. not (units.is_static i)) (items_of items.now) }
{
    for item in items {
        if is_static(item) {
            return false;
        }
    }
    true
}

/// Whether items define `main`, and all that they use but library functions.
fn is_closed(alloc: Global, items: &[CItem]) -> Result<bool, Memory>
    ensures { IfOk result (λ ok. ok ≡ spec.is_closed (items_of items.now)) }
{
    let defined = all_defined(alloc, items)?;
    if defined.has(b"main") {
        good_items(alloc, &defined, items)
    } else {
        Ok(false)
    }
}

/// Whether a program is valid: it keeps the rules of validity, has no static item, defines `main`, and defines all that
/// it uses but the library functions.
pub fn is_valid_program(alloc: Global, program: &CProgram) -> Result<bool, Memory>
    ensures { IfOk result (λ ok. ok ≡ units.valid_program program.now) }
{
    let items = program.items.as_slice();
    if !valid_items(alloc, items)? {
        return Ok(false);
    }
    if !none_static(items) {
        return Ok(false);
    }
    is_closed(alloc, items)
}

/// A valid program. There is no other of this type.
#[derive(Drop)]
pub struct ValidProgram {
    program: CProgram,
}

impl Model for ValidProgram {
    ghost use Rattle.std.specs.Prelude.{◌≡◌, true};
    ghost use Rattle.std.specs.Coded.{codes};
    ghost use Rattle.cc_whole.specs.contracts.statement.CStatement as statement;
    ghost use Rattle.cc_whole.specs.contracts.statement.CBody as body;
    ghost use Rattle.cc_whole.specs.declared.unit.CProgram.{CProgram as Tree};
    ghost use Rattle.cc_whole.specs.ValidUnit.{valid_program};

    ghost Value = { Tree };

    ghost coded = { Prim.hlevel (codes, statement.the_row.coded, body.the_row.coded) };

    ghost view = { λ v. v.program };

    ghost invariant = { λ v. valid_program v.program ≡ true };
}

impl ValidProgram {
    /// This program, if it is valid.
    pub fn new(alloc: Global, program: CProgram) -> Result<Option<ValidProgram>, Memory>
        ensures { IfOk result (λ made. made ≡ where_so (units.valid_program program) program) }
    {
        if is_valid_program(alloc, &program)? {
            Ok(Some(ValidProgram { program }))
        } else {
            Ok(None)
        }
    }

    /// Its tree.
    pub fn tree(&self) -> &CProgram
        ensures is { result.now ≡ self.now }
        ensures valid { units.valid_program result.now ≡ true }
    {
        &self.program
    }
}
