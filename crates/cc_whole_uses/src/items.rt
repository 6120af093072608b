ghost use Rattle.std.specs.Prelude.{◌≡◌, ◌++◌, IfOk, OnOk};
ghost use Rattle.cc_whole.specs.Plain.{item_of};
ghost use Rattle.cc_whole.specs.declared.unit.CItem.TheVariants as item;
ghost use Rattle.cc_whole.specs.Uses.{parameter_names};
ghost use Rattle.cc_whole.specs.Uses as spec;
ghost use Rattle.cc_whole_link.specs.Placed.{inner_names as its_inner};
ghost use Rattle.cc_whole_uses.specs.Told.{told};

use crate::inner::of_body;
use crate::uses::in_body;
use cc_whole::{CFunction, CInitialiser, CItem, CPair, CParameter};
use cf_base::Memory;
use cf_name_list::Names;
use std::alloc::Global;

/// The names of parameters, in order.
fn hidden_by<'a>(alloc: Global, parameters: &'a [CParameter]) -> Result<Names<'a>, Memory>
    ensures { IfOk result (λ names. names ≡ parameter_names parameters.now) }
{
    let mut names = Names::new(alloc);
    let mut left = parameters.len();
    while left > 0 {
        left -= 1;
        let parameter = &parameters[left];
        names.add(parameter.name.as_slice())?;
    }
    Ok(names)
}

/// The functions of pairs.
fn in_pairs<'a>(pairs: &'a [CPair], out: &mut Vec<&'a [u8]>) -> Result<(), Memory>
    ensures { OnOk result (told out.new.items ≡ told out.old.items ++ spec.uses_of_pairs pairs.now) }
{
    for pair in pairs {
        if let Some(name) = &pair.function {
            out.push(name.as_slice())?;
        }
    }
    Ok(())
}

/// The names of a unit's functions and variables that an item uses, in the order of the text. A name that a parameter or a local hides is none.
pub fn uses_of_item<'a>(alloc: Global, item: &'a CItem) -> Result<Vec<&'a [u8]>, Memory>
    ensures { IfOk result (λ names. told names.items ≡ spec.uses_of_item (item_of item.now)) }
{
    let mut out = Vec::new(alloc);
    match item {
        CItem::Prototype(_) => {}
        CItem::Extern(_, _) => {}
        CItem::Function(f) => {
            let mut hidden = hidden_by(alloc, f.prototype.parameters.as_slice())?;
            in_body(&f.body, &mut hidden, &mut out)?;
        }
        CItem::Variable(v) => {
            if let Some(CInitialiser::Pairs(pairs)) = &v.initialiser {
                in_pairs(pairs.as_slice(), &mut out)?;
            }
        }
    }
    Ok(out)
}

/// Puts the names of parameters behind others.
fn put_parameters<'a>(parameters: &'a [CParameter], out: &mut Vec<&'a [u8]>) -> Result<(), Memory>
    ensures { OnOk result (told out.new.items ≡ told out.old.items ++ parameter_names parameters.now) }
{
    for parameter in parameters {
        out.push(parameter.name.as_slice())?;
    }
    Ok(())
}

/// Those of a function with a body: its parameters, then the locals inside.
fn put_inner<'a>(f: &'a CFunction, out: &mut Vec<&'a [u8]>) -> Result<(), Memory>
    ensures { OnOk result (told out.new.items ≡ told out.old.items ++ its_inner (item_of (item.Function f.now))) }
{
    put_parameters(f.prototype.parameters.as_slice(), out)?;
    of_body(&f.body, out)
}

/// The names of an item's parameters and locals, in the order of the text.
pub fn inner_names<'a>(alloc: Global, item: &'a CItem) -> Result<Vec<&'a [u8]>, Memory>
    ensures { IfOk result (λ names. told names.items ≡ its_inner (item_of item.now)) }
{
    let mut out = Vec::new(alloc);
    match item {
        CItem::Prototype(p) => put_parameters(p.parameters.as_slice(), &mut out)?,
        CItem::Extern(_, _) => {}
        CItem::Function(f) => put_inner(f, &mut out)?,
        CItem::Variable(_) => {}
    }
    Ok(out)
}
