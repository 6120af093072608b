ghost use Rattle.std.specs.Prelude.{◌≡◌, map, option_map, IfOk};
ghost use Rattle.cc_whole.specs.Uses.{parameter_names};
ghost use Rattle.cc_whole_link.specs.Placed.{static_renaming};
ghost use Rattle.cc_whole_link.specs.Rename.{prototype_renamed, pair_renamed, start_renamed, function_renamed, variable_renamed, item_renamed};

use crate::bodies::body;
use crate::copies::copied_parameters;
use crate::names::{Statics, renamed};
use cc_whole::{CFunction, CInitialiser, CItem, CPair, CParameter, CPrototype, CVariable};
use cf_base::{Items, Memory, Name};
use cf_name_list::Names;
use std::alloc::Global;

/// The names of parameters, in order.
fn hidden_by<'a>(alloc: Global, parameters: &'a [CParameter]) -> Result<Names<'a>, Memory>
    ensures { IfOk result (λ names. names ≡ parameter_names parameters.now) }
{
    let mut names = Names::new(alloc);
    let mut left = parameters.len();
    while left > 0 {
        left -= 1;
        let parameter = &parameters[left];
        names.add(parameter.name.as_slice())?;
    }
    Ok(names)
}

fn prototype(alloc: Global, statics: &Statics<'_>, of: &CPrototype) -> Result<CPrototype, Memory>
    ensures { IfOk result (λ made. made ≡ prototype_renamed of.now (static_renaming statics.now.unit statics.now.names)) }
{
    Ok(CPrototype {
        is_static: false,
        result: of.result,
        name: renamed(alloc, statics, of.name.as_slice())?,
        parameters: copied_parameters(alloc, of.parameters.as_slice())?,
    })
}

fn function(alloc: Global, statics: &Statics<'_>, of: &CFunction) -> Result<CFunction, Memory>
    ensures { IfOk result (λ made. made ≡ function_renamed of.now (static_renaming statics.now.unit statics.now.names)) }
{
    let mut hidden = hidden_by(alloc, of.prototype.parameters.as_slice())?;
    Ok(CFunction {
        is_shared: of.is_shared,
        prototype: prototype(alloc, statics, &of.prototype)?,
        body: body(&of.body, alloc, statics, &mut hidden)?,
    })
}

/// The function of a pair.
fn pointed(alloc: Global, statics: &Statics<'_>, of: &Option<Name>) -> Result<Option<Name>, Memory>
    ensures { IfOk result (λ made. made ≡ option_map (static_renaming statics.now.unit statics.now.names) of.now) }
{
    Ok(match of {
        None => None,
        Some(name) => Some(renamed(alloc, statics, name.as_slice())?),
    })
}

fn pair(alloc: Global, statics: &Statics<'_>, of: &CPair) -> Result<CPair, Memory>
    ensures { IfOk result (λ made. made ≡ pair_renamed of.now (static_renaming statics.now.unit statics.now.names)) }
{
    Ok(CPair {
        number: of.number,
        function: pointed(alloc, statics, &of.function)?,
    })
}

fn pairs(alloc: Global, statics: &Statics<'_>, all: &[CPair]) -> Result<Items<CPair>, Memory>
    ensures { IfOk result (λ made. made ≡ map (λ p. pair_renamed p (static_renaming statics.now.unit statics.now.names)) all.now) }
{
    let mut made = Items::new(alloc);
    for one in all {
        made.push(pair(alloc, statics, one)?)?;
    }
    Ok(made)
}

fn start(alloc: Global, statics: &Statics<'_>, of: &CInitialiser) -> Result<CInitialiser, Memory>
    ensures { IfOk result (λ made. made ≡ start_renamed of.now (static_renaming statics.now.unit statics.now.names)) }
{
    match of {
        CInitialiser::Text(bytes) => {
            let bytes = Items::from_slice(alloc, bytes.as_slice())?;
            Ok(CInitialiser::Text(bytes))
        }
        CInitialiser::Pairs(all) => {
            let all = pairs(alloc, statics, all.as_slice())?;
            Ok(CInitialiser::Pairs(all))
        }
    }
}

fn started(
    alloc: Global,
    statics: &Statics<'_>,
    of: &Option<CInitialiser>,
) -> Result<Option<CInitialiser>, Memory>
    ensures { IfOk result (λ made. made ≡ option_map (λ s. start_renamed s (static_renaming statics.now.unit statics.now.names)) of.now) }
{
    Ok(match of {
        None => None,
        Some(of) => Some(start(alloc, statics, of)?),
    })
}

fn variable(alloc: Global, statics: &Statics<'_>, of: &CVariable) -> Result<CVariable, Memory>
    ensures { IfOk result (λ made. made ≡ variable_renamed of.now (static_renaming statics.now.unit statics.now.names)) }
{
    Ok(CVariable {
        is_shared: of.is_shared,
        is_static: false,
        ty: of.ty,
        name: renamed(alloc, statics, of.name.as_slice())?,
        initialiser: started(alloc, statics, &of.initialiser)?,
    })
}

/// An item with the names that it has in the program: the static names of its unit are longer, and it is static no more.
pub fn renamed_item(alloc: Global, statics: &Statics<'_>, of: &CItem) -> Result<CItem, Memory>
    ensures { IfOk result (λ made. made ≡ item_renamed of.now (static_renaming statics.now.unit statics.now.names)) }
{
    match of {
        CItem::Prototype(of) => {
            let made = prototype(alloc, statics, of)?;
            Ok(CItem::Prototype(made))
        }
        CItem::Extern(ty, name) => {
            let name = renamed(alloc, statics, name.as_slice())?;
            Ok(CItem::Extern(*ty, name))
        }
        CItem::Function(of) => {
            let made = function(alloc, statics, of)?;
            Ok(CItem::Function(made))
        }
        CItem::Variable(of) => {
            let made = variable(alloc, statics, of)?;
            Ok(CItem::Variable(made))
        }
    }
}
