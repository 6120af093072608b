ghost use Rattle.std.specs.Prelude.{◌≡◌, ◌∷◌, OnOk};
ghost use Rattle.cc_whole.specs.Landmarks.{static_marks as marks_of_static};
ghost use Rattle.cc_whole.specs.Plain.{item_of, function_of, body_of, defines, defines_variable};
ghost use Rattle.cc_whole.specs.Valid.{inside, named_by, defined_after};
ghost use Rattle.cc_whole_valid.specs.Checking.{body_from as walk_of_body};
ghost use Rattle.cc_whole_valid.specs.CheckingItems as spec;
ghost use Rattle.cc_whole_valid.specs.Walk.{Walks};

use crate::around::Around;
use crate::calls::is_helper;
use crate::landmarks::{pass, result_marks};
use crate::locals::{add_parameters, parameters_from};
use crate::names::declared_from;
use crate::scope::{Entity, Entry, Scope};
use crate::statements::body_from;
use crate::stop::Stop;
use crate::variables::{start_from, variable_from};
use cc_whole::{CFunction, CItem, CPrototype, CVariable};
use cf_name_list::Names;
use std::alloc::Global;

/// How many landmarks `static` has, where it stands.
fn static_marks(is_static: bool) -> usize
    ensures { result ≡ marks_of_static is_static }
{
    if is_static { 1 } else { 0 }
}

/// Goes past the head of a function that is declared so behind these names and definitions, or defined.
#[tactic(auto, unfolding(crate::specs::CheckingItems::prototype_from))]
fn prototype_from(
    alloc: Global,
    names: &Scope<'_>,
    defined: &Names<'_>,
    at: &mut usize,
    is_definition: bool,
    p: &CPrototype,
) -> Result<(), Stop>
    ensures { Walks (spec.prototype_from names.now defined.now is_definition p.now at.old) result at.new }
{
    let name = p.name.as_slice();
    pass(at, static_marks(p.is_static))?;
    pass(at, result_marks(p.result))?;
    declared_from(names, defined, at, is_definition, name, Entity::Function(p))?;
    parameters_from(alloc, at, p.parameters.as_slice())
}

/// Goes past the body of a function, whose own name is in scope already.
fn inside_from<'a>(
    alloc: Global,
    names: &mut Scope<'a>,
    at: &mut usize,
    f: &'a CFunction,
) -> Result<(), Stop>
    ensures walk { Walks (walk_of_body (body_of f.now.body) (inside f.now.prototype names.old) at.old) result at.new }
    ensures names { OnOk result (names.new ≡ names.old) }
{
    let outside = names.len();
    add_parameters(names, f.prototype.parameters.as_slice())?;
    let around = Around {
        in_helper: is_helper(f.prototype.name.as_slice()),
        result: f.prototype.result,
        in_loop: false,
        may_break: false,
    };
    body_from(alloc, names, at, around, &f.body)?;
    names.cut(outside);
    Ok(())
}

/// A shared definition is not static.
#[tactic(auto, unfolding(crate::specs::CheckingItems::unshared_from))]
fn unshared_from(at: usize, is_shared: bool, is_static: bool) -> Result<(), Stop>
    ensures { Walks (spec.unshared_from is_shared is_static at) result at }
{
    if is_shared && is_static {
        return Err(Stop::Broken {
            rule: 12,
            place: at,
        });
    }
    Ok(())
}

/// Goes past the definition of a function, whose name is in scope afterwards.
#[tactic(auto, unfolding(crate::specs::CheckingItems::function_from))]
fn function_from<'a>(
    alloc: Global,
    names: &mut Scope<'a>,
    defined: &Names<'_>,
    at: &mut usize,
    f: &'a CFunction,
) -> Result<(), Stop>
    ensures walk { Walks (spec.function_from (function_of f.now) names.old defined.now at.old) result at.new }
    ensures names { OnOk result (names.new ≡ named_by (defines (function_of f.now)) ∷ names.old) }
{
    unshared_from(*at, f.is_shared, f.prototype.is_static)?;
    prototype_from(alloc, names, defined, at, true, &f.prototype)?;
    names.add(Entry {
        name: f.prototype.name.as_slice(),
        entity: Entity::Function(&f.prototype),
    })?;
    inside_from(alloc, names, at, f)
}

/// Goes past the definition of a variable, whose name is in scope afterwards.
#[tactic(auto, unfolding(crate::specs::CheckingItems::variable_definition_from))]
fn variable_definition_from<'a>(
    names: &mut Scope<'a>,
    defined: &Names<'_>,
    at: &mut usize,
    v: &'a CVariable,
) -> Result<(), Stop>
    ensures walk { Walks (spec.variable_definition_from v.now names.old defined.now at.old) result at.new }
    ensures names { OnOk result (names.new ≡ named_by (defines_variable v.now) ∷ names.old) }
{
    let name = v.name.as_slice();
    unshared_from(*at, v.is_shared, v.is_static)?;
    pass(at, static_marks(v.is_static))?;
    variable_from(names, defined, at, true, v.ty, name, &v.initialiser)?;
    names.add(Entry {
        name,
        entity: Entity::Object(v.ty),
    })?;
    start_from(names, at, v.ty, &v.initialiser)
}

/// Goes past an item behind these names and definitions, which it is among afterwards.
#[tactic(auto, unfolding(crate::specs::CheckingItems::item_from))]
pub fn item_from<'a>(
    alloc: Global,
    names: &mut Scope<'a>,
    defined: &mut Names<'a>,
    at: &mut usize,
    item: &'a CItem,
) -> Result<(), Stop>
    ensures walk { Walks (spec.item_from (item_of item.now) names.old defined.old at.old) result at.new }
    ensures names { OnOk result (names.new ≡ named_by (item_of item.now) ∷ names.old) }
    ensures defined { OnOk result (defined.new ≡ defined_after (item_of item.now) defined.old) }
{
    match item {
        CItem::Prototype(p) => {
            prototype_from(alloc, names, defined, at, false, p)?;
            names.add(Entry {
                name: p.name.as_slice(),
                entity: Entity::Function(p),
            })?;
            Ok(())
        }
        CItem::Extern(t, name) => {
            variable_from(names, defined, at, false, *t, name.as_slice(), &None)?;
            names.add(Entry {
                name: name.as_slice(),
                entity: Entity::Object(*t),
            })?;
            Ok(())
        }
        CItem::Function(f) => {
            function_from(alloc, names, defined, at, f)?;
            defined.add(f.prototype.name.as_slice())?;
            Ok(())
        }
        CItem::Variable(v) => {
            variable_definition_from(names, defined, at, v)?;
            defined.add(v.name.as_slice())?;
            Ok(())
        }
    }
}
