ghost use Rattle.std.specs.Prelude.{◌≡◌};
ghost use Rattle.cc_whole.specs.Valid as spec;
ghost use Rattle.cc_whole_valid.specs.CheckingItems as checking;
ghost use Rattle.cc_whole_valid.specs.Memory.{meant};
ghost use Rattle.cc_whole_valid.specs.Walk.{Walks};

use crate::constants::size_of;
use crate::expressions::is_main;
use crate::landmarks::{marks_before, pass};
use crate::locals::{has_size, number_from, size_from};
use crate::names::declared_from;
use crate::scope::{Entity, Scope};
use crate::stop::Stop;
use cc_whole::{CInitialiser, CPair, CVariableType};
use cf_base::Name;
use cf_name_list::Names;

/// Goes past the name of the function of a pair.
#[tactic(auto, unfolding(crate::specs::CheckingItems::paired_by))]
fn paired_by(at: &mut usize, name: &[u8], found: Option<Entity<'_>>) -> Result<(), Stop>
    ensures { Walks (checking.paired_by name.now (meant found.entry) at.old) result at.new }
{
    match found {
        None => Err(Stop::Broken {
            rule: 1,
            place: *at,
        }),
        Some(Entity::Function(_)) => {
            if is_main(name) {
                return Err(Stop::Broken {
                    rule: 10,
                    place: *at,
                });
            }
            pass(at, 1)
        }
        Some(Entity::Object(_)) => Err(Stop::Broken {
            rule: 3,
            place: *at,
        }),
    }
}

/// Goes past the function of a pair, or the 0 in its place.
#[tactic(auto, unfolding(crate::specs::CheckingItems::paired_from))]
fn paired_from(names: &Scope<'_>, at: &mut usize, function: &Option<Name>) -> Result<(), Stop>
    ensures { Walks (checking.paired_from names.now function.now at.old) result at.new }
{
    match function {
        None => pass(at, 1),
        Some(name) => paired_by(at, name.as_slice(), names.find(name.as_slice())),
    }
}

#[tactic(auto, unfolding(crate::specs::CheckingItems::pair_from))]
fn pair_from(names: &Scope<'_>, at: &mut usize, pair: &CPair) -> Result<(), Stop>
    ensures { Walks (checking.pair_from pair.now names.now at.old) result at.new }
{
    number_from(at, pair.number)?;
    paired_from(names, at, &pair.function)
}

fn pairs_from(names: &Scope<'_>, at: &mut usize, pairs: &[CPair]) -> Result<(), Stop>
    ensures { Walks (checking.pairs_from pairs.now names.now at.old) result at.new }
{
    for pair in pairs {
        pair_from(names, at, pair)?;
    }
    Ok(())
}

/// Whether a variable may start so: an array of `char` with a string, an array of pairs with pairs.
fn may_start(t: CVariableType, start: &CInitialiser) -> bool
    ensures { result ≡ spec.may_start t start.now }
{
    match (t, start) {
        (CVariableType::Chars(_), CInitialiser::Text(_)) => true,
        (CVariableType::Pairs(_), CInitialiser::Pairs(_)) => true,
        _ => false,
    }
}

fn length_of(start: &CInitialiser) -> usize
    ensures { result ≡ spec.length_of start.now }
{
    match start {
        CInitialiser::Text(bytes) => bytes.len(),
        CInitialiser::Pairs(pairs) => pairs.len(),
    }
}

fn elements_of(t: CVariableType) -> u32
    ensures { result ≡ spec.elements_of t }
{
    match t {
        CVariableType::Scalar(_) => 1,
        CVariableType::Ints(c) => size_of(c),
        CVariableType::Chars(c) => size_of(c),
        CVariableType::Pairs(c) => size_of(c),
    }
}

/// Whether an array holds what it starts with.
fn holds_start(t: CVariableType, start: &Option<CInitialiser>) -> bool
    ensures { result ≡ spec.holds_start t start.now }
{
    match start {
        None => true,
        Some(start) => !may_start(t, start) || !((elements_of(t) as usize) < length_of(start)),
    }
}

/// Goes past what a variable starts with, in which the names are those of functions.
#[tactic(auto, unfolding(crate::specs::CheckingItems::inside_from))]
fn inside_from(names: &Scope<'_>, at: &mut usize, start: &CInitialiser) -> Result<(), Stop>
    ensures { Walks (checking.inside_from start.now names.now at.old) result at.new }
{
    match start {
        CInitialiser::Text(_) => pass(at, 1),
        CInitialiser::Pairs(pairs) => pairs_from(names, at, pairs.as_slice()),
    }
}

/// The same, where a variable of this type may start so.
#[tactic(auto, unfolding(crate::specs::CheckingItems::start_from))]
pub fn start_from(
    names: &Scope<'_>,
    at: &mut usize,
    t: CVariableType,
    start: &Option<CInitialiser>,
) -> Result<(), Stop>
    ensures { Walks (checking.start_from t names.now start.now at.old) result at.new }
{
    match start {
        None => Ok(()),
        Some(start) => {
            if !may_start(t, start) {
                return Err(Stop::Broken {
                    rule: 3,
                    place: *at,
                });
            }
            inside_from(names, at, start)
        }
    }
}

/// Goes past a variable that is declared so behind these names and definitions, or defined.
#[tactic(auto, unfolding(crate::specs::CheckingItems::variable_from))]
pub fn variable_from(
    names: &Scope<'_>,
    defined: &Names<'_>,
    at: &mut usize,
    is_definition: bool,
    t: CVariableType,
    name: &[u8],
    start: &Option<CInitialiser>,
) -> Result<(), Stop>
    ensures { Walks (checking.variable_from names.now defined.now is_definition t name.now start.now at.old) result at.new }
{
    pass(at, marks_before(t))?;
    declared_from(names, defined, at, is_definition, name, Entity::Object(t))?;
    size_from(at, t, has_size(t) && holds_start(t, start))
}
