ghost use Rattle.std.specs.Prelude.{◌≡◌, ℕ, [], ◌++◌, ◌&&◌, ◌==◌, map, reverse, find, slice_get, bytes_eq, IfOk, Some};
ghost use Rattle.cf_base.specs.World.{World};
ghost use Rattle.cf_core.specs.FromTypes.{Tables};
ghost use Rattle.cf_core.specs.Objects as meaning;
ghost use Rattle.cf_core.specs.Objects.{found_literal};
ghost use Rattle.cf_core.specs.Program.{first_state};
ghost use Rattle.cf_core.specs.Run.{Literal as Text, declared_object, upd};
ghost use Rattle.cf_core.specs.Run as run;
ghost use Rattle.cf_core.specs.Store.{zeroed_object};
ghost use Rattle.cf_run_tree.specs.Tree.{list_of, arrays, object_type, program_of, shape_type};
ghost use Rattle.cf_run_tree.specs.declared.program.RunStatic.{RunStatic as Static};
ghost use Rattle.cf_core_objects.specs.Answer.{Told};
ghost use Rattle.cf_core_objects.specs.Made.{new_literal as its_new_literal};
ghost use Rattle.cf_core_objects.specs.Store.{frame_of, fresh, literal_of, local_object, object_of, state_of};
ghost use Rattle.cf_core_objects.specs.declared.object.Cell.{Cell as Kept};
ghost use Rattle.cf_core_objects.specs.declared.object.Entered.{Entered as Enter};

use crate::answer::Stop;
use crate::object::{Cell, Entered, Literal, Objects, Storage};
use cf_base::Kind;
use cf_run_tree::{Bounds, Form, ObjectType, Program, RunStatic, Shape};
use std::alloc::{AllocError, Global};

/// One more object is made.
fn born<'a>(
    objects: &mut Objects<'a>,
    shape: Shape,
    bounds: Bounds,
    storage: Storage<'a>,
) -> Result<usize, Stop>
    ensures { (T : Tables) (e : Enter) (w : World) → Told (λ o. o) result (state_of T e objects.new) w (run.born (fresh T shape bounds storage.entry) (state_of T e objects.old) w) }
{
    let object = objects.cells.len();
    let log = Vec::new(objects.alloc);
    objects.cells.push(Cell {
        shape,
        bounds,
        storage,
        log,
        is_gone: false,
    })?;
    Ok(object)
}

/// A scalar that has no name is made: a parameter or a temporary (5.2.2, 12.2).
pub fn new_object(shape: Shape, objects: &mut Objects<'_>) -> Result<usize, Stop>
    ensures { (T : Tables) (e : Enter) (w : World) → Told (λ o. o) result (state_of T e objects.new) w (declared_object (shape_type T shape) (state_of T e objects.old) w) }
{
    born(objects, shape, Bounds::None, Storage::Automatic)
}

/// A local gets an object; those before it that were not reached stay without one.
fn list_local(
    locals: &mut Vec<Option<usize>>,
    index: usize,
    object: usize,
) -> Result<(), AllocError>
    ensures { IfOk result (λ u. (k : ℕ) → local_object (slice_get locals.new.items k) ≡ upd index (Some object) (λ k. local_object (slice_get locals.old.items k)) k) }
{
    while locals.len() <= index {
        locals.push(None)?;
    }
    locals[index] = Some(object);
    Ok(())
}

/// A local of these bounds is reached: it gets a new object.
fn bounded_local(
    number: u32,
    shape: Shape,
    bounds: Bounds,
    entered: &mut Entered<'_>,
    objects: &mut Objects<'_>,
) -> Result<usize, Stop>
    ensures { (T : Tables) (w : World) → Told (λ o. o) result (state_of T entered.new objects.new) w (meaning.new_local number (arrays (list_of bounds) (shape_type T shape)) (state_of T entered.old objects.old) w) }
{
    let index = number as usize;
    if index >= entered.count {
        return Err(Stop::Malformed);
    }
    match born(objects, shape, bounds, Storage::Automatic) {
        Err(stop) => Err(stop),
        Ok(object) => {
            list_local(&mut entered.locals, index, object)?;
            Ok(object)
        }
    }
}

/// A local is reached: it gets a new object (6.7).
pub fn new_local(
    number: u32,
    ty: &ObjectType,
    entered: &mut Entered<'_>,
    objects: &mut Objects<'_>,
) -> Result<usize, Stop>
    ensures { (T : Tables) (w : World) → Told (λ o. o) result (state_of T entered.new objects.new) w (meaning.new_local number (object_type T ty.now) (state_of T entered.old objects.old) w) }
{
    bounded_local(number, ty.shape, ty.bounds, entered, objects)
}

/// A local that is a scalar gets a new object.
pub fn new_scalar(
    number: u32,
    shape: Shape,
    entered: &mut Entered<'_>,
    objects: &mut Objects<'_>,
) -> Result<usize, Stop>
    ensures { (T : Tables) (w : World) → Told (λ o. o) result (state_of T entered.new objects.new) w (meaning.new_local number (shape_type T shape) (state_of T entered.old objects.old) w) }
{
    bounded_local(number, shape, Bounds::None, entered, objects)
}

/// Whether it is the literal of this number in a function.
fn is_literal(literal: &Literal<'_>, function: &[u8], number: u32) -> bool
    ensures { result ≡ (bytes_eq literal.now.function.now function.now && (literal.now.number == number)) }
{
    literal.function == function && literal.number == number
}

/// The object of the literal of this number in a function, the one that was made last.
fn made_literal(literals: &[Literal<'_>], function: &[u8], number: u32) -> Option<usize>
    ensures { result ≡ found_literal (find (λ (x : Text). bytes_eq x.function function.now && (x.number == number)) (reverse (map literal_of literals.now))) }
{
    match literals.split_last() {
        None => None,
        Some((last, rest)) => {
            if is_literal(last, function, number) {
                Some(last.object)
            } else {
                made_literal(rest, function, number)
            }
        }
    }
}

/// The object of a literal is made. There is no room for one of 2 ^ 32 bytes.
fn new_literal<'a>(
    number: u32,
    bytes: &'a [u8],
    function: &'a [u8],
    objects: &mut Objects<'a>,
) -> Result<usize, Stop>
    ensures { (T : Tables) (e : Enter) (w : World) → Told (λ o. o) result (state_of T e objects.new) w (its_new_literal number bytes.now function.now (state_of T e objects.old) w) }
{
    let char = Shape {
        is_const: false,
        form: Form::Integer(Kind::Char),
    };
    match u32::try_from(bytes.len()) {
        Err(_) => Err(Stop::Memory),
        Ok(count) => match born(objects, char, Bounds::One(count), Storage::Literal(bytes)) {
            Err(stop) => Err(stop),
            Ok(object) => {
                objects.literals.push(Literal {
                    function,
                    number,
                    object,
                })?;
                Ok(object)
            }
        },
    }
}

/// The object of a string literal in the function that was entered: one for the whole run (2.5.4).
pub fn literal_object<'a>(
    number: u32,
    bytes: &'a [u8],
    entered: &Entered<'a>,
    objects: &mut Objects<'a>,
) -> Result<usize, Stop>
    ensures { (T : Tables) (w : World) → Told (λ o. o) result (state_of T entered.now objects.new) w (meaning.literal_object number bytes.now (state_of T entered.now objects.old) w) }
{
    match made_literal(objects.literals.as_slice(), entered.name, number) {
        Some(object) => Ok(object),
        None => new_literal(number, bytes, entered.name, objects),
    }
}

/// The objects of static objects are made behind others, zeroed (8.4).
fn push_statics(
    alloc: Global,
    cells: &mut Vec<Cell<'_>>,
    statics: &[RunStatic],
) -> Result<(), AllocError>
    ensures { IfOk result (λ u. (T : Tables) → map (λ (c : Kept). object_of T (Some c)) cells.new.items ≡ map (λ (c : Kept). object_of T (Some c)) cells.old.items ++ map (λ (x : Static). zeroed_object [] (object_type T x.ty)) statics.now) }
{
    match statics.split_first() {
        None => Ok(()),
        Some((first, rest)) => {
            cells.push(Cell {
                shape: first.ty.shape,
                bounds: first.ty.bounds,
                storage: Storage::Permanent,
                log: Vec::new(alloc),
                is_gone: false,
            })?;
            push_statics(alloc, cells, rest)
        }
    }
}

/// What stands before a run: its static objects, zeroed, by their numbers (3.5, 8.4).
pub fn static_objects<'a>(alloc: Global, program: &Program) -> Result<Objects<'a>, AllocError>
    ensures { IfOk result (λ x. (T : Tables) (e : Enter) → state_of T e x ≡ record (first_state (program_of T program.now) e.depth) { frame = frame_of e }) }
{
    let mut cells = Vec::new(alloc);
    push_statics(alloc, &mut cells, program.statics.as_slice())?;
    Ok(Objects {
        alloc,
        cells,
        literals: Vec::new(alloc),
        reached: Vec::new(alloc),
    })
}
