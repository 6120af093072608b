ghost use Rattle.std.specs.Prelude.{◌≡◌, None};
ghost use Rattle.cc_whole_mean.specs.Types as types;
ghost use Rattle.cc_whole_mean.specs.Scope.{Scope};
ghost use Rattle.cc_whole_start.specs.Table.{scope_of as file_scope};
ghost use Rattle.cc_whole_step.specs.Frames.{last_local, last_parameter, layer, look_in, scope_over};

use crate::mark::Mark;
use cc_whole::{CLocal, CLocalType, CParameter};
use cc_whole_eval::{Names, scalar_of};
use cc_whole_mean::{Named, Shape};
use cc_whole_start::FileNames;

/// The names of a program's file, and what remains to be done, which tells the names in scope.
#[derive(Drop)]
pub struct Frames<'a> {
    pub file: FileNames<'a>,
    pub marks: Vec<Mark<'a>>,
}

/// What a mark says of a name.
#[derive(Clone, Copy, Debug, PartialEq, Eq)]
pub enum Look {
    Here(Named),
    /// The name may stand further down.
    Below,
    /// The name stands in the file or nowhere.
    File,
}

/// What a name of a local of this type stands for.
fn local_shape(ty: CLocalType) -> Shape
    ensures { result ≡ types.local_shape ty }
{
    match ty {
        CLocalType::Scalar(ty) => Shape::Single(scalar_of(ty)),
        CLocalType::Ints(_) => Shape::Array,
    }
}

/// The last local of a name, where blocks of locals stand from this number on.
fn local_named(locals: &[CLocal], first: u32, name: &[u8]) -> Option<Named>
    ensures { result ≡ last_local None first locals.now name.now }
{
    let mut found = None;
    for (i, local) in locals.iter().enumerate() {
        if name == local.name.as_slice() {
            found = Some(Named::Variable(first as usize + i, local_shape(local.ty)));
        }
    }
    found
}

/// The last parameter of a name, where blocks of parameters stand from this number on.
fn parameter_named(parameters: &[CParameter], first: u32, name: &[u8]) -> Option<Named>
    ensures { result ≡ last_parameter None first parameters.now name.now }
{
    let mut found = None;
    for (i, parameter) in parameters.iter().enumerate() {
        if name == parameter.name.as_slice() {
            found = Some(Named::Variable(
                first as usize + i,
                Shape::Single(scalar_of(parameter.ty)),
            ));
        }
    }
    found
}

fn look_on(mark: &Mark<'_>, name: &[u8]) -> Look
    ensures { (file scope : Scope) → layer file mark.now scope name.now ≡ look_in result (file name.now) (scope name.now) }
{
    match mark {
        Mark::Locals(locals, first) => match local_named(locals, *first, name) {
            Some(named) => Look::Here(named),
            None => Look::Below,
        },
        Mark::Parameters(parameters, first, _) => match parameter_named(parameters, *first, name) {
            Some(named) => Look::Here(named),
            None => Look::File,
        },
        Mark::Rest(_, _) => Look::Below,
        Mark::Items(_, _) => Look::Below,
        Mark::Turn(_, _) => Look::Below,
        Mark::Switch => Look::Below,
        Mark::Back(_) => Look::Below,
    }
}

/// What a name stands for above these marks.
fn named_above(file: &FileNames<'_>, marks: &[Mark<'_>], name: &[u8]) -> Option<Named>
    ensures { result ≡ scope_over (file_scope file.now) (file_scope file.now) marks.now name.now }
{
    let mut above = marks.len();
    while above > 0 {
        above -= 1;
        match look_on(&marks[above], name) {
            Look::Here(named) => return Some(named),
            Look::File => return file.named(name),
            Look::Below => {}
        }
    }
    file.named(name)
}

impl<'a> Names for Frames<'a> {
    ghost use Rattle.cc_whole_step.specs.Frames.{scope_of};

    ghost scope = { λ f. scope_of f };

    fn named(&self, name: &[u8]) -> Option<Named> {
        named_above(&self.file, self.marks.as_slice(), name)
    }
}
