//! Files as elaboration makes them, loaded and run.

ghost use Rattle.std.specs.Prelude.{◌≡◌, IfOk};
ghost use Rattle.cf_core_tried.specs.Files.{returns_seven, main_of as its_main, seven as its_file};

use cf_base::{Boxed, Items, Kind, MemSink, MemSource, Memory, Name};
use cf_classes::Classes;
use cf_core::{Core, CoreFn, CoreUnit, Role};
use cf_core_drive::{Driven, End};
use cf_core_go::run_unit;
use cf_core_objects::Integer;
use cf_core_run::Limits;
use cf_types::{Ty, TyId, Types};
use std::alloc::Global;
use std::process::Abort;
use std::test::Fail;

/// `{return 7;}`
fn body(alloc: Global) -> Result<Boxed<Core>, Memory>
    ensures { IfOk result (λ b. b ≡ returns_seven) }
{
    let value = Boxed::new(alloc, Core::Number { at: 18, value: 7 })?;
    let value = Some(value);
    let mut statements = Items::new(alloc);
    statements.push(Core::Return { at: 11, value })?;
    Boxed::new(alloc, Core::Block { at: 10, statements })
}

/// `int main(){return 7;}`
fn main_of(alloc: Global, int: TyId) -> Result<CoreFn, Memory>
    ensures { IfOk result (λ f. f ≡ its_main int returns_seven) }
{
    let name = Name::from_slice(alloc, b"__main".as_slice())?;
    let body = body(alloc)?;
    Ok(CoreFn {
        name,
        role: Role::Plain,
        result: int,
        params: Items::new(alloc),
        locals: Items::new(alloc),
        body: body.into_inner(),
        is_shared: false,
        is_local: false,
    })
}

/// The file that has that alone.
fn seven(alloc: Global) -> Result<CoreUnit, Memory>
    ensures { IfOk result (λ unit. unit ≡ its_file) }
{
    let mut types = Types::new(alloc);
    let int = types.intern(Ty::Int(Kind::Int))?;
    let mut functions = Items::new(alloc);
    functions.push(main_of(alloc, int)?)?;
    Ok(CoreUnit::new(types, Classes::new(alloc), functions, Items::new(alloc)))
}

/// It is run with so many ticks, and comes to this.
fn comes_to(rt: &impl Abort, alloc: Global, ticks: u64, driven: Driven) -> Result<(), Fail> {
    let unit = seven(alloc)?;
    let limits = Limits { ticks, depth: 1 };
    let mut input = MemSource::new(Vec::new(alloc), Vec::new(alloc));
    let mut out = MemSink::new(alloc, 0, Vec::new(alloc))?;
    let found = run_unit(alloc, &unit, limits, &mut input, &mut out)?;
    assert!(rt; found == driven);
    Ok(())
}

#[test]
fn whole_run(rt: HostRuntime) -> Result<(), Fail> {
    let end = End::Ended(Integer::new(7));
    comes_to(&rt, rt.alloc(), 1, Driven { end, entered: 1 })
}

#[test]
fn no_tick(rt: HostRuntime) -> Result<(), Fail> {
    let end = End::Ticks;
    comes_to(&rt, rt.alloc(), 0, Driven { end, entered: 0 })
}
