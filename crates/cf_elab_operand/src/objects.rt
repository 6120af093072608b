ghost use Rattle.std.specs.Prelude.{◌≡◌, IfOk};
ghost use Rattle.cf_elab.specs.Names as names;
ghost use Rattle.cf_elab_env.specs.Holds.{IsObject, Known};
ghost use Rattle.cf_elab_env.specs.Seen.{home_seen, object_seen};
ghost use Rattle.cf_elab_operand.specs.Operands as operands;

use cf_base::{Boxed, Items, Memory};
use cf_core::Core;
use cf_elab_env::{Env, Home, Object, Value};
use cf_types::{Ty, TyId};

/// The place of an object by its name. A reference is another name for a place, which is not known before the run (8.4.3).
#[tactic(auto, using(crate::proofs::ObjectLaws::object_laws))]
pub(crate) fn object_value(env: &Env, at: u32, object: &Object) -> Result<Value, Memory>
    requires { IsObject env.now.types (object_seen object.now) }
    ensures made { IfOk result (λ v. v ≡ names.object_value env.now at (object_seen object.now)) }
    ensures known { IfOk result (λ v. Known env.now.types v) }
{
    env.holds();
    let node = home_node(env, at, object.ty, &object.home)?;
    match env.type_at(object.ty) {
        Ty::Ref(target) => Ok(Value::place(at, node, target, false)),
        _ => Ok(Value::place(at, node, object.ty, is_static(&object.home)).with_number(
            object.number,
        )),
    }
}

/// The node of the place where an object is.
fn home_node(env: &Env, at: u32, ty: TyId, home: &Home) -> Result<Boxed<Core>, Memory>
    ensures { IfOk result (λ n. n ≡ (names.home_node at ty (home_seen home.now)).node) }
{
    let node = match home {
        Home::Local(number) => Core::Local {
            at,
            number: *number,
        },
        Home::Static(name) => Core::Static {
            at,
            name: Items::from_slice(env.alloc(), name.as_slice())?,
            ty,
        },
    };
    let node = Boxed::new(env.alloc(), node)?;
    Ok(node)
}

fn is_static(home: &Home) -> bool
    ensures { result ≡ operands.is_static (home_seen home.now) }
{
    matches!(home, Home::Static(_))
}
