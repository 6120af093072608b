ghost use Rattle.std.specs.Prelude.{◌≡◌, ◌<◌, if◌then◌else◌, codes, length, All, OnOk};
ghost use Rattle.cf_elab_env.specs.Holds.{IsType};
ghost use Rattle.cf_elab_objects.specs.Links.Text.{added};
ghost use Rattle.cf_elab_objects.specs.Links.Shut as shut;

use crate::links::kinds::kind_code;
use crate::links::text::Text;
use cf_base::Memory;
use cf_elab_env::Env;
use cf_types::{Ty, TyId};

/// Adds the code of a type.
#[cycle(codes)]
#[tactic(auto, using(crate::proofs::LinksLaws::CodeLaws::code_laws))]
pub(crate) fn add_code(text: &mut Text, env: &Env, ty: TyId) -> Result<(), Memory>
    requires { IsType env.now.types ty }
    ensures { OnOk result (text.new ≡ added (shut.type_code env.now ty) text.old) }
{
    env.holds();
    if text.is_long() {
        return Ok(());
    }
    match env.type_at(ty) {
        Ty::Void => {
            text.add(b"v")?;
            Ok(())
        }
        Ty::Int(kind) => {
            text.add(kind_code(kind))?;
            Ok(())
        }
        Ty::Enum(number) => {
            add_enum(text, env, number)?;
            Ok(())
        }
        Ty::Ptr(to) => {
            text.add(b"P")?;
            add_code(text, env, to)?;
            Ok(())
        }
        Ty::Ref(to) => {
            text.add(b"R")?;
            add_code(text, env, to)?;
            Ok(())
        }
        Ty::Const(of) => {
            text.add(b"C")?;
            add_code(text, env, of)?;
            Ok(())
        }
        Ty::Array(element, count) => {
            add_bound(text, count)?;
            add_code(text, env, element)?;
            Ok(())
        }
        Ty::Fun(fun) => {
            let fun = env.types().get_fun(fun);
            text.add(function_head(fun.is_const))?;
            add_parameters(text, env, ty)?;
            text.add(b"_")?;
            add_code(text, env, fun.result)?;
            Ok(())
        }
        Ty::Class(_) | Ty::MemData(_, _) | Ty::MemFun(_, _) => Ok(()),
    }
}

/// Adds the codes of the parameters of a function type, one behind the other.
#[cycle(codes)]
#[tactic(auto, using(crate::proofs::LinksLaws::CodeLaws::parameter_laws))]
pub(crate) fn add_parameters(text: &mut Text, env: &Env, ty: TyId) -> Result<(), Memory>
    requires { IsType env.now.types ty }
    ensures { OnOk result (text.new ≡ added (shut.type_codes env.now (shut.params_at env.now.types ty)) text.old) }
{
    for param in params_at(env, ty) {
        add_code(text, env, *param)?;
    }
    Ok(())
}

/// The parameters of a function type, whose types stand before it; of another type there are none.
#[tactic(auto, using(crate::proofs::LinksLaws::ParamLaws::param_laws))]
pub(crate) fn params_at(env: &Env, ty: TyId) -> &[TyId]
    requires { IsType env.now.types ty }
    ensures value { result.now ≡ shut.params_at env.now.types ty }
    ensures before { All (λ p. p < ty) result.now }
{
    env.holds();
    match env.type_at(ty) {
        Ty::Fun(fun) => env.types().get_fun(fun).params.as_slice(),
        _ => &[],
    }
}

/// What stands before the parameters of a function type.
fn function_head(is_const: bool) -> &'static [u8]
    ensures { result.now ≡ (if is_const then codes "CF" else codes "F") }
{
    if is_const { b"CF" } else { b"F" }
}

/// Adds what stands before the elements' type in the code of an array.
#[tactic(auto, using(crate::proofs::LinksLaws::TextLaws::text_laws))]
fn add_bound(text: &mut Text, count: u32) -> Result<(), Memory>
    ensures { OnOk result (text.new ≡ added (shut.bound_code count) text.old) }
{
    text.add(b"A")?;
    text.add_number(count as usize)?;
    text.add(b"_")?;
    Ok(())
}

/// Adds the name of an enumeration.
#[tactic(auto, using(crate::proofs::LinksLaws::EnumLaws::enum_laws))]
fn add_enum(text: &mut Text, env: &Env, number: u32) -> Result<(), Memory>
    requires { number < length env.now.classes.enums }
    ensures { OnOk result (text.new ≡ added (shut.enum_code env.now number) text.old) }
{
    env.holds();
    let name = env.classes().enum_label(number).name.as_slice();
    add_label(text, name)?;
    Ok(())
}

/// Adds what an enumeration is called. One without a name adds nothing.
#[tactic(auto, using(crate::proofs::LinksLaws::EnumLaws::label_laws))]
fn add_label(text: &mut Text, name: &[u8]) -> Result<(), Memory>
    ensures { OnOk result (text.new ≡ added (shut.label_code name.now) text.old) }
{
    if !name.is_empty() {
        text.add_counted(name)?;
    }
    Ok(())
}
