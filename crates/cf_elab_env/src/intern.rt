ghost use Rattle.std.specs.Prelude.{◌≡◌, ℕ, ◌<◌, length, IfOk, OnOk, IsTrue, All, slice_get, Some};
ghost use Rattle.cf_types.specs.Table.{Names, AreParameters, fun_parts, is_normal, passes, is_parameter, takes_const};
ghost use Rattle.cf_convert.specs.Constness.{type_at};
ghost use Rattle.cf_elab.specs.Answer.{Made};
ghost use Rattle.cf_elab.specs.Operand.{sort_of, integral};
ghost use Rattle.cf_elab_env.specs.Holds.{Grows, EnumGiven, IsFunctionSort, IsType, without_class};
ghost use Rattle.cf_elab_env.specs.Shut as shut;

use crate::env::Env;
use cf_base::{Items, Kind, Memory};
use cf_types::{Fun, FunId, Ty, TyId};

impl Env {
    /// The number of a type, which the table has afterwards. Const stands in it only where it may (3.6).
    pub fn intern(&mut self, ty: Ty) -> Result<TyId, Memory>
        requires known { Names self.old.types.funs (length self.old.types.types) (length self.old.types.funs) ty }
        requires normal { IsTrue (is_normal self.old.types.types ty) }
        requires no_class { IsTrue (without_class ty) }
        requires enums { EnumGiven (length self.old.classes.enums) ty }
        ensures made { IfOk result (λ t. shut.intern ty self.old ≡ Made t self.new) }
        ensures found { IfOk result (λ t. slice_get self.new.types.types t ≡ Some ty) }
        ensures known { IfOk result (λ t. IsType self.new.types t) }
        ensures grows { OnOk result (Grows self.old.types self.new.types) }
    {
        let id = self.types.intern(ty)?;
        let _place = id.number();
        Ok(id)
    }

    /// The number of a function type. Its parameters have their types as the type of a function has them (8.2.5).
    pub fn intern_fun(&mut self, fun: Fun) -> Result<FunId, Memory>
        requires known { All (λ t. IsType self.old.types t) (fun_parts fun) }
        requires parameters { AreParameters self.old.types.types fun.params }
        ensures made { IfOk result (λ f. shut.intern_fun fun self.old ≡ Made f self.new) }
        ensures found { IfOk result (λ f. slice_get self.new.types.funs f ≡ Some fun) }
        ensures grows { OnOk result (Grows self.old.types self.new.types) }
    {
        let id = self.types.intern_fun(fun)?;
        let _place = id.number();
        Ok(id)
    }

    /// The number of an integer type.
    #[tactic(auto, using(crate::proofs::Making::of_kind_made, crate::proofs::Making::names_int, crate::proofs::Making::sort_int))]
    pub fn of_kind(&mut self, kind: Kind) -> Result<TyId, Memory>
        ensures made { IfOk result (λ t. shut.of_kind kind self.old ≡ Made t self.new) }
        ensures sort { IfOk result (λ t. sort_of self.new.types t ≡ integral kind) }
        ensures known { IfOk result (λ t. IsType self.new.types t) }
        ensures grows { OnOk result (Grows self.old.types self.new.types) }
    {
        let id = self.intern(Ty::Int(kind))?;
        Ok(id)
    }

    #[tactic(auto, using(crate::proofs::Making::int_made))]
    pub fn int(&mut self) -> Result<TyId, Memory>
        ensures made { IfOk result (λ t. shut.int self.old ≡ Made t self.new) }
        ensures sort { IfOk result (λ t. sort_of self.new.types t ≡ integral Kind.Int) }
        ensures known { IfOk result (λ t. IsType self.new.types t) }
        ensures grows { OnOk result (Grows self.old.types self.new.types) }
    {
        let id = self.of_kind(Kind::Int)?;
        Ok(id)
    }

    #[tactic(auto, using(crate::proofs::Making::unsigned_made))]
    pub fn unsigned_int(&mut self) -> Result<TyId, Memory>
        ensures made { IfOk result (λ t. shut.unsigned_int self.old ≡ Made t self.new) }
        ensures sort { IfOk result (λ t. sort_of self.new.types t ≡ integral Kind.UInt) }
        ensures known { IfOk result (λ t. IsType self.new.types t) }
        ensures grows { OnOk result (Grows self.old.types self.new.types) }
    {
        let id = self.of_kind(Kind::UInt)?;
        Ok(id)
    }

    #[tactic(auto, using(crate::proofs::Making::void_made, crate::proofs::Making::names_void))]
    pub fn void(&mut self) -> Result<TyId, Memory>
        ensures made { IfOk result (λ t. shut.void self.old ≡ Made t self.new) }
        ensures known { IfOk result (λ t. IsType self.new.types t) }
        ensures grows { OnOk result (Grows self.old.types self.new.types) }
    {
        let id = self.intern(Ty::Void)?;
        Ok(id)
    }

    #[tactic(auto, using(crate::proofs::Making::pointer_made, crate::proofs::Making::names_ptr))]
    pub fn pointer_to(&mut self, ty: TyId) -> Result<TyId, Memory>
        requires { IsType self.old.types ty }
        ensures made { IfOk result (λ t. shut.pointer_to ty self.old ≡ Made t self.new) }
        ensures found { IfOk result (λ t. slice_get self.new.types.types t ≡ Some (Ty.Ptr ty)) }
        ensures known { IfOk result (λ t. IsType self.new.types t) }
        ensures grows { OnOk result (Grows self.old.types self.new.types) }
    {
        let id = self.intern(Ty::Ptr(ty))?;
        Ok(id)
    }

    #[tactic(auto, using(crate::proofs::Making::reference_made, crate::proofs::Making::names_ref))]
    pub fn reference_to(&mut self, ty: TyId) -> Result<TyId, Memory>
        requires { IsType self.old.types ty }
        ensures made { IfOk result (λ t. shut.reference_to ty self.old ≡ Made t self.new) }
        ensures known { IfOk result (λ t. IsType self.new.types t) }
        ensures grows { OnOk result (Grows self.old.types self.new.types) }
    {
        let id = self.intern(Ty::Ref(ty))?;
        Ok(id)
    }

    /// The number of the type of so many elements.
    #[tactic(auto, using(crate::proofs::Making::array_made, crate::proofs::Making::names_array))]
    pub fn array_of(&mut self, element: TyId, count: u32) -> Result<TyId, Memory>
        requires { IsType self.old.types element }
        ensures made { IfOk result (λ t. shut.array_of element count self.old ≡ Made t self.new) }
        ensures known { IfOk result (λ t. IsType self.new.types t) }
        ensures grows { OnOk result (Grows self.old.types self.new.types) }
    {
        let id = self.intern(Ty::Array(element, count))?;
        Ok(id)
    }

    /// The const of a type: of an array that of its elements, of a const one const, and none of a reference or a function (7.1.6).
    pub fn const_of(&mut self, ty: TyId) -> Result<TyId, Memory>
        requires { IsType self.old.types ty }
        ensures made { IfOk result (λ t. shut.const_of ty self.old ≡ Made t self.new) }
        ensures known { IfOk result (λ t. IsType self.new.types t) }
        ensures grows { OnOk result (Grows self.old.types self.new.types) }
    {
        self.holds();
        match self.type_at(ty) {
            Ty::Array(element, count) => {
                let constant = self.const_of(element)?;
                let id = self.array_of(constant, count)?;
                Ok(id)
            }
            _ => self.const_on(ty),
        }
    }

    /// The const of a type that is no array.
    fn const_on(&mut self, ty: TyId) -> Result<TyId, Memory>
        requires known { IsType self.old.types ty }
        requires no_array { (u n : ℕ) → type_at self.old.types ty ≡ Ty.Array u n → ⊥ }
        ensures made { IfOk result (λ t. shut.const_of ty self.old ≡ Made t self.new) }
        ensures known { IfOk result (λ t. IsType self.new.types t) }
        ensures grows { OnOk result (Grows self.old.types self.new.types) }
    {
        self.holds();
        if self.types().takes_const(ty) {
            let id = self.intern(Ty::Const(ty))?;
            Ok(id)
        } else {
            Ok(ty)
        }
    }

    /// The const of a type, if const is asked for.
    #[tactic(auto, using(crate::proofs::Making::const_if_made, crate::proofs::Making::const_if_not))]
    pub fn const_if(&mut self, is_const: bool, ty: TyId) -> Result<TyId, Memory>
        requires { IsType self.old.types ty }
        ensures made { IfOk result (λ t. shut.const_if is_const ty self.old ≡ Made t self.new) }
        ensures known { IfOk result (λ t. IsType self.new.types t) }
        ensures grows { OnOk result (Grows self.old.types self.new.types) }
    {
        if is_const {
            let id = self.const_of(ty)?;
            Ok(id)
        } else {
            Ok(ty)
        }
    }

    /// The number of the type of a function (8.2.5).
    #[tactic(auto, using(crate::proofs::Making::sort_fun, crate::proofs::Making::function_made, crate::proofs::Making::names_fun))]
    pub fn function_type(
        &mut self,
        returned: TyId,
        params: Items<TyId>,
        is_const: bool,
    ) -> Result<TyId, Memory>
        requires known { IsType self.old.types returned }
        requires params_known { All (λ t. IsType self.old.types t) params }
        requires parameters { AreParameters self.old.types.types params }
        ensures made { IfOk result (λ t. shut.function_type returned params is_const self.old ≡ Made t self.new) }
        ensures sort { IfOk result (λ t. IsFunctionSort (sort_of self.new.types t)) }
        ensures known { IfOk result (λ t. IsType self.new.types t) }
        ensures grows { OnOk result (Grows self.old.types self.new.types) }
    {
        let fun = self.intern_fun(Fun {
            result: returned,
            params,
            is_const,
        })?;
        self.holds();
        let id = self.intern(Ty::Fun(fun))?;
        Ok(id)
    }
}
