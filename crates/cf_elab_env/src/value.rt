ghost use Rattle.std.specs.Prelude.{◌≡◌, IfOk};
ghost use Rattle.cf_elab.specs.Operand as operand;

use cf_base::{Boxed, Memory};
use cf_core::Core;
use cf_types::TyId;
use std::alloc::Global;
use std::marker::Model;

/// A value, or an lvalue as a place (3.7).
#[derive(Drop)]
pub struct Value {
    at: u32,
    node: Boxed<Core>,
    ty: TyId,
    is_lvalue: bool,
    number: Option<i64>,
    is_fixed: bool,
}

impl Model for Value {
    ghost use Rattle.std.specs.Coded.{codes};
    ghost use Rattle.cf_core.specs.contracts.node.Core as core;
    ghost use Rattle.cf_elab.specs.Operand.{Value as Elaborated};

    ghost Value = { Elaborated };

    ghost coded = { Prim.hlevel (codes, core.the_row.coded) };

    ghost view = { λ v. record { at = v.at; node = v.node; type = v.ty; is_lvalue = v.is_lvalue; number = v.number; is_fixed = v.is_fixed } };
}

impl Value {
    /// A value that is no lvalue and no constant.
    pub fn computed(at: u32, node: Boxed<Core>, ty: TyId) -> Value
        ensures { result ≡ operand.computed at node ty }
    {
        Value {
            at,
            node,
            ty,
            is_lvalue: false,
            number: None,
            is_fixed: false,
        }
    }

    /// The place of an object or a function. `is_fixed` says whether it is static (8.4).
    pub fn place(at: u32, node: Boxed<Core>, ty: TyId, is_fixed: bool) -> Value
        ensures { result ≡ operand.place_of at node ty is_fixed }
    {
        Value {
            at,
            node,
            ty,
            is_lvalue: true,
            number: None,
            is_fixed,
        }
    }

    /// An integer constant of this type (5.19).
    pub fn constant(alloc: Global, at: u32, number: i64, ty: TyId) -> Result<Value, Memory>
        ensures { IfOk result (λ v. v ≡ operand.constant at number ty) }
    {
        let node = Boxed::new(alloc, Core::Number { at, value: number })?;
        Ok(Value {
            at,
            node,
            ty,
            is_lvalue: false,
            number: Some(number),
            is_fixed: false,
        })
    }

    /// The byte place of its node.
    pub fn at(&self) -> u32
        ensures { result ≡ self.now.at }
    {
        self.at
    }

    /// Its node in the core.
    pub fn node(&self) -> &Core
        ensures { result.now ≡ self.now.node }
    {
        self.node.get()
    }

    /// Its node in the core, taken out.
    pub fn into_node(self) -> Boxed<Core>
        ensures { result ≡ self.node }
    {
        let Value { node, .. } = self;
        node
    }

    pub fn ty(&self) -> TyId
        ensures { result ≡ self.now.type }
    {
        self.ty
    }

    /// Whether it is a place.
    pub fn is_lvalue(&self) -> bool
        ensures { result ≡ self.now.is_lvalue }
    {
        self.is_lvalue
    }

    /// Its value, where it is a constant expression (5.19).
    pub fn number(&self) -> Option<i64>
        ensures { result ≡ self.now.number }
    {
        self.number
    }

    /// Whether it is the place or the address of a static object or function, or of a part of one (8.4).
    pub fn is_fixed(&self) -> bool
        ensures { result ≡ self.now.is_fixed }
    {
        self.is_fixed
    }

    /// The same value with this number.
    pub fn with_number(self, number: Option<i64>) -> Value
        ensures { result ≡ record self { number = number } }
    {
        Value { number, ..self }
    }

    /// The same value as one of this type.
    pub fn with_type(self, ty: TyId) -> Value
        ensures { result ≡ record self { type = ty } }
    {
        Value { ty, ..self }
    }

    /// The same value, with whether it is the place or the address of something static.
    pub fn with_fixed(self, is_fixed: bool) -> Value
        ensures { result ≡ record self { is_fixed = is_fixed } }
    {
        Value { is_fixed, ..self }
    }

    /// The same value, as a place or not.
    pub fn with_lvalue(self, is_lvalue: bool) -> Value
        ensures { result ≡ record self { is_lvalue = is_lvalue } }
    {
        Value { is_lvalue, ..self }
    }

    /// The same value at another byte place.
    pub fn with_at(self, at: u32) -> Value
        ensures { result ≡ record self { at = at } }
    {
        Value { at, ..self }
    }

    /// The same value as that of this node.
    pub fn with_node(self, node: Boxed<Core>) -> Value
        ensures { result ≡ record self { node = node } }
    {
        Value { node, ..self }
    }
}
