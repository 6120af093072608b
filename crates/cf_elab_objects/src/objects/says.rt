ghost use Rattle.std.specs.Prelude.{◌≡◌, ◌&&◌, not, IfOk};
ghost use Rattle.cf_elab.specs.Objects as objects;
ghost use Rattle.cf_elab_env.specs.Holds.{IsType};
ghost use Rattle.cf_elab_env.specs.Seen.{home_seen, object_seen};
ghost use Rattle.cf_elab_objects.specs.Objects.Seen.{says_seen};
ghost use Rattle.cf_elab_objects.specs.Objects.Shut as shut;

use cf_base::{Items, Memory, Name};
use cf_elab_env::{Env, Home, Object};
use cf_types::TyId;
use std::alloc::Global;

/// How a declaration says its object's name (3.3).
#[derive(Debug, Drop)]
pub struct Says {
    pub name: Name,
    /// The byte place of the name.
    pub at: u32,
    pub ty: TyId,
    /// Whether it says `static`.
    pub is_static: bool,
    /// Whether it says `extern`.
    pub is_extern: bool,
    /// Whether it defines the object.
    pub defines: bool,
    /// Whether an initialiser stands behind it.
    pub is_initialised: bool,
}

impl Says {
    /// Whether the name is local to the file where nothing declared it before: where it says `static`, or is const and does not say `extern`.
    pub(crate) fn is_internal(&self, env: &Env) -> bool
        requires { IsType env.now.types self.now.ty }
        ensures { result ≡ objects.says_internal env.now (says_seen self.now) }
    {
        self.is_static || (env.is_const(self.ty) && !self.is_extern)
    }

    /// The object, where nothing declared it before, under its link name.
    pub(crate) fn new_object(&self, env: &Env, link: Name) -> Object
        requires known { IsType env.now.types self.now.ty }
        requires link { link ≡ objects.variable_link self.now.name }
        ensures { object_seen result ≡ objects.new_object env.now (says_seen self.now) }
    {
        Object {
            ty: self.ty,
            home: Home::Static(link),
            number: None,
            at: self.at,
            is_defined: self.defines,
            is_internal: self.is_internal(env),
            is_extern: self.is_extern,
        }
    }

    /// Whether it may declare the object again: one with linkage, of the same type, that is not defined twice.
    #[tactic(auto, unfolding(crate::specs::Objects::Shut::may_declare_again))]
    pub(crate) fn may_declare_again(&self, object: &Object) -> bool
        ensures { result ≡ shut.may_declare_again (says_seen self.now) (object_seen object.now) }
    {
        is_static(&object.home) && object.ty == self.ty && !(object.is_defined && self.defines)
    }

    /// Whether it makes an external name internal.
    pub(crate) fn conflicts(&self, object: &Object) -> bool
        ensures { result ≡ objects.conflicts_linkage (says_seen self.now) (object_seen object.now) }
    {
        self.is_static && !object.is_internal
    }

    /// The object, declared once more.
    pub(crate) fn again(&self, alloc: Global, object: &Object) -> Result<Object, Memory>
        ensures { IfOk result (λ x. object_seen x ≡ objects.again (says_seen self.now) (object_seen object.now)) }
    {
        Ok(Object {
            ty: object.ty,
            home: copied_home(alloc, &object.home)?,
            number: object.number,
            at: object.at,
            is_defined: object.is_defined || self.defines,
            is_internal: object.is_internal,
            is_extern: object.is_extern || self.is_extern,
        })
    }
}

fn is_static(home: &Home) -> bool
    ensures { result ≡ objects.is_static_home (home_seen home.now) }
{
    matches!(home, Home::Static(_))
}

/// A copy of where an object is.
pub(crate) fn copied_home(alloc: Global, home: &Home) -> Result<Home, Memory>
    ensures { IfOk result (λ h. home_seen h ≡ home_seen home.now) }
{
    match home {
        Home::Local(number) => Ok(Home::Local(*number)),
        Home::Static(name) => Ok(Home::Static(Items::from_slice(alloc, name.as_slice())?)),
    }
}
