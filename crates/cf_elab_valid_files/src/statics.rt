//! Static objects and objects with linkage in the core that elaboration makes: laws over `cf_elab_valid` and `cf_elab_valid_objects`.
//!
//! A name that is declared with linkage stands for an object of its type (`specs/Linked`); a static object's initialiser is typed without locals, and
//! where it is not constant the function that owns it reaches it. `specs/Laws` says it of the file, of functions, and of arrays whose initialiser
//! gives the bound.

mod laws;

pub use laws::statics_are_valid;
