ghost use Rattle.std.specs.Prelude.{◌≡◌, IfOk};
ghost use Rattle.cf_classes.specs.OwnedName as owned;
ghost use Rattle.cf_elab_objects.specs.Links.Known as known;
ghost use Rattle.cf_elab_objects.specs.Links.Shut as shut;

use cf_base::{Memory, Name};
use itoa::Buffer;
use std::alloc::Global;

/// The link name of an object with linkage: its name, or another where the C knows the name without a declaration (3.3).
#[tactic(auto, using(crate::proofs::LinksLaws::ObjectLaws::variable_laws))]
pub fn variable_link(alloc: Global, name: &[u8]) -> Result<Name, Memory>
    ensures { IfOk result (λ link. link ≡ shut.variable_link name.now) }
{
    if is_known(name) {
        let mut text = Vec::from_slice(alloc, name)?;
        text.extend_from_slice(b"__g")?;
        Ok(Name::from_vec(text))
    } else {
        let link = Name::from_slice(alloc, name)?;
        Ok(link)
    }
}

/// Whether the C knows the name without a declaration.
#[tactic(auto, unfolding(crate::specs::Links::Known::is_known))]
fn is_known(name: &[u8]) -> bool
    ensures { result ≡ known.is_known name.now }
{
    name == b"putchar".as_slice()
        || name == b"getchar".as_slice()
        || name == b"exit".as_slice()
        || name == b"malloc".as_slice()
        || name == b"free".as_slice()
        || name == b"atexit".as_slice()
        || name == b"main".as_slice()
}

/// The link name of the static object of this name that has this number in a function (6.7).
pub fn local_static_name(
    alloc: Global,
    name: &[u8],
    number: u32,
    function: &[u8],
) -> Result<Name, Memory>
    ensures { IfOk result (λ link. link ≡ owned.local_static_name name.now number function.now) }
{
    let mut text = Vec::from_slice(alloc, name)?;
    text.extend_from_slice(b"__L")?;
    text.extend_from_slice(Buffer::new().format(number).as_bytes())?;
    text.extend_from_slice(b"__")?;
    text.extend_from_slice(function)?;
    Ok(Name::from_vec(text))
}

/// The link name of the temporary that a static reference binds (8.4.3).
pub fn temporary_name(alloc: Global, reference: &[u8]) -> Result<Name, Memory>
    ensures { IfOk result (λ link. link ≡ owned.temporary_name reference.now) }
{
    let mut text = Vec::from_slice(alloc, reference)?;
    text.extend_from_slice(b"__t")?;
    Ok(Name::from_vec(text))
}
