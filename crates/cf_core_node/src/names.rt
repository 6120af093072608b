ghost use Rattle.std.specs.Prelude.{◌≡◌, IfOk, bytes_eq};
ghost use Rattle.std.specs.List.{list_any};
ghost use Rattle.cf_core.specs.Joined.{in_file, name_in};

use cf_base::{Items, Memory, Name};
use std::alloc::Global;

/// Whether a name is among these.
pub fn is_among(names: &[Name], name: &[u8]) -> bool
    ensures { result ≡ list_any (bytes_eq name.now) names.now }
{
    names.iter().any(|other| name == other.as_slice())
}

/// What a name that is local to the first file of a program goes by (3.3).
fn in_first_file(alloc: Global, name: &[u8]) -> Result<Name, Memory>
    ensures { IfOk result (λ made. made ≡ in_file 1 name.now) }
{
    let mut bytes = Vec::from_slice(alloc, name)?;
    bytes.extend_from_slice(b"__u1")?;
    Ok(Items::from_vec(bytes))
}

/// The link name in a program of one file, where these names are local to the file.
pub fn linked(alloc: Global, own: &[Name], name: &[u8]) -> Result<Name, Memory>
    ensures { IfOk result (λ made. made ≡ name_in 1 own.now name.now) }
{
    if is_among(own, name) {
        in_first_file(alloc, name)
    } else {
        Name::from_slice(alloc, name)
    }
}
