ghost use Rattle.std.specs.Prelude.{◌≡◌, ◌≢◌, ◌≤◌, ◌<◌, ℕ, List, Some, vec_len, find, bytes_eq, string_bytes, option_map, IfOk, OnOk, OnErr, OnSome, IfNone};
ghost use Rattle.std.specs.Option.{option_copied};
ghost use Rattle.cf_base.specs.Held.{held};
ghost use Rattle.cf_base.specs.Disk.{SameElsewhere};

use crate::files::ReadErr;
use crate::memory::Memory;
use std::alloc::Global;

/// The first file of this name.
pub fn find_file<'a>(files: &'a [(String, Vec<u8>)], name: &str) -> Option<&'a (String, Vec<u8>)>
    ensures { option_copied result ≡ find (λ file. bytes_eq (string_bytes file.0) name.now) files.now }
{
    files.iter().find(|file| file.0.as_str() == name)
}

/// Puts a file in front of all others, so that it is found by its name.
pub fn put_file(
    alloc: Global,
    files: &mut Vec<(String, Vec<u8>)>,
    name: &str,
    bytes: &[u8],
) -> Result<(), Memory>
    ensures here { OnOk result (held files.new.items name.now ≡ Some bytes.now) }
    ensures elsewhere { OnOk result (SameElsewhere name.now (held files.old.items) (held files.new.items)) }
    ensures err { OnErr result (files.new.items ≡ files.old.items) }
{
    let name = String::from_str(alloc, name)?;
    let bytes = Vec::from_slice(alloc, bytes)?;
    files.insert(0, (name, bytes))?;
    Ok(())
}

/// A copy of these bytes, of which at most `cap` are wanted.
pub fn copy_file(alloc: Global, bytes: &Vec<u8>, cap: u32) -> Result<Vec<u8>, ReadErr>
    ensures ok { IfOk result (λ copy. (copy.items ≡ bytes.now.items) × (vec_len copy ≤ cap)) }
    ensures too_long { result ≡ Err ReadErr.TooLong → cap < vec_len bytes.now }
    ensures not_failed { result ≢ Err ReadErr.Failed }
{
    if bytes.len() > cap as usize {
        return Err(ReadErr::TooLong);
    }
    Ok(Vec::from_slice(alloc, bytes)?)
}
