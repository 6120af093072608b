ghost use Rattle.std.specs.Prelude.{◌≡◌, ℕ, List, OnOk, OnErr, IsSome, if◌then◌else◌};
ghost use Rattle.std.specs.Borrow.{Bor};
ghost use Rattle.cf_name_places.specs.Places.{same_name, placed};

use cf_base::Memory;
use std::collections::HashMap;

/// Where a table says that the last one of a name stands.
pub fn latest(table: &HashMap<&[u8], Option<usize>>, name: &[u8]) -> Option<usize>
    ensures { result ≡ placed table.now name.entry }
{
    table.get(name).copied().unwrap_or(None)
}

/// Has a table say that the last one of a name stands here.
pub fn enter<'a>(
    table: &mut HashMap<&'a [u8], Option<usize>>,
    name: &'a [u8],
    place: Option<usize>,
) -> Result<(), Memory>
    ensures ok { (q : Bor (List ℕ)) → OnOk result (placed table.new q ≡ (if same_name name.entry q then place else placed table.old q)) }
    ensures err { (q : Bor (List ℕ)) → OnErr result (placed table.new q ≡ placed table.old q) }
{
    table.insert(name, place)?;
    Ok(())
}

/// Has a table that knows the name say that the last one of it stands here.
pub fn put_back(table: &mut HashMap<&[u8], Option<usize>>, name: &[u8], place: Option<usize>)
    requires { IsSome (placed table.old name) }
    ensures { (q : Bor (List ℕ)) → placed table.new q ≡ (if same_name name.entry q then place else placed table.old q) }
{
    if let Some(known) = table.get_mut(name) {
        *known = place;
    }
}
