ghost use Rattle.std.specs.Prelude.{◌≡◌, ℕ, List, ◌+◌, ◌-◌, ◌<◌, ◌^◌, OnOk, OnErr, if◌then◌else◌};
ghost use Rattle.std.specs.Borrow.{Bor};
ghost use Rattle.cf_name_list.specs.Names.{same_name, counted};

use cf_base::Memory;
use std::collections::HashMap;

/// How often a name was counted.
pub fn count(counts: &HashMap<&[u8], usize>, name: &[u8]) -> usize
    ensures { result ≡ counted counts.now name.entry }
{
    counts.get(name).copied().unwrap_or(0)
}

/// Counts a name once more.
pub fn raise<'a>(counts: &mut HashMap<&'a [u8], usize>, name: &'a [u8]) -> Result<(), Memory>
    requires { counted counts.old name + 1 < 2 ^ 64 }
    ensures ok { (q : Bor (List ℕ)) → OnOk result (counted counts.new q ≡ (if same_name name.entry q then counted counts.old q + 1 else counted counts.old q)) }
    ensures err { (q : Bor (List ℕ)) → OnErr result (counted counts.new q ≡ counted counts.old q) }
{
    let count = counts.get(name).copied().unwrap_or(0);
    counts.insert(name, count + 1)?;
    Ok(())
}

/// Counts a name once less.
pub fn lower(counts: &mut HashMap<&[u8], usize>, name: &[u8])
    requires { 0 < counted counts.old name }
    ensures { (q : Bor (List ℕ)) → counted counts.new q ≡ (if same_name name.entry q then counted counts.old q - 1 else counted counts.old q) }
{
    if let Some(count) = counts.get_mut(name) {
        *count -= 1;
    }
}
