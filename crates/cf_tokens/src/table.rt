ghost use Rattle.std.specs.Prelude.{◌≡◌, ◌<◌, length, map, IfSome};
ghost use Rattle.std.specs.List.{position, list_any};
ghost use Rattle.std.specs.Str.{bytes_eq};
ghost use Rattle.cf_tokens.specs.Table.{index_in, stands_in};

/// The number of the first entry of a table that is spelled so, if there is one.
pub(crate) fn index_in(table: &[&'static str], spelling: &[u8]) -> Option<usize>
    ensures number { result ≡ index_in (map (λ entry. entry.now) table.now) spelling.now }
    ensures within { IfSome result (λ number. number < length table.now) }
{
    position(table, spelling)
}

fn position(table: &[&'static str], spelling: &[u8]) -> Option<usize>
    ensures number { result ≡ position (λ entry. bytes_eq entry.now spelling.now) table.now }
    ensures within { IfSome result (λ number. number < length table.now) }
{
    table.iter().position(|entry| entry.as_bytes() == spelling)
}

/// Whether an entry of a table is spelled so.
pub(crate) fn stands_in(table: &[&'static str], spelling: &[u8]) -> bool
    ensures { result ≡ stands_in (map (λ entry. entry.now) table.now) spelling.now }
{
    any(table, spelling)
}

fn any(table: &[&'static str], spelling: &[u8]) -> bool
    ensures { result ≡ list_any (λ entry. bytes_eq entry.now spelling.now) table.now }
{
    table.iter().any(|entry| entry.as_bytes() == spelling)
}
