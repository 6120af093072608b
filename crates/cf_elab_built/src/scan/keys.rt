ghost use Rattle.std.specs.Prelude.{◌≡◌, ◌++◌, codes, map, IfOk};
ghost use Rattle.cf_classes.specs.LinkName.{item, operator_codes};
ghost use Rattle.cf_elab.specs.Names as names;

use cf_base::{Memory, Name};
use cf_syntax::Last;
use std::alloc::Global;

/// How a name is looked up: an identifier by its own bytes, and an operator by the piece of its link name. A destructor goes by `__dt`,
/// and all conversions by `__op` (12.3.2, 12.4, 13.4).
pub fn key(alloc: Global, last: &Last) -> Result<Name, Memory>
    ensures { IfOk result (λ name. name ≡ names.key last.now) }
{
    match last {
        Last::Ident(name) => Name::from_slice(alloc, name.as_slice()),
        Last::Destructor(_) => Name::from_slice(alloc, b"__dt"),
        Last::Operator(number) => operator_key(alloc, *number),
        Last::Conversion(_, _) => Name::from_slice(alloc, b"__op"),
    }
}

fn operator_key(alloc: Global, number: u8) -> Result<Name, Memory>
    ensures { IfOk result (λ name. name ≡ codes "__" ++ item operator_codes number) }
{
    let mut bytes = Vec::from_slice(alloc, b"__")?;
    bytes.extend_from_slice(piece(number))?;
    Ok(Name::from_vec(bytes))
}

/// The piece of an operator's link name, by the operator's number.
fn piece(number: u8) -> &'static [u8]
    ensures { result.now ≡ item operator_codes number }
{
    piece_in(&PIECES, usize::from(number)).as_bytes()
}

fn piece_in(pieces: &[&'static str], number: usize) -> &'static str
    ensures { result.now ≡ item (map (λ piece. piece.now) pieces.now) number }
{
    match pieces.get(number) {
        Some(piece) => piece,
        None => "",
    }
}

/// The pieces of the operators' link names, by the operators' numbers.
const PIECES: [&str; 38] = [
    "ml", "dv", "md", "pl", "mi", "ls", "rs", "eq", "ne", "lt", "gt", "le", "ge", "ad", "or", "er",
    "aa", "oo", "nt", "co", "pp", "mm", "as", "rf", "rm", "cl", "vc", "cm", "apl", "ami", "amu",
    "adv", "amd", "als", "ars", "aad", "aor", "aer",
];
