ghost use Rattle.std.specs.Prelude.{◌≡◌};
ghost use Rattle.cf_elab.specs.Declaration as declaration;
ghost use Rattle.cf_elab.specs.Specifiers as spec;

use crate::said::gathered::Gathered;

/// The first of two byte places, where there is one.
pub fn earlier(left: Option<u32>, right: Option<u32>) -> Option<u32>
    ensures { result ≡ spec.earlier left right }
{
    match (left, right) {
        (Some(a), Some(b)) => Some(if a <= b { a } else { b }),
        (Some(a), None) => Some(a),
        (None, b) => b,
    }
}

/// The first byte place in the text that is at fault among the specifiers of a declarator (7.1), which is K24: `virtual` and `friend` outside of
/// a class, `inline` on what is no function, `auto` and `register` in a file or on a function, `static` on a function in a block, and `at`, the
/// declarator's own, where there is no specifier and no function.
pub fn conflict(in_file: bool, is_function: bool, at: u32, gathered: &Gathered) -> Option<u32>
    ensures { result ≡ declaration.conflict in_file is_function at gathered.now }
{
    let general = earlier(
        gathered.conflict,
        earlier(gathered.virtual_at, gathered.friend_at),
    );
    let inlined = if is_function && !gathered.is_typedef() {
        None
    } else {
        gathered.inline_at
    };
    let automatic = if in_file || is_function {
        gathered.automatic_at()
    } else {
        None
    };
    let static_in_block = if is_function && gathered.is_static() && !in_file {
        gathered.storage_at()
    } else {
        None
    };
    let empty = if gathered.is_empty && !is_function {
        Some(at)
    } else {
        None
    };
    earlier(
        general,
        earlier(inlined, earlier(automatic, earlier(static_in_block, empty))),
    )
}
