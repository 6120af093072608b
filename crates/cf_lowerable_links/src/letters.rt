//! Names by their letters.

ghost use Rattle.std.specs.Prelude.{◌≡◌, ◌&&◌, nat_le, drop, bytes_eq, codes};
ghost use Rattle.std.specs.List.{list_any};
ghost use Rattle.cc_whole.specs.Known as known;
ghost use Rattle.cf_lower_program.specs.Names as spec;

fn is_digit(byte: u8) -> bool
    ensures { result ≡ (nat_le 48 byte && nat_le byte 57) }
{
    48 <= byte && byte <= 57
}

fn begins_with_digit(name: &[u8]) -> bool
    ensures { result ≡ spec.begins_with_digit name.now }
{
    match name {
        [] => false,
        [byte, ..] => is_digit(*byte),
    }
}

/// Whether a name begins with this and a digit.
fn is_own_name(front: &[u8], name: &[u8]) -> bool
    ensures { result ≡ spec.is_own_name front.now name.now }
{
    match front.split_first() {
        None => begins_with_digit(name),
        Some((byte, others)) => match name.split_first() {
            None => false,
            Some((first, rest)) => *byte == *first && is_own_name(others, rest),
        },
    }
}

fn all_digits(name: &[u8]) -> bool
    ensures { result ≡ spec.all_digits name.now }
{
    for byte in name {
        if !is_digit(*byte) {
            return false;
        }
    }
    true
}

/// What is behind three bytes.
fn behind_three(name: &[u8]) -> &[u8]
    ensures { result.now ≡ drop 3 name.now }
{
    match name {
        [_, _, _, rest @ ..] => rest,
        _ => &[],
    }
}

/// Whether it is `__u` and a number.
fn is_file_end(name: &[u8]) -> bool
    ensures { result ≡ (spec.is_own_name (codes "__u") name.now && spec.all_digits (drop 3 name.now)) }
{
    is_own_name(b"__u", name) && all_digits(behind_three(name))
}

/// Whether a name ends as what is local to a file is named in a program (3.3).
fn ends_as_file(name: &[u8]) -> bool
    ensures { result ≡ spec.ends_as_file name.now }
{
    let mut rest = name;
    while let [_, behind @ ..] = rest {
        if is_file_end(rest) {
            return true;
        }
        rest = behind;
    }
    false
}

/// Whether two names are the same.
pub(crate) fn is(name: &[u8], other: &[u8]) -> bool
    ensures { result ≡ bytes_eq name.now other.now }
{
    name == other
}

/// Whether it is one of the six library functions.
fn is_library(name: &[u8]) -> bool
    ensures { result ≡ known.is_library name.now }
{
    is(b"putchar", name)
        || (is(b"getchar", name)
            || (is(b"exit", name)
                || (is(b"malloc", name) || (is(b"free", name) || is(b"atexit", name)))))
}

fn is_helper(name: &[u8]) -> bool
    ensures { result ≡ known.is_helper name.now }
{
    name.starts_with(b"__h")
}

/// Whether a name is one of those that the C has for its own.
fn is_own(name: &[u8]) -> bool
    ensures { result ≡ list_any (λ front. spec.is_own_name front name.now) spec.own_fronts }
{
    is_own_name(b"__l", name)
        || (is_own_name(b"__i", name)
            || (is_own_name(b"__p", name)
                || (is_own_name(b"__f", name)
                    || (is_own_name(b"__w", name)
                        || (is_own_name(b"__v", name) || is_own_name(b"__s", name))))))
}

fn is_foreign(name: &[u8]) -> bool
    ensures { result ≡ spec.is_foreign name.now }
{
    !is_own(name)
        && !is_helper(name)
        && !is(name, b"__sti")
        && !is_library(name)
        && !is(name, b"main")
        && !ends_as_file(name)
}

fn begins(front: &[u8], name: &[u8]) -> bool
    ensures { result ≡ spec.begins front.now name.now }
{
    name.starts_with(front)
}

/// Whether `__` stands in a name.
fn has_two(name: &[u8]) -> bool
    ensures { result ≡ spec.has_two name.now }
{
    let mut rest = name;
    while let [_, behind @ ..] = rest {
        if begins(b"__", rest) {
            return true;
        }
        rest = behind;
    }
    false
}

/// Whether `__L` and a digit stand in it.
fn has_local(name: &[u8]) -> bool
    ensures { result ≡ spec.has_local name.now }
{
    let mut rest = name;
    while let [_, behind @ ..] = rest {
        if is_own_name(b"__L", rest) {
            return true;
        }
        rest = behind;
    }
    false
}

/// Whether it ends in `__g`.
fn is_global(name: &[u8]) -> bool
    ensures { result ≡ spec.is_global name.now }
{
    let mut rest = name;
    while let [_, behind @ ..] = rest {
        if is(rest, b"__g") {
            return true;
        }
        rest = behind;
    }
    false
}

fn is_object_name(name: &[u8]) -> bool
    ensures { result ≡ spec.is_object_name name.now }
{
    !has_two(name) || has_local(name) || is_global(name)
}

/// Whether a function of this name is lowered.
pub fn may_be_function(name: &[u8]) -> bool
    ensures { result ≡ spec.may_be_function name.now }
{
    is_foreign(name) && !is_object_name(name)
}

/// Whether an object of this name is lowered.
pub fn may_be_object(name: &[u8]) -> bool
    ensures { result ≡ spec.may_be_object name.now }
{
    is_foreign(name) && is_object_name(name)
}
