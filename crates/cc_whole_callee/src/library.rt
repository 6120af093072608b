ghost use Rattle.std.specs.Prelude.{◌≡◌, option_map, slice_get};
ghost use Rattle.cc_whole_mean.specs.Callee.{library_named as its_name, library_functions};
ghost use Rattle.cc_whole_callee.specs.View.{library_of};

/// The library functions.
#[derive(Clone, Copy, Debug, PartialEq, Eq)]
pub enum Library {
    Putchar,
    Getchar,
    Exit,
    Malloc,
    Free,
    Atexit,
}

/// The library function of this name.
pub fn library_named(name: &[u8]) -> Option<Library>
    ensures { option_map library_of result ≡ its_name name.now }
{
    if name == b"putchar".as_slice() {
        Some(Library::Putchar)
    } else if name == b"getchar".as_slice() {
        Some(Library::Getchar)
    } else if name == b"exit".as_slice() {
        Some(Library::Exit)
    } else if name == b"malloc".as_slice() {
        Some(Library::Malloc)
    } else if name == b"free".as_slice() {
        Some(Library::Free)
    } else if name == b"atexit".as_slice() {
        Some(Library::Atexit)
    } else {
        None
    }
}

/// The library function at a place in the order of their numbers.
pub fn library_at(index: usize) -> Option<Library>
    ensures { option_map library_of result ≡ slice_get library_functions index }
{
    match index {
        0 => Some(Library::Putchar),
        1 => Some(Library::Getchar),
        2 => Some(Library::Exit),
        3 => Some(Library::Malloc),
        4 => Some(Library::Free),
        5 => Some(Library::Atexit),
        _ => None,
    }
}
