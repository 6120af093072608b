ghost use Rattle.std.specs.Prelude.{◌≡◌};
ghost use Rattle.cf_elab.specs.Functions as functions;

/// Whether a link name is that of a function of the library.
pub fn is_library(link: &[u8]) -> bool
    ensures { result ≡ functions.is_library link.now }
{
    link == b"putchar".as_slice() || link == b"getchar".as_slice() || link == b"exit".as_slice()
}
