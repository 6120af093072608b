ghost use Rattle.std.specs.Prelude.{◌≡◌};
ghost use Rattle.cf_elab.specs.Specifiers as spec;

use crate::said::conflicts::earlier;
use crate::said::gathered::Gathered;
use cf_syntax::Storage;

/// Which specifiers may stand where (7.1).
impl Gathered {
    pub fn is_typedef(&self) -> bool
        ensures { result ≡ spec.is_typedef self.now }
    {
        matches!(self.storage, Some((_, Storage::Typedef)))
    }

    pub fn is_static(&self) -> bool
        ensures { result ≡ spec.is_static self.now }
    {
        matches!(self.storage, Some((_, Storage::Static)))
    }

    pub fn is_extern(&self) -> bool
        ensures { result ≡ spec.is_extern self.now }
    {
        matches!(self.storage, Some((_, Storage::Extern)))
    }

    /// The byte place of `auto` or `register`.
    pub fn automatic_at(&self) -> Option<u32>
        ensures { result ≡ spec.automatic_at self.now }
    {
        match self.storage {
            Some((at, Storage::Auto)) => Some(at),
            Some((at, Storage::Register)) => Some(at),
            _ => None,
        }
    }

    /// The byte place of `auto`, `register`, `static`, `extern` or `typedef`.
    pub fn storage_at(&self) -> Option<u32>
        ensures { result ≡ spec.storage_at self.now }
    {
        match self.storage {
            Some((at, _)) => Some(at),
            None => None,
        }
    }

    /// Whether `auto` or `register` is among them.
    pub fn is_stored(&self) -> bool
        ensures { result ≡ spec.is_stored self.now }
    {
        self.automatic_at().is_some()
    }

    /// The first byte place in the text of what may not stand at a parameter, which takes `auto` and `register` alone (7.1.1).
    pub fn parameter_conflict(&self) -> Option<u32>
        ensures { result ≡ spec.parameter_conflict self.now }
    {
        let stored = if self.is_stored() {
            None
        } else {
            self.storage_at()
        };
        earlier(self.conflict, earlier(stored, self.function_word_at()))
    }

    /// The first byte place in the text of what may not stand at a type in brackets, which takes no word that names no type (8.1).
    pub fn type_conflict(&self) -> Option<u32>
        ensures { result ≡ spec.type_conflict self.now }
    {
        earlier(
            self.conflict,
            earlier(self.storage_at(), self.function_word_at()),
        )
    }

    /// The first byte place of `inline`, `virtual` and `friend`.
    fn function_word_at(&self) -> Option<u32>
        ensures { result ≡ spec.function_word_at self.now }
    {
        earlier(self.inline_at, earlier(self.virtual_at, self.friend_at))
    }
}
