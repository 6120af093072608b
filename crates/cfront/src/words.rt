ghost use Rattle.std.specs.Prelude.{◌≡◌, ◌≢◌, List, ℕ, map, string_bytes, IfSome, IfNone, IfOk, Some, None};
ghost use Rattle.cfront.specs.Words.{IsGo, text_name, is_file_name, files_of};

use std::alloc::{AllocError, Global};

/// The FILE of the words `go FILE`, where they are these.
pub fn go_file(words: &Vec<String>) -> Option<&String>
    ensures job { IfSome result (λ file. IsGo (map string_bytes words.now.items) (string_bytes file.now)) }
    ensures none { IfNone result ((file : List ℕ) → IsGo (map string_bytes words.now.items) file → ⊥) }
{
    match words.as_slice() {
        [command, file] if command.as_str() == "go" && is_name(file.as_str()) => Some(file),
        _ => None,
    }
}

/// Whether a word is not empty and no option.
fn is_name(word: &str) -> bool
    ensures { result ≡ is_file_name word.now }
{
    match word.as_bytes() {
        [] => false,
        [first, ..] => *first != b'-',
    }
}

/// Where the C text of a file stands.
pub fn text_name_of(alloc: Global, file: &str) -> Result<String, AllocError>
    ensures { IfOk result (λ name. string_bytes name ≡ text_name file.now) }
{
    let mut name = String::from_str(alloc, file)?;
    name.push_str(".c")?;
    Ok(name)
}

/// The FILEs of a job: the words behind its command.
pub fn file_names(words: &Vec<String>) -> &[String]
    ensures { map string_bytes result.now ≡ files_of (map string_bytes words.now.items) }
{
    match words.as_slice() {
        [] => &[],
        [_, files @ ..] => files,
    }
}
