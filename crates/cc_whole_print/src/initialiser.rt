//! What stands in a variable before a run.

ghost use Rattle.std.specs.Prelude.{◌≡◌, ◌++◌, OnOk, map};
ghost use Rattle.std.specs.List.{concat};
ghost use Rattle.cc_whole_tokens.specs.Cut as cut;
ghost use Rattle.cc_whole_print.specs.Initialisers.{byte_text, escaped_text, string_text, function_text, pair_text, pairs_text, initialiser_text};

use crate::lines::{put, put_constant, put_if, put_inside, put_spaced};
use cc_whole::{CInitialiser, CPair};
use cc_whole_tokens::Mark;
use cf_base::{Items, Memory, Name};

/// Whether a byte stands for itself in a string.
fn is_itself(byte: u8) -> bool
    ensures { result ≡ cut.is_itself byte }
{
    byte > 31 && byte < 127 && byte != b'"' && byte != b'\\'
}

/// A backslash and three octal digits.
fn escaped(out: &mut Vec<u8>, byte: u8) -> Result<(), Memory>
    ensures { OnOk result (out.new.items ≡ out.old.items ++ escaped_text byte) }
{
    out.push(b'\\')?;
    out.push(b'0' + byte / 64)?;
    out.push(b'0' + byte / 8 % 8)?;
    out.push(b'0' + byte % 8)?;
    Ok(())
}

/// A byte of a string.
fn string_byte(out: &mut Vec<u8>, byte: u8) -> Result<(), Memory>
    ensures { OnOk result (out.new.items ≡ out.old.items ++ byte_text byte) }
{
    if is_itself(byte) {
        out.push(byte)?;
        Ok(())
    } else {
        escaped(out, byte)
    }
}

fn string_bytes(out: &mut Vec<u8>, bytes: &[u8]) -> Result<(), Memory>
    ensures { OnOk result (out.new.items ≡ out.old.items ++ concat (map byte_text bytes.now)) }
{
    for byte in bytes {
        string_byte(out, *byte)?;
    }
    Ok(())
}

/// A string in quotes.
fn string(out: &mut Vec<u8>, bytes: &[u8]) -> Result<(), Memory>
    ensures { OnOk result (out.new.items ≡ out.old.items ++ string_text bytes.now) }
{
    out.push(b'"')?;
    string_bytes(out, bytes)?;
    put_spaced(out, b"\"")
}

/// A function's name, or 0.
fn function(out: &mut Vec<u8>, name: &Option<Name>) -> Result<(), Memory>
    ensures { OnOk result (out.new.items ≡ out.old.items ++ function_text name.now) }
{
    match name {
        None => put_spaced(out, b"0"),
        Some(name) => put_spaced(out, name.as_slice()),
    }
}

/// `{constant, function}`
fn pair(out: &mut Vec<u8>, one: &CPair) -> Result<(), Memory>
    ensures { OnOk result (out.new.items ≡ out.old.items ++ pair_text one.now) }
{
    put_inside(out, Mark::LeftBrace)?;
    put_constant(out, one.number)?;
    put(out, Mark::Comma)?;
    function(out, &one.function)?;
    put_inside(out, Mark::RightBrace)
}

/// Pairs with commas between them.
fn pairs(out: &mut Vec<u8>, all: &Items<CPair>) -> Result<(), Memory>
    ensures { OnOk result (out.new.items ≡ out.old.items ++ pairs_text all.now) }
{
    for (at, one) in all.as_slice().iter().enumerate() {
        put_if(out, at > 0, Mark::Comma)?;
        pair(out, one)?;
    }
    Ok(())
}

/// `=` and a string, or pairs in braces.
pub fn initialiser(out: &mut Vec<u8>, start: &Option<CInitialiser>) -> Result<(), Memory>
    ensures { OnOk result (out.new.items ≡ out.old.items ++ initialiser_text start.now) }
{
    match start {
        None => Ok(()),
        Some(CInitialiser::Text(bytes)) => {
            put(out, Mark::Assign)?;
            string(out, bytes.as_slice())
        }
        Some(CInitialiser::Pairs(all)) => {
            put(out, Mark::Assign)?;
            put_inside(out, Mark::LeftBrace)?;
            pairs(out, all)?;
            put_inside(out, Mark::RightBrace)
        }
    }
}
