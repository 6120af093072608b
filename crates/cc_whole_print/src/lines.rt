//! Tokens, each with the space or newline behind it.

ghost use Rattle.std.specs.Prelude.{◌≡◌, ◌++◌, OnOk, decimal};
ghost use Rattle.cc_whole_print.specs.Lines as spec;
ghost use Rattle.cc_whole_print.specs.Lines.{printed_mark, printed_inside, printed_if, spaced, constant_text};

use cc_whole::CConstant;
use cc_whole_tokens::Mark;
use cf_base::Memory;
use itoa::Buffer;

fn ends_line(mark: Mark) -> bool
    ensures { result ≡ spec.ends_line mark }
{
    match mark {
        Mark::Semicolon => true,
        Mark::Colon => true,
        Mark::LeftBrace => true,
        Mark::RightBrace => true,
        _ => false,
    }
}

/// Adds a sign or word.
#[tactic(auto, unfolding(crate::specs::Lines::printed_mark))]
pub fn put(out: &mut Vec<u8>, mark: Mark) -> Result<(), Memory>
    ensures { OnOk result (out.new.items ≡ out.old.items ++ printed_mark mark) }
{
    out.extend_from_slice(mark.text().as_bytes())?;
    out.push(if ends_line(mark) { b'\n' } else { b' ' })?;
    Ok(())
}

/// Adds a sign that ends no line where it stands.
#[tactic(auto, unfolding(crate::specs::Lines::printed_inside))]
pub fn put_inside(out: &mut Vec<u8>, mark: Mark) -> Result<(), Memory>
    ensures { OnOk result (out.new.items ≡ out.old.items ++ printed_inside mark) }
{
    put_spaced(out, mark.text().as_bytes())
}

/// Adds a sign or word where it is needed.
pub fn put_if(out: &mut Vec<u8>, is_needed: bool, mark: Mark) -> Result<(), Memory>
    ensures { OnOk result (out.new.items ≡ out.old.items ++ printed_if is_needed mark) }
{
    if is_needed { put(out, mark) } else { Ok(()) }
}

/// Adds bytes and a space.
pub fn put_spaced(out: &mut Vec<u8>, bytes: &[u8]) -> Result<(), Memory>
    ensures { OnOk result (out.new.items ≡ out.old.items ++ spaced bytes.now) }
{
    out.extend_from_slice(bytes)?;
    out.push(b' ')?;
    Ok(())
}

/// Adds the digits of an unsigned constant, its `u` and a space.
fn put_unsigned(out: &mut Vec<u8>, value: u32) -> Result<(), Memory>
    ensures { OnOk result (out.new.items ≡ out.old.items ++ spec.unsigned_text value) }
{
    out.extend_from_slice(Buffer::new().format(value).as_bytes())?;
    out.push(b'u')?;
    out.push(b' ')?;
    Ok(())
}

/// Adds a constant and a space.
pub fn put_constant(out: &mut Vec<u8>, value: CConstant) -> Result<(), Memory>
    ensures { OnOk result (out.new.items ≡ out.old.items ++ constant_text value) }
{
    match value {
        CConstant::Signed(value) => put_spaced(out, Buffer::new().format(value).as_bytes()),
        CConstant::Unsigned(value) => put_unsigned(out, value),
    }
}

/// Adds the decimal digits of a number and a newline.
pub fn put_number_line(out: &mut Vec<u8>, value: u32) -> Result<(), Memory>
    ensures { OnOk result (out.new.items ≡ out.old.items ++ (decimal value ++ spec.newline)) }
{
    out.extend_from_slice(Buffer::new().format(value).as_bytes())?;
    out.push(b'\n')?;
    Ok(())
}
