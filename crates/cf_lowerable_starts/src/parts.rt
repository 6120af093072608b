//! The parts of an object that an initialiser has set.

ghost use Rattle.std.specs.Prelude.{◌≡◌, ◌+◌, ◌||◌, nat_le, IfOk};
ghost use Rattle.cf_lower_program.specs.Alike as alike;
ghost use Rattle.cf_lowerable_starts.specs.Telling.{parts_in};

use cf_base::Memory;

/// So many bytes from a byte of an object on.
#[derive(Clone, Copy)]
pub struct Part {
    pub start: u64,
    pub size: u64,
}

/// Whether so many bytes from a byte on have none in common with a part.
fn is_apart(part: &Part, start: u64, size: u64) -> Result<bool, Memory>
    ensures { IfOk result (λ apart. apart ≡ (nat_le (part.now.start + part.now.size) start || nat_le (start + size) part.now.start)) }
{
    let end = part.start.checked_add(part.size).ok_or(Memory)?;
    let behind = start.checked_add(size).ok_or(Memory)?;
    Ok(end <= start || behind <= part.start)
}

/// Whether so many bytes from a byte on have none in common with any of the parts. Linear in their number. A byte beyond 64 bits is answered as if
/// memory had ended.
#[tactic(auto, using(crate::proofs::PartLaws::clear_none))]
pub(crate) fn is_clear_of(parts: &[Part], start: u64, size: u64) -> Result<bool, Memory>
    ensures { IfOk result (λ clear. clear ≡ alike.clear_of start size (parts_in parts.now)) }
{
    let mut rest = parts;
    while let Some((part, front)) = rest.split_last() {
        if !is_apart(part, start, size)? {
            return Ok(false);
        }
        rest = front;
    }
    Ok(true)
}
