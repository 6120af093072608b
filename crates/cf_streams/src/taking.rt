ghost use Rattle.cf_streams.specs.Taking.{Answers};

use cf_base::{Failed, Source};

/// The next byte of the input, or none at its end, behind which it is not asked again. After `Failed` the input holds what it held.
pub fn take<I: Source>(input: &mut I, at_end: &mut bool) -> Result<Option<u8>, Failed>
    ensures { Answers (I.stream input.old) (I.stream input.new) at_end.old at_end.new result }
{
    if *at_end {
        return Ok(None);
    }
    let byte = input.next()?;
    *at_end = byte.is_none();
    Ok(byte)
}
