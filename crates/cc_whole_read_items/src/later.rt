ghost use Rattle.std.specs.Prelude.{◌≡◌};
ghost use Rattle.cc_whole_reading.specs.Parse as parse;

use cc_whole_reading::Stop;

/// The later one of two refusals, the first of which leaves so many tokens.
pub fn later_of(left: usize, second: Stop) -> Stop
    ensures { result ≡ parse.later_of left second }
{
    match second {
        Stop::NotC { left: other } => {
            if left <= other {
                Stop::NotC { left }
            } else {
                second
            }
        }
        _ => second,
    }
}
