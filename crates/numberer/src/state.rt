ghost use Rattle.std.specs.Prelude.{pos, negsuc, ◌≤ℤ◌};

use division::Divisor;

// The number of the next text line, and the stops of a turn.
#[derive(Clone, Copy, PartialEq, Eq, Debug)]
pub struct NumberState {
    pub(super) number: i32,
    pub(super) stops: Divisor,
    ghost low: { negsuc 99998 ≤ℤ number },
    ghost high: { number ≤ℤ pos 100000 },
    ghost few: { stops.value ≤ℤ pos 256 },
}
