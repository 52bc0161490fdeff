// Floor division, from the division toward zero that the machine has.
#![tactic(auto)]

ghost use Rattle.std.specs.Prelude.{◌≡◌, pos, unsigned_abs};
ghost use Rattle.division.specs.Floor.{quotient, remainder, Floors, FloorLaw};

mod divisor;

pub use divisor::Divisor;

#[derive(Clone, Copy, PartialEq, Eq, Debug)]
pub struct FloorDivision {
    pub quotient: i32,
    pub remainder: i32,
}

// The quotient rounded down, and a remainder from 0 to the divisor less 1; no other pair has this. Made from the machine's truncating
// division, as the rules ask, and so proved once for every divisor; `div_euclid` and `rem_euclid` would hide that step.
pub fn floor_div(v: i32, by: Divisor) -> FloorDivision
    ensures quotient { result.quotient ≡ quotient v (unsigned_abs by.value) }
    ensures remainder { result.remainder ≡ pos (remainder v (unsigned_abs by.value)) }
    ensures floors { Floors v (unsigned_abs by.value) result.quotient (unsigned_abs result.remainder) }
    ensures only { FloorLaw }
{
    let m = by.value();
    let quotient = v / m;
    let remainder = v % m;
    if remainder < 0 {
        FloorDivision {
            quotient: quotient - 1,
            remainder: remainder + m,
        }
    } else {
        FloorDivision {
            quotient,
            remainder,
        }
    }
}
