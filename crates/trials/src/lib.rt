// Worked examples of the rules, as one theorem on the definitions that the contracts use.
#![tactic(auto)]

ghost use Rattle.std.specs.Prelude.{◌≡◌, pos, negsuc};
ghost use Rattle.trials.specs.Trials.{Trials};

use division::{Divisor, FloorDivision, floor_div};

// The place of the line just before number 0, at 22 stops a turn: the last stop of the turn below. All worked examples hold.
#[tactic(auto, using(crate::proofs::Worked::trials))]
pub fn place_before_zero() -> FloorDivision
    ensures turn { result.quotient ≡ negsuc 0 }
    ensures stop { result.remainder ≡ pos 21 }
    ensures trials { Trials }
{
    floor_div(-1, Divisor::new(22).unwrap())
}
