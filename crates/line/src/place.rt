ghost use Rattle.std.specs.Prelude.{◌≡◌, ◌<◌, ◌≤◌, MatchResult};
ghost use Rattle.line.specs.declared.fault.StoreFault.TheVariants.{NoLine};

use super::fault::StoreFault;

// Refuses a place that is not one of the first `places`, in a store of `count` lines.
pub fn check_place(at: usize, places: usize, count: usize) -> Result<(), StoreFault>
    ensures { MatchResult result (λ _. at < places) (λ f. (places ≤ at) × (f ≡ NoLine at count)) }
{
    if at < places {
        Ok(())
    } else {
        Err(StoreFault::NoLine { line: at, count })
    }
}
