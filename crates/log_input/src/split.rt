ghost use Rattle.std.specs.Prelude.{◌≡◌, map, IfOk};
ghost use Rattle.log_input.specs.Splits.{split, SplitLaw};

use std::alloc::{AllocError, Global};

const LINE_FEED: u8 = b'\n';

// The lines of an input, as parts of it. It fails only for want of memory.
#[tactic(auto, using(crate::proofs::Splitting::law))]
pub fn split_lines<'a>(heap: Global, input: &'a [u8]) -> Result<Vec<&'a [u8]>, AllocError>
    ensures lines { IfOk result (λ v. map (λ x. x.now) v.items ≡ split input.now) }
    ensures law { SplitLaw }
{
    let mut lines = Vec::new(heap);
    for part in input.split_inclusive(|byte| *byte == LINE_FEED) {
        let line = part.strip_suffix(&[LINE_FEED]).unwrap_or(part);
        lines.push(line)?;
    }
    Ok(lines)
}
