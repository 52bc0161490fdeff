// What is printed of a formatting.
#![tactic(auto)]

ghost use Rattle.std.specs.Prelude.{◌≡◌, IfOk, Some};
ghost use Rattle.report.specs.Texts.{page_head, page_text, totals};

use engine::ROW_WIDTH;
use page_rule::BODY_BYTES;
use std::alloc::{AllocError, Global};
use std::fmt;

mod numbers;

pub use numbers::{PageNumbers, Totals};

impl fmt::Display for PageNumbers {
    ghost output = { λ n. Some (page_head n) };

    fn fmt<W: fmt::Write>(&self, f: &mut fmt::Formatter<W>) -> fmt::Result {
        let PageNumbers {
            page,
            first,
            items,
            rows,
            steps,
        } = *self;
        write!(
            f,
            "page {page}: first {first}, items {items}, rows {rows}, steps {steps}"
        )
    }
}

impl fmt::Display for Totals {
    ghost output = { λ t. Some (totals t) };

    fn fmt<W: fmt::Write>(&self, f: &mut fmt::Formatter<W>) -> fmt::Result {
        let Totals { pages, steps } = *self;
        write!(f, "pages {pages}, steps {steps}")
    }
}

// A page as it is printed: its numbers in one line, and then each of its rows. It fails only for want of memory.
pub fn print_page(
    heap: Global,
    numbers: PageNumbers,
    body: &[u8; BODY_BYTES],
) -> Result<Vec<u8>, AllocError>
    ensures { IfOk result (λ v. v.items ≡ page_text numbers body.now) }
{
    let head = numbers.to_string(heap)?;
    let mut text = Vec::from_slice(heap, head.as_bytes())?;
    text.push(b'\n')?;
    for row in body.chunks_exact(ROW_WIDTH) {
        text.extend_from_slice(row)?;
        text.push(b'\n')?;
    }
    Ok(text)
}
