// The page rule: its definitions and laws are in specs/, and the proofs of the laws in proofs/.
#![tactic(auto)]

mod marks;
mod rule;

pub use marks::Marks;
pub use rule::{body_bytes, most_pages, moved_item, page_rows, restart_state, same_start};

// The rows of a page, and the bytes of its body.
pub const PAGE_ROWS: usize = 40;

pub const BODY_BYTES: usize = 2880;
