use super::entry::PageEntry;
use super::state::{Numbers, Phase};

// The most places of a page set, and the most pages.
pub const MOST_PLACES: usize = 512;

pub const MOST_PAGES: usize = 256;

// The pages that stand, and those made since begin; entries behind their counts have no meaning. They are arrays with counts: an index
// is in fixed memory, and its type, `PageIndex`, is public and `Copy`, which the library's `ArrayVec` is not. What they keep is in the
// type of the index, around this plain table.
#[derive(Clone, Copy)]
pub struct PageTable {
    pub places: usize,
    pub count: usize,
    pub pages: [PageEntry; MOST_PAGES],
    pub made: [PageEntry; MOST_PAGES],
    pub numbers: Numbers,
    pub phase: Phase,
}
