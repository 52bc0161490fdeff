ghost use Rattle.std.specs.Prelude.{◌≡◌};
ghost use Rattle.page_table.specs.Indexes.{index_of};
ghost use Rattle.page_table.specs.Sound.{Stored, Sound};
ghost use Rattle.page_table.specs.Changes.{unfilled};

use page_rule::Marks;
use page_table::{MOST_PAGES, Numbers, PageEntry, PageTable, Phase, Way};

// The pages of a session with their places, the pages under way, and the session's numbers. There is no `impl Model`: a model of a `Copy`
// type needs an inverse, and the entries behind the counts are in no view.
#[derive(Clone, Copy)]
pub struct PageIndex {
    pub(super) table: PageTable,
    ghost stored: { Stored table },
    ghost sound: { Sound (index_of table) },
}

const BLANK: PageEntry = PageEntry {
    first: 0,
    items: 0,
    rows: 0,
    place: 0,
};

// Where a session begins again that has no page to begin at.
pub(super) const FROM_START: Way = Way {
    restart: 0,
    start: 0,
    made: 0,
    next: 0,
    kept: None,
};

impl PageIndex {
    // An index that no session has yet.
    pub fn new() -> PageIndex
        ensures { index_of result.table ≡ unfilled }
    {
        let table = PageTable {
            places: 2,
            count: 0,
            pages: [BLANK; MOST_PAGES],
            made: [BLANK; MOST_PAGES],
            numbers: Numbers {
                items_then: 0,
                items_now: 1,
                marks: Marks { head: 0, tail: 0 },
            },
            phase: Phase::Unfilled,
        };
        PageIndex { table }
    }

    // The pages that stand.
    pub(super) fn pages(&self) -> &[PageEntry]
        ensures { result.now ≡ (index_of self.now.table).pages }
    {
        &self.table.pages[0..self.table.count]
    }

    // The pages under way; there are some only while a session is resumed.
    pub(super) fn made(&self) -> &[PageEntry]
        ensures { result.now ≡ (index_of self.now.table).made }
    {
        let Phase::Resumed(way) = self.table.phase else {
            return &self.table.made[0..0];
        };
        &self.table.made[0..way.made]
    }
}
