ghost use Rattle.std.specs.Prelude.{◌≡◌, ◌+◌, ◌<◌, ◌≤◌, MatchOption};
ghost use Rattle.page_rule.specs.Pages.{page_rows};

use page_rule::PAGE_ROWS;

// So many rows of a page.
#[derive(Clone, Copy)]
pub(super) struct RowCount {
    pub(super) count: usize,
    ghost within: { count ≤ page_rows },
}

impl RowCount {
    pub(super) fn none() -> RowCount
        ensures { result.count ≡ 0 }
    {
        RowCount { count: 0 }
    }

    // With more rows below, where they fit.
    pub(super) fn plus(self, more: usize) -> Option<RowCount>
        ensures { MatchOption result (page_rows < self.count + more) (λ total. total.count ≡ self.count + more) }
    {
        if more > PAGE_ROWS - self.count {
            return None;
        }
        Some(RowCount {
            count: self.count + more,
        })
    }
}
