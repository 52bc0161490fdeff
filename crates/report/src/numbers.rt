// The numbers of a page.
#[derive(Clone, Copy, PartialEq, Eq, Debug)]
pub struct PageNumbers {
    pub page: usize,
    pub first: usize,
    pub items: usize,
    pub rows: usize,
    pub steps: usize,
}

// How many pages were made, and the sum of their steps.
#[derive(Clone, Copy, PartialEq, Eq, Debug)]
pub struct Totals {
    pub pages: usize,
    pub steps: usize,
}
