use super::count::RowCount;

// Where a page begins: its number, its first item, and the state before that.
#[derive(Clone, Copy)]
pub struct Position<S> {
    pub page: usize,
    pub first: usize,
    pub state: S,
}

// A page that was made; `next` is where the next one begins, unless the end is on this one.
#[derive(Clone, Copy)]
pub struct Made<S> {
    pub items: usize,
    pub rows: usize,
    pub steps: usize,
    pub next: Option<Position<S>>,
}

// The items and rows of a page, and the state before the item that did not fit, unless the end is on the page.
#[derive(Clone, Copy)]
pub struct Filling<S> {
    pub items: usize,
    pub rows: usize,
    pub next: Option<S>,
}

// Where an item went.
#[derive(Clone, Copy)]
pub enum Placed<S> {
    // A line is on the page, with the state after it and the rows that there are then.
    On(S, RowCount),
    // The end is on the page, with the rows that there are then.
    End(RowCount),
    // The item does not fit.
    Over,
}
