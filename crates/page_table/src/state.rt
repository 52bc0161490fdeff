use page_rule::Marks;

// The items at the last settling, 0 before any, and now; and the marks.
#[derive(Clone, Copy, PartialEq, Eq, Debug)]
pub struct Numbers {
    // 0 is a rule of sessions, and no count of items: every text has at least one item, the end.
    pub items_then: usize,
    pub items_now: usize,
    pub marks: Marks,
}

// How far a resumed session has come: the number and first item of the page that it began again at, how many pages it has made since,
// the next item, and the place of the state before that; none where that is the start state.
#[derive(Clone, Copy, PartialEq, Eq, Debug)]
pub struct Way {
    pub restart: usize,
    pub start: usize,
    pub made: usize,
    pub next: usize,
    pub kept: Option<usize>,
}

// The state of the session that an index belongs to; no session has an index that was never filled.
#[derive(Clone, Copy, PartialEq, Eq, Debug)]
pub enum Phase {
    Unfilled,
    Edited,
    Resumed(Way),
    Settled,
}
