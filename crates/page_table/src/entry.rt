// A page of an index: its first item, how many items and rows it has, and its place.
#[derive(Clone, Copy, PartialEq, Eq, Debug)]
pub struct PageEntry {
    pub first: usize,
    pub items: usize,
    pub rows: usize,
    pub place: usize,
}
