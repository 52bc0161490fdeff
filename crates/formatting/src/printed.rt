use page_maker::Position;
use report::{PageNumbers, Totals};

// A page that was made: with where the next one begins, or the last one, with the totals.
#[derive(Drop)]
pub enum Printed<S> {
    More(PageNumbers, Position<S>),
    Last(PageNumbers, Totals),
}
