// The page index: every value of its type keeps what an index must keep.
#![tactic(auto)]

mod changes;
mod fault;
mod finds;
mod index;
mod places;
mod settle;

pub use changes::LineEdit;
pub use fault::PageSetFault;
pub use finds::{IndexState, PageAt};
pub use index::PageIndex;
