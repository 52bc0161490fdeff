// The plain table of a page index: its pages, those under way, and the session's numbers. What a table means, and what makes an
// index of it, is in specs/.
#![tactic(auto)]

mod entry;
mod state;
mod table;

pub use entry::PageEntry;
pub use state::{Numbers, Phase, Way};
pub use table::{MOST_PAGES, MOST_PLACES, PageTable};
