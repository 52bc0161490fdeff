// From the bytes of a log to the lines of a store.
#![tactic(auto)]

mod load;
mod split;

pub use load::load_lines;
pub use split::split_lines;
