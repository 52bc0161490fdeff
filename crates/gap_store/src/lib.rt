// A line store with a gap, which edits move to their place.
#![tactic(auto)]

mod edit;
mod gap;
mod moves;
mod packed;
mod store;

pub use store::GapStore;
