// A line store in a vector of records of one size.
#![tactic(auto)]

mod edit;
mod record;
mod store;

pub use store::VecStore;
