// A line store in slots of one size.
#![tactic(auto)]

mod bytes;
mod edit;
mod store;

pub use store::SlotStore;
