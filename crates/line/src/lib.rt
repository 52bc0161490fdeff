// What a line is, and the line store by its meaning.
#![tactic(auto)]

mod check;
mod checked;
mod fault;
mod layer;
mod place;
mod store;
mod tell;

pub use check::{check_line, is_line};
pub use checked::CheckedLine;
pub use fault::StoreFault;
pub use layer::Layer;
pub use place::check_place;
pub use store::{LINE_LIMIT, LineBuffer, LineStore, STORE_LIMIT, store_limit};
