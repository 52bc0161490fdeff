// Decimal numbers in a line and in a row.
#![tactic(auto)]

mod read;
mod write;

pub use read::{DIGIT_LIMIT, integer};
pub use write::{FieldFault, put_number};
