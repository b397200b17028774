// A book of one billing period: contributors post into it through passes while it is open, and it
// bills while it is frozen. Rows and marks are the caller's tables at each call.
#![tactic(auto)]

mod bill;
mod contributors;
pub mod load;
mod marks;
mod open;
mod rows;
mod states;

pub use states::{FrozenBook, OpenBook, Pass};
