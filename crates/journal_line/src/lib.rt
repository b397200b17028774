// One line of a journal of calls to a book: the call that it says.
#![tactic(auto)]

pub mod calls;
mod fields;
pub mod parsing;

pub use calls::{CallName, Command, Fault, Line, Opening};
pub use parsing::parse_line;
