// The text form of a unit file: one record a line, in words and numbers. `list` makes the text of
// a file, and `compose` makes the file of a text.
#![tactic(auto)]

pub mod composing;
pub mod listing;

pub use composing::{ComposeError, Fault, Reason, compose};
pub use listing::{Listing, list};
