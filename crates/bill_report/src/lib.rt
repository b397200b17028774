// What the program `bill` answers to a line, a rule and a unit file.
#![tactic(auto)]

mod error;
mod figured;
pub mod report;
mod settled;

pub use error::{BillError, ErrorLine};
