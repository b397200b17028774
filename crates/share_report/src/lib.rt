// What the program `share` answers to a text: a pool of cents and the units of each customer.
#![tactic(auto)]

mod error;
mod excerpt;
mod numbers;
mod owned;
pub mod report;
mod table;

pub use error::{ErrorLine, Misread, ShareError};
pub use excerpt::Excerpt;
pub use owned::{OwnedMisread, OwnedShareError};
