// A journal of calls, read line by line.
#![tactic(auto)]

mod faults;
mod session;
mod states;

pub use faults::{AnswerError, LineFault};
pub use session::without_end;
pub use states::Session;
