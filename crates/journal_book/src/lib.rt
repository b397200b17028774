// A journal of calls, replayed on a book of its own: it keeps the book, its tables and the passes that
// the book gave it.
#![tactic(auto)]

mod errors;
mod frozen_calls;
mod journal;
mod open_calls;
mod passes;
mod replay;
mod replies;
mod states;
mod texts;

pub use errors::OpenError;
pub use replies::Reply;
pub use states::Journal;
pub use texts::RefusalLine;
