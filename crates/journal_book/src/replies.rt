// What a journal answers to a call. It is no Result: a refused call is an answer, printed like any
// other, and the journal goes on.
use tariff::Refusal;

#[derive(Clone, Copy, PartialEq, Eq, Debug)]
pub enum Reply {
    // the number of the pass that the book gave
    Pass(u32),
    Removed,
    HandedIn,
    // the number of the row
    Row(usize),
    Corrected,
    Frozen,
    Open,
    // how many bytes the rows of the bill take; they stand in the caller's buffer
    Billed(usize),
    Refused(Refusal),
    NotOffered,
    // the journal holds no pass of this number
    NoPass(u32),
}
