// How far a journal has come.
use journal_book::Journal;

// A journal that is not opened yet, one whose opening was refused, or one with its book. It may hold
// passes, so it is no `Drop`: only closing it ends it. It is no Option: two states hold no journal, and
// lines are answered unlike in each.
pub enum Session {
    Unopened,
    Refused,
    Running(Journal),
}
