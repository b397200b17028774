// The rules of a journal of calls to a book: specs/ says what a list of commands does to the machine
// of `book_rules`, and proofs/ that it lives by its laws. There is no code here; the crate
// `journal_book` has the calls.
#![tactic(auto)]
