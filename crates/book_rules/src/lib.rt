// The rules of a book, as a machine: specs/ defines its calls and what a life of calls keeps, and
// proofs/ shows it. There is no code here; the crate `book` has the calls.
#![tactic(auto)]
