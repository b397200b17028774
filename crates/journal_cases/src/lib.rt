// Cases of a journal: a list of calls replayed on a book, read as text.
#![tactic(auto)]

#[cfg(test)]
mod tests;
