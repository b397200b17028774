// One line of the text form of a unit file: the record that it says.
#![tactic(auto)]

pub mod parsing;

pub use parsing::parse_line;
