// The vocabulary of the package: rows, sizes, limits, and the refusals that every call shares.
#![tactic(auto)]

pub mod limits;
pub mod refusal;
pub mod rows;

pub use refusal::{Refusal, Table, Told};
pub use rows::{CostRow, Sizes, UnitRow};
