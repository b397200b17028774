// The lines of the schedule, the cells of a line, totals over rows, and which rows a book allows.
#![tactic(auto)]

pub mod cell;
pub mod line;
pub mod rows;
pub mod sizes;
pub mod totals;

pub use cell::{Cell, Place};
pub use line::{Area, Kinds, Line, Span};
pub use sizes::BookSizes;
pub use totals::{Row, total};
