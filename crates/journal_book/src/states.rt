// A journal with its book.
ghost use Rattle.journal_rules.specs.Numbered.{Numbered};
ghost use Rattle.journal_book.specs.Stages.{shown_as};

use book::{FrozenBook, OpenBook, Pass};
use tariff::{CostRow, UnitRow};

// A book in either state.
#[derive(Drop)]
pub(crate) enum Stage {
    Open(OpenBook),
    Frozen(FrozenBook),
}

// The tables of a book, and the passes that it gave to the journal: each at its number less one,
// until it is handed in or taken in. They hold passes, so they are no `Drop`. A journal owns its
// tables; a statement has lent slices of rows, since it allocates nothing.
pub(crate) struct Tables {
    pub(crate) units: Vec<UnitRow>,
    pub(crate) costs: Vec<CostRow>,
    pub(crate) marks: Vec<u32>,
    pub(crate) passes: Vec<Option<Pass>>,
}

// A book with its tables and passes. A pass goes by the number that the book gave it. Only closing
// a journal ends it.
pub struct Journal {
    pub(crate) stage: Stage,
    pub(crate) tables: Tables,
    pub ghost numbered: { Numbered (shown_as stage tables) },
}
