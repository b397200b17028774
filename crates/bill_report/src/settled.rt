// The settled book of a unit file, with tables that have room for every row of it.
ghost use Rattle.std.specs.Prelude.{◌≡◌, OnOk, IfOk};
ghost use Rattle.bill_report.specs.Failing.{UnlessOutOfMemory};
ghost use Rattle.bill_report.specs.Settling.{settled};
ghost use Rattle.bill_report.specs.Shown.{shown_settled};

use crate::error::BillError;
use book::FrozenBook;
use settling::{NO_COST, NO_UNITS, settle_file};
use std::alloc::Global;
use tariff::limits::CONTRIBUTORS;
use tariff::{CostRow, Sizes, UnitRow};

// A frozen book with its sizes and its tables.
#[derive(Drop)]
pub(crate) struct Settled {
    pub(crate) sizes: Sizes,
    pub(crate) book: FrozenBook,
    pub(crate) units: Vec<UnitRow>,
    pub(crate) costs: Vec<CostRow>,
    pub(crate) marks: Vec<u32>,
}

// Settles a file in a book of some sizes, with room for every row that the file can have.
pub(crate) fn settle(heap: Global, sizes: Sizes, bytes: &[u8]) -> Result<Settled, BillError>
    ensures value { UnlessOutOfMemory result (λ got. shown_settled got ≡ settled sizes bytes.now) }
    ensures sizes { IfOk result (λ s. s.sizes ≡ sizes) }
{
    let room = bytes.len() / 11;
    let mut units = vec![in heap; NO_UNITS; room]?;
    let mut costs = vec![in heap; NO_COST; room]?;
    let mut marks = vec![in heap; 0u32; CONTRIBUTORS]?;
    let book = settle_file(sizes, &mut units, &mut costs, &mut marks, bytes)?;
    Ok(Settled {
        sizes,
        book,
        units,
        costs,
        marks,
    })
}
