// A unit file settled in a book of its own: opened with the file's sizes, loaded through one pass
// and frozen.
#![tactic(auto)]

ghost use Rattle.std.specs.Prelude.{◌≡◌};
ghost use Rattle.book_rules.specs.Run.{opened};
ghost use Rattle.book.specs.Shown.{open_book};
ghost use Rattle.settling.specs.Settling.{file_sizes, left, loaded_in, leaves, settlement};

use book::load::header_of;
use book::{FrozenBook, OpenBook};
use tariff::{CostRow, Refusal, Sizes, UnitRow};
use unit_file::Reader;

// What stands in a free row of a unit table.
pub const NO_UNITS: UnitRow = UnitRow {
    customer: 0,
    day: 0,
    hour: 0,
    subzone: 0,
    usage: 0,
    quantity: 0,
};

// What stands in a free row of a cost table: a cost of no line.
pub const NO_COST: CostRow = CostRow {
    line: 0,
    subzone: 0,
    day: 0,
    hour: 0,
    amount: 0,
};

// The sizes in the first record of a file, which has to be the header.
pub fn file_sizes(bytes: &[u8]) -> Result<Sizes, Refusal>
    ensures { result ≡ file_sizes bytes.now }
{
    let mut reader = Reader::new(bytes)?;
    header_of(reader.next()?)
}

// Loads a file through a pass of contributor 0, which is handed in behind it.
fn load_through_a_pass(
    book: &mut OpenBook,
    units: &mut [UnitRow],
    costs: &mut [CostRow],
    marks: &mut [u32],
    bytes: &[u8],
) -> Result<(), Refusal>
    ensures { left result (opened (open_book book.new) units.new costs.new marks.new) ≡ loaded_in (opened (open_book book.old) units.old costs.old marks.old) bytes.now }
{
    let pass = book.admit(marks, 0)?;
    let report = book.load(units, costs, marks, &pass, bytes);
    let ended = book.hand_in(marks, pass);
    // (no `map_or`: with it the check of a wrong load searches for minutes)
    match report.refusal() {
        Some(refusal) => Err(refusal),
        None => ended,
    }
}

// Settles a file in a book with these sizes and tables, and gives the frozen book. A refused file
// leaves the rows that were posted before the refusal.
pub fn settle_file(
    sizes: Sizes,
    units: &mut [UnitRow],
    costs: &mut [CostRow],
    marks: &mut [u32],
    bytes: &[u8],
) -> Result<FrozenBook, Refusal>
    ensures { leaves result units.new costs.new marks.new ≡ settlement sizes units.old costs.old marks.old bytes.now }
{
    let mut book = OpenBook::open(sizes, 0, marks)?;
    load_through_a_pass(&mut book, units, costs, marks, bytes)?;
    book.freeze(marks).map_err(|(_, refusal)| refusal)
}
