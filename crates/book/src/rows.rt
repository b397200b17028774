// Rows come in through a valid pass: post, add cost, correct.
ghost use Rattle.std.specs.Prelude.{◌≡◌, ℕ, ◌+◌, ◌<◌, Bool, not, ◌||◌, List, length, nat_lt, IfOk};
ghost use Rattle.tariff.specs.declared.rows.Sizes.{Sizes};
ghost use Rattle.tariff.specs.declared.rows.UnitRow.{UnitRow};
ghost use Rattle.tariff.specs.declared.rows.CostRow.{CostRow};
ghost use Rattle.tariff.specs.Refusals.{answer};
ghost use Rattle.lines.specs.Checked.{sizes_of};
ghost use Rattle.lines.specs.Rows.{unlawful_unit, unlawful_cost};
ghost use Rattle.lines.specs.Totals.{all_quantities, alike};
ghost use Rattle.book_rules.specs.Machine.{Book, corrected};
ghost use Rattle.book_rules.specs.Run.{step, opened, post, add_cost, correct};
ghost use Rattle.book.specs.Shown.{open_book, numbers_of, pass_of};
ghost use Rattle.book.specs.Tests.{entry_refusal};
ghost use Rattle.book.specs.Told.{told, told_row};

use crate::states::{Numbers, OpenBook, Pass};
use lines::BookSizes;
use lines::totals::{alike_costs, all_quantities};
use tariff::limits::MOST_AMOUNT;
use tariff::{CostRow, Refusal, UnitRow};

// The quantities of all rows, one of them counted by its new quantity.
fn corrected_total(rows: &[UnitRow], at: usize, quantity: u32) -> u128
    requires { at < length rows.now }
    ensures { result ≡ all_quantities (corrected rows.now at quantity) }
{
    all_quantities(rows) - u128::from(rows[at].quantity) + u128::from(quantity)
}

// A row that a book takes in: how many rows of its kind the book counts, and what it refuses.
trait Entry {
    ghost count_in: { Book → ℕ };

    ghost is_unlawful: { Sizes → Self → Bool };

    // the sum that is limited: this row's, and that of the rows that share its limit
    ghost limited: { Self → List Self → ℕ };

    fn counted(numbers: &Numbers) -> usize
        ensures { result ≡ count_in (numbers_of numbers.now) };

    fn is_allowed(&self, sizes: &BookSizes) -> bool
        ensures { result ≡ not (is_unlawful (sizes_of sizes.now) self.now) };

    fn sum_with(&self, rows: &[Self]) -> u128
        ensures { result ≡ limited self.now rows.now };
}

impl Entry for UnitRow {
    ghost count_in = { λ b. b.units };

    ghost is_unlawful = { unlawful_unit };

    ghost limited = { λ u rows. all_quantities rows + u.quantity };

    fn counted(numbers: &Numbers) -> usize {
        numbers.units
    }

    fn is_allowed(&self, sizes: &BookSizes) -> bool {
        sizes.allows_unit(self)
    }

    fn sum_with(&self, rows: &[UnitRow]) -> u128 {
        all_quantities(rows) + u128::from(self.quantity)
    }
}

impl Entry for CostRow {
    ghost count_in = { λ b. b.costs };

    ghost is_unlawful = { unlawful_cost };

    ghost limited = { λ r rows. alike r rows + r.amount };

    fn counted(numbers: &Numbers) -> usize {
        numbers.costs
    }

    fn is_allowed(&self, sizes: &BookSizes) -> bool {
        sizes.allows_cost(self)
    }

    fn sum_with(&self, rows: &[CostRow]) -> u128 {
        alike_costs(self, rows) + u128::from(self.amount)
    }
}

impl Numbers {
    // Whether the book counts more rows than a table has.
    pub(crate) fn outnumber(&self, units: usize, costs: usize) -> bool
        ensures { result ≡ (nat_lt units self.now.units || nat_lt costs self.now.costs) }
    {
        units < self.units || costs < self.costs
    }

    // The place of a new row in its table, if the book takes it in.
    fn place_for<R: Entry>(
        &self,
        rows: &[R],
        marks: &[u32],
        pass: &Pass,
        row: &R,
    ) -> Result<usize, Refusal>
        ensures place { result ≡ answer (entry_refusal R.count_in R.is_unlawful R.limited (numbers_of self.now) rows.now marks.now (pass_of pass.now) row.now) (R.count_in (numbers_of self.now)) }
        ensures room { IfOk result (λ at. at < length rows.now) }
    {
        let count = R::counted(self);
        if rows.len() < count {
            return Err(Refusal::TableUnfit);
        }
        self.check_pass(marks, pass)?;
        if !row.is_allowed(&self.sizes) {
            return Err(Refusal::FieldOutOfRange);
        }
        if rows.len() <= count {
            return Err(Refusal::TableFull);
        }
        if row.sum_with(&rows[0..count]) > u128::from(MOST_AMOUNT) {
            return Err(Refusal::SumTooLarge);
        }
        Ok(count)
    }
}

// Tables are parameters: a struct of lent `&mut` slices shows them at exit only as nested pairs. So
// are marks and pass, each lent alone, since hand in takes both another way.
impl OpenBook {
    // Appends a unit row, and answers its number, from 0. Only the count that grows differs from
    // adding a cost, and a setter for it in Entry would be longer.
    pub fn post(
        &mut self,
        units: &mut [UnitRow],
        marks: &[u32],
        pass: &Pass,
        row: UnitRow,
    ) -> Result<usize, Refusal>
        ensures { (costs : List CostRow) → step (opened (open_book self.old) units.old costs marks.now) (post (pass_of pass.now) row) ≡ record { state = opened (open_book self.new) units.new costs marks.now; answer = told_row result } }
    {
        let at = self.numbers.place_for(units, marks, pass, &row)?;
        units[at] = row;
        self.numbers.units = at + 1;
        Ok(at)
    }

    // Appends a cost row, and answers its number, from 0.
    pub fn add_cost(
        &mut self,
        costs: &mut [CostRow],
        marks: &[u32],
        pass: &Pass,
        row: CostRow,
    ) -> Result<usize, Refusal>
        ensures { (units : List UnitRow) → step (opened (open_book self.old) units costs.old marks.now) (add_cost (pass_of pass.now) row) ≡ record { state = opened (open_book self.new) units costs.new marks.now; answer = told_row result } }
    {
        let at = self.numbers.place_for(costs, marks, pass, &row)?;
        costs[at] = row;
        self.numbers.costs = at + 1;
        Ok(at)
    }

    // Puts a new quantity into one unit row.
    pub fn correct(
        &self,
        units: &mut [UnitRow],
        marks: &[u32],
        pass: &Pass,
        at: usize,
        quantity: u32,
    ) -> Result<(), Refusal>
        ensures { (costs : List CostRow) → step (opened (open_book self.now) units.old costs marks.now) (correct (pass_of pass.now) at quantity) ≡ record { state = opened (open_book self.now) units.new costs marks.now; answer = told result } }
    {
        let count = self.numbers.units;
        if units.len() < count {
            return Err(Refusal::TableUnfit);
        }
        self.numbers.check_pass(marks, pass)?;
        if quantity > MOST_AMOUNT {
            return Err(Refusal::FieldOutOfRange);
        }
        if at >= count {
            return Err(Refusal::NoSuchRow);
        }
        if corrected_total(&units[0..count], at, quantity) > u128::from(MOST_AMOUNT) {
            return Err(Refusal::SumTooLarge);
        }
        units[at].quantity = quantity;
        Ok(())
    }
}
