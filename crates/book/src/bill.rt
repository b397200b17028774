// A frozen book bills a line.
ghost use Rattle.std.specs.Prelude.{◌≡◌, ℕ, ◌≤◌, List, length};
ghost use Rattle.tariff.specs.Limits.{most_customers};
ghost use Rattle.bill_rules.specs.Bill.{column_after};
ghost use Rattle.book_rules.specs.Machine.{book_bill};
ghost use Rattle.book_rules.specs.Run.{step, closed, bill};
ghost use Rattle.sharing.specs.Rule.{Lawful};
ghost use Rattle.book.specs.Shown.{frozen_book};
ghost use Rattle.book.specs.Told.{told_figures};

use crate::states::FrozenBook;
use bill_rules::Remainders;
use billing::line_bill;
use sharing::SharingRule;
use tariff::{CostRow, Refusal, UnitRow};

impl FrozenBook {
    // How many customers the book has: the places of each column of its bills.
    pub fn customers(&self) -> usize
        ensures value { result ≡ (frozen_book self.now).sizes.customers }
        ensures few { result ≤ most_customers }
    {
        usize::from(self.numbers.sizes.sizes().customers)
    }

    // The bill of a line by a rule, from the rows that the book counts: each customer's charge (on
    // line 7: what the customer receives), station charge and credit in the columns, and what is
    // short, over and stranded. A refused bill leaves the columns as they were. Three columns stay
    // three parameters (see billing's fill_columns).
    pub fn bill<R: SharingRule>(
        &self,
        rule: &mut R,
        units: &[UnitRow],
        costs: &[CostRow],
        line: u8,
        charges: &mut [u64],
        stations: &mut [u64],
        credits: &mut [u64],
    ) -> Result<Remainders, Refusal>
        ensures answers { (law : Lawful (R.meaning rule.old)) (marks : List ℕ) → step (closed (frozen_book self.now) units.now costs.now marks) (bill (record { meaning = R.meaning rule.old; lawful = law }) line (record { charges = length charges.old; stations = length stations.old; credits = length credits.old })) ≡ record { state = closed (frozen_book self.now) units.now costs.now marks; answer = told_figures result charges.new stations.new credits.new } }
        ensures charges { charges.new ≡ column_after (book_bill (R.meaning rule.old) line (frozen_book self.now) units.now costs.now (record { charges = length charges.old; stations = length stations.old; credits = length credits.old })) (λ f. f.charges) charges.old }
        ensures stations { stations.new ≡ column_after (book_bill (R.meaning rule.old) line (frozen_book self.now) units.now costs.now (record { charges = length charges.old; stations = length stations.old; credits = length credits.old })) (λ f. f.stations) stations.old }
        ensures credits { credits.new ≡ column_after (book_bill (R.meaning rule.old) line (frozen_book self.now) units.now costs.now (record { charges = length charges.old; stations = length stations.old; credits = length credits.old })) (λ f. f.credits) credits.old }
        ensures lawful { Lawful (R.meaning rule.old) }
        ensures means { R.meaning rule.new ≡ R.meaning rule.old }
    {
        if self.numbers.outnumber(units.len(), costs.len()) {
            return Err(Refusal::TableUnfit);
        }
        let counted_units = &units[0..self.numbers.units];
        let counted_costs = &costs[0..self.numbers.costs];
        line_bill(
            rule,
            line,
            &self.numbers.sizes,
            counted_units,
            counted_costs,
            charges,
            stations,
            credits,
        )
    }
}
