// What a line charges: each cell's pool, shared by its counted units.
ghost use Rattle.std.specs.Prelude.{◌≡◌, ◌^◌, [], ◌∷◌, length, None};
ghost use Rattle.sharing.specs.Rule.{share_refusal};
ghost use Rattle.lines.specs.Cells.{cells};
ghost use Rattle.billing.specs.Work.{Upto, Proper};
ghost use Rattle.billing.specs.Parts.{Charged};

use crate::basis::Basis;
use crate::columns::{add_column, fill_units};
use lines::Cell;
use sharing::{SharingRule, column_total};

// Shares a pool by a rule that does not refuse it.
pub(crate) fn share_out<R: SharingRule>(rule: &mut R, pool: u32, units: &[u32], column: &mut [u32])
    requires { share_refusal pool units.now (length column.old) ≡ None }
    ensures writes { column.new ≡ R.meaning rule.old pool units.now }
    ensures means { R.meaning rule.new ≡ R.meaning rule.old }
{
    let Ok(()) = rule.share(pool, units, column) else {
        unreachable()
    };
}

impl Basis<'_, '_> {
    // Charges the customers of one cell by its pool, and answers what of the pool is stranded. A
    // cell without costs charges nothing, under any rule, so that its units are not looked for.
    fn charge_cell<R: SharingRule>(self, rule: &mut R, cell: Cell, charges: &mut [u64]) -> u64
        requires proper { Proper self.line cell.area cell.day }
        requires places { length charges.old ≡ self.sizes.customers }
        requires room { Upto charges.old (2 ^ 63) }
        ensures charged { Charged (R.meaning rule.old) self.entry (cell ∷ []) (2 ^ 31) 0 result charges.old charges.new }
        ensures means { R.meaning rule.new ≡ R.meaning rule.old }
    {
        let pool = self.pool(cell);
        if pool == 0 {
            return 0;
        }
        let customers = usize::from(self.sizes.customers);
        // no heap: room for the most customers, of which the book's are used
        let mut units = [0; 256];
        let units = &mut units[..customers];
        fill_units(self.units, self.line.counted, cell, units);
        if column_total(units) == 0 {
            return u64::from(pool);
        }
        let mut shares = [0; 256];
        let shares = &mut shares[..customers];
        share_out(rule, pool, units, shares);
        add_column(charges, shares);
        0
    }

    // All cells of the line: adds each customer's charges to the column, and answers what is
    // stranded. A day without costs is passed over whole.
    pub(crate) fn charge_line<R: SharingRule>(self, rule: &mut R, charges: &mut [u64]) -> u64
        requires places { length charges.old ≡ self.sizes.customers }
        requires room { Upto charges.old 0 }
        ensures charged { Charged (R.meaning rule.old) self.entry (cells self.entry.line self.entry.sizes) (2 ^ 46) 0 result charges.old charges.new }
        ensures means { R.meaning rule.new ≡ R.meaning rule.old }
    {
        let mut stranded = 0;
        for area in self.areas() {
            for day in self.days() {
                if self.pool(Cell { area, day, hour: 0 }) == 0 {
                    continue;
                }
                for hour in self.hours() {
                    stranded += self.charge_cell(rule, Cell { area, day, hour }, charges);
                }
            }
        }
        stranded
    }
}
