// The bill of a line over the rows of a book, under any sharing rule.
#![tactic(auto)]

mod basis;
mod charges;
mod columns;
mod remainders;
mod stations;

ghost use Rattle.std.specs.Prelude.{◌≡◌, length, IfOk, Some, sum, MatchResult};
ghost use Rattle.sharing.specs.Rule.{Meaning, Lawful};
ghost use Rattle.lines.specs.declared.line.Line.{Line};
ghost use Rattle.lines.specs.Lines.{line_of};
ghost use Rattle.lines.specs.Totals.{line_costs};
ghost use Rattle.lines.specs.Checked.{sizes_of};
ghost use Rattle.bill_rules.specs.Bill.{bill_refusal, bill, told, column_after};
ghost use Rattle.bill_rules.specs.Laws.{Balanced, Close, LawsOfBilling};
ghost use Rattle.billing.specs.Work.{lengths_of, Billable};
ghost use Rattle.billing.specs.Parts.{figures_on};

use basis::Basis;
use bill_rules::Remainders;
use lines::{BookSizes, Line};
use remainders::{cents, remainders};
use sharing::SharingRule;
use tariff::{CostRow, Refusal, UnitRow};

// The line of a number, unless the columns do not fit, there is no such line, or a row is unlawful.
// `columns` are the lengths of the three.
fn billable(
    line: u8,
    sizes: &BookSizes,
    units: &[UnitRow],
    costs: &[CostRow],
    columns: [usize; 3],
) -> Result<Line, Refusal>
    ensures { MatchResult result (λ l. Billable line l (sizes_of sizes.now) units.now costs.now (lengths_of columns))
        (λ e. (m : Meaning) → bill_refusal m line (sizes_of sizes.now) units.now costs.now (lengths_of columns) ≡ Some e) }
{
    if columns != [usize::from(sizes.sizes().customers); 3] {
        return Err(Refusal::TableUnfit);
    }
    let line = Line::of(line)?;
    sizes.check_units(units)?;
    sizes.check_costs(costs)?;
    Ok(line)
}

impl Basis<'_, '_> {
    // Works the figures of a line out. The station part goes first, into columns to work in, since
    // it alone can still be refused: the caller's columns are written only when nothing can. The
    // columns stay three slices: each is the caller's and may have a wrong length, and of a struct
    // that lends them a contract sees nested pairs at the end and no names.
    fn fill_columns<R: SharingRule>(
        self,
        rule: &mut R,
        charges: &mut [u64],
        stations: &mut [u64],
        credits: &mut [u64],
    ) -> Result<Remainders, Refusal>
        requires { (length charges.old ≡ self.sizes.customers) × (length stations.old ≡ self.sizes.customers) × (length credits.old ≡ self.sizes.customers) }
        ensures answers { result ≡ told (figures_on (R.meaning rule.old) self.entry) }
        ensures charges { charges.new ≡ column_after (figures_on (R.meaning rule.old) self.entry) (λ f. f.charges) charges.old }
        ensures stations { stations.new ≡ column_after (figures_on (R.meaning rule.old) self.entry) (λ f. f.stations) stations.old }
        ensures credits { credits.new ≡ column_after (figures_on (R.meaning rule.old) self.entry) (λ f. f.credits) credits.old }
        ensures means { R.meaning rule.new ≡ R.meaning rule.old }
    {
        let customers = usize::from(self.sizes.customers);
        // no heap: room for the most customers, of which the book's are used
        let mut station_work = [0; 256];
        let station_work = &mut station_work[..customers];
        let mut credit_work = [0; 256];
        let credit_work = &mut credit_work[..customers];
        self.station_part(rule, station_work, credit_work)?;
        stations.copy_from_slice(station_work);
        credits.copy_from_slice(credit_work);
        charges.fill(0);
        let stranded = self.charge_line(rule, charges);
        Ok(remainders(
            self.all_costs(),
            stranded,
            cents(charges),
            cents(stations),
            cents(credits),
        ))
    }
}

// The bill of a line over the rows of a book, by any sharing rule. It answers what is short, over
// and stranded, and fills the three columns with each customer's charge (on line 7: what the
// customer receives), station charge and credit; a refused bill leaves the columns as they were.
// This is the calculation under the book: a book's own bill is had from a frozen book alone. (Why
// three columns and no struct: see fill_columns.)
pub fn line_bill<R: SharingRule>(
    rule: &mut R,
    line: u8,
    sizes: &BookSizes,
    units: &[UnitRow],
    costs: &[CostRow],
    charges: &mut [u64],
    stations: &mut [u64],
    credits: &mut [u64],
) -> Result<Remainders, Refusal>
    ensures answers { result ≡ told (bill (R.meaning rule.old) line (sizes_of sizes.now) units.now costs.now (record { charges = length charges.old; stations = length stations.old; credits = length credits.old })) }
    ensures charges { charges.new ≡ column_after (bill (R.meaning rule.old) line (sizes_of sizes.now) units.now costs.now (record { charges = length charges.old; stations = length stations.old; credits = length credits.old })) (λ f. f.charges) charges.old }
    ensures stations { stations.new ≡ column_after (bill (R.meaning rule.old) line (sizes_of sizes.now) units.now costs.now (record { charges = length charges.old; stations = length stations.old; credits = length credits.old })) (λ f. f.stations) stations.old }
    ensures credits { credits.new ≡ column_after (bill (R.meaning rule.old) line (sizes_of sizes.now) units.now costs.now (record { charges = length charges.old; stations = length stations.old; credits = length credits.old })) (λ f. f.credits) credits.old }
    ensures balance { IfOk result (λ x. Balanced (sum charges.new) (sum stations.new) (sum credits.new) x.short x.over x.stranded (line_costs line costs.now)) }
    ensures closeness { (l : Line) → line_of line ≡ Some l → Close (R.meaning rule.old) l (sizes_of sizes.now) units.now costs.now }
    ensures means { R.meaning rule.new ≡ R.meaning rule.old }
    ensures lawful { Lawful (R.meaning rule.old) }
    ensures laws { LawsOfBilling }
{
    let columns = [charges.len(), stations.len(), credits.len()];
    let line = billable(line, sizes, units, costs, columns)?;
    let sizes = sizes.sizes();
    let basis = Basis {
        line,
        sizes,
        units,
        costs,
    };
    basis.fill_columns(rule, charges, stations, credits)
}
