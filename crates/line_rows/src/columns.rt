// The figures of an accepted bill: three columns with one figure a customer in each.
ghost use Rattle.std.specs.Prelude.{◌≡◌, ◌^◌, ◌≤◌, length, sum};
ghost use Rattle.tariff.specs.Limits.{most_customers};
ghost use Rattle.billing.specs.Work.{Upto};

use sharing::column_total;

// The three figures of a row: a customer's, or the totals.
#[derive(Clone, Copy, PartialEq, Eq, Default)]
pub(crate) struct RowFigures {
    pub charge: u64,
    pub station: u64,
    pub credit: u64,
}

// Three columns, one figure a customer in each, as `FrozenBook::bill` fills them.
#[derive(Clone, Copy)]
pub(crate) struct Columns<'a> {
    pub charges: &'a [u64],
    pub stations: &'a [u64],
    pub credits: &'a [u64],
    ghost same_length: { (length stations.now ≡ length charges.now) × (length credits.now ≡ length charges.now) },
    ghost few: { length charges.now ≤ most_customers },
    ghost small: { Upto charges.now (2 ^ 48) × Upto stations.now (2 ^ 48) × Upto credits.now (2 ^ 48) },
}

impl RowFigures {
    ghost use Rattle.line_rows.specs.Rows.{figureless};

    // Whether all figures are 0.
    pub(crate) fn is_figureless(self) -> bool
        ensures { result ≡ figureless self.charge self.station self.credit }
    {
        self == RowFigures::default()
    }
}

impl Columns<'_> {
    pub(crate) fn totals(&self) -> RowFigures
        ensures { (result.charge ≡ sum self.now.charges.now) × (result.station ≡ sum self.now.stations.now) × (result.credit ≡ sum self.now.credits.now) }
    {
        RowFigures {
            charge: column_total(self.charges) as u64,
            station: column_total(self.stations) as u64,
            credit: column_total(self.credits) as u64,
        }
    }
}
