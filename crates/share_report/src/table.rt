// The shares of all customers by both rules, as a table.
ghost use Rattle.std.specs.Prelude.{Some};
ghost use Rattle.share_report.specs.Report.{shares_of, table_text};
ghost use Rattle.share_report.specs.Shown.{Divides};

use crate::error::ShareError;
use sharing::{Division, SharingRule, divide};
use std::alloc::Global;
use std::fmt;

// The shares of all customers by one rule, and what they come to.
#[derive(Drop)]
pub struct Shares {
    column: Vec<u32>,
    division: Division,
}

impl Shares {
    pub fn by<'e, R: SharingRule>(
        rule: &mut R,
        heap: Global,
        pool: u32,
        units: &[u32],
    ) -> Result<Shares, ShareError<'e>>
        ensures { Divides result (shares_of (R.meaning rule.old) pool units.now) }
    {
        let mut column = vec![in heap; 0u32; units.len()]?;
        let division = divide(rule, pool, units, column.as_mut_slice())?;
        Ok(Shares { column, division })
    }
}

// A row for each customer, the sums, and what each rule leaves of the pool.
#[derive(Drop)]
pub struct Table<'a> {
    pub pool: u32,
    pub units: &'a [u32],
    pub down: Shares,
    pub running: Shares,
}

impl fmt::Display for Table<'_> {
    ghost output = { λ t. Some (table_text t.pool t.units.now (t.down.column.items, t.down.division) (t.running.column.items, t.running.division)) };

    fn fmt<W: fmt::Write>(&self, f: &mut fmt::Formatter<W>) -> fmt::Result {
        let pool = self.pool;
        write!(f, "pool {pool}\ncustomer units down running\n")?;
        let shares = self.down.column.iter().zip(&self.running.column);
        for (customer, (units, (down, running))) in self.units.iter().zip(shares).enumerate() {
            writeln!(f, "{customer} {units} {down} {running}")?;
        }
        let (down, running) = (self.down.division, self.running.division);
        writeln!(f, "sum {} {} {}", down.units, down.shares, running.shares)?;
        writeln!(f, "left over {} {}", down.left, running.left)
    }
}
