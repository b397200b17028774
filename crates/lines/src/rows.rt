// Which rows a book of some sizes allows.
ghost use Rattle.std.specs.Prelude.{◌≡◌, not};
ghost use Rattle.tariff.specs.Refusals.{answer, first_of};
ghost use Rattle.lines.specs.Checked.{sizes_of};
ghost use Rattle.lines.specs.Rows.{unlawful_unit, wrong, unlawful_cost, unit_faults, cost_faults};

use crate::cell::axis;
use crate::line::Line;
use crate::sizes::BookSizes;
use crate::totals::alike_costs;
use tariff::limits::{HOURS_OF_DAY, MOST_AMOUNT};
use tariff::{CostRow, Refusal, Table, UnitRow};

// The last use of a unit row; they are numbered from 0.
const LAST_USE: u8 = 4;

// Whether a field is among its values. (Only tested here: a loop over the values needs another range, see billing.)
fn right_field(needed: bool, most: u8, field: u8) -> bool
    ensures { result ≡ not (wrong needed most field) }
{
    axis(needed, most).contains(&field)
}

impl BookSizes {
    // Whether each field of a unit row is in its range.
    pub fn allows_unit(&self, row: &UnitRow) -> bool
        ensures { result ≡ not (unlawful_unit (sizes_of self.now) row.now) }
    {
        let sizes = self.sizes();
        row.customer < sizes.customers
            && (1..=sizes.days).contains(&row.day)
            && (1..=HOURS_OF_DAY).contains(&row.hour)
            && (1..=sizes.subzones).contains(&row.subzone)
            && row.usage <= LAST_USE
            && row.quantity <= MOST_AMOUNT
    }

    // Whether each field of a cost row is one of its line.
    pub fn allows_cost(&self, row: &CostRow) -> bool
        ensures { result ≡ not (unlawful_cost (sizes_of self.now) row.now) }
    {
        let sizes = self.sizes();
        let Some(line) = Line::find(row.line) else {
            return false;
        };
        right_field(line.area.zonal(), sizes.subzones, row.subzone)
            && right_field(line.span.dated(), sizes.days, row.day)
            && right_field(line.span.timed(), HOURS_OF_DAY, row.hour)
            && (1..=MOST_AMOUNT).contains(&row.amount)
    }

    // Refuses the first unit row that is unlawful, by a field or by the sum of quantities up to it.
    pub fn check_units(&self, units: &[UnitRow]) -> Result<(), Refusal>
        ensures { result ≡ answer (first_of (unit_faults (sizes_of self.now) units.now)) tt }
    {
        let mut sum = 0;
        for (row, unit) in units.iter().enumerate() {
            sum += u128::from(unit.quantity);
            if !self.allows_unit(unit) || sum > u128::from(MOST_AMOUNT) {
                return Err(Refusal::UnlawfulRow {
                    table: Table::Unit,
                    row,
                });
            }
        }
        Ok(())
    }

    // Refuses the first cost row that is unlawful, by a field or by the sum of the costs alike up to it.
    // (No trait for both checks: it would ask each row for its sum, and so add all unit rows anew at each, where one sum runs on.)
    pub fn check_costs(&self, costs: &[CostRow]) -> Result<(), Refusal>
        ensures { result ≡ answer (first_of (cost_faults (sizes_of self.now) costs.now)) tt }
    {
        for (row, cost) in costs.iter().enumerate() {
            if !self.allows_cost(cost)
                || alike_costs(cost, &costs[..=row]) > u128::from(MOST_AMOUNT)
            {
                return Err(Refusal::UnlawfulRow {
                    table: Table::Cost,
                    row,
                });
            }
        }
        Ok(())
    }
}
