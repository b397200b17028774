// Totals over rows of any kind.
ghost use Rattle.std.specs.Prelude.{◌≡◌, ℕ, ◌^◌, ◌<◌};
ghost use Rattle.lines.specs.declared.cell.Place.{Place};
ghost use Rattle.lines.specs.Totals.{belongs, total_in, unit_place, unit_use, unit_quantity, cost_place, cost_line, cost_amount, all_quantities, alike};

use crate::cell::{Cell, Place, WHOLE};
use crate::line::Kinds;
use tariff::{CostRow, UnitRow};

// A row that has a place in time and area, an amount, and a kind: a unit row's use, a cost row's line.
// (Both impls make the place alike: rows keep flat fields, as the file has them, and hold no Place.)
pub trait Row {
    ghost kinded: { Self → ℕ };

    ghost placed: { Self → Place };

    ghost amounts: { Self → ℕ };

    fn kind(&self) -> u8
        ensures { result ≡ kinded self.now };

    fn place(&self) -> Place
        ensures { result ≡ placed self.now };

    fn amount(&self) -> u32
        ensures { result ≡ amounts self.now };
}

impl Row for UnitRow {
    ghost kinded = { unit_use };

    ghost placed = { unit_place };

    ghost amounts = { unit_quantity };

    fn kind(&self) -> u8 {
        self.usage
    }

    fn place(&self) -> Place {
        Place {
            subzone: self.subzone,
            day: self.day,
            hour: self.hour,
        }
    }

    fn amount(&self) -> u32 {
        self.quantity
    }
}

impl Row for CostRow {
    ghost kinded = { cost_line };

    ghost placed = { cost_place };

    ghost amounts = { cost_amount };

    fn kind(&self) -> u8 {
        self.line
    }

    fn place(&self) -> Place {
        Place {
            subzone: self.subzone,
            day: self.day,
            hour: self.hour,
        }
    }

    fn amount(&self) -> u32 {
        self.amount
    }
}

// Whether a row of this kind at this place is of these kinds and in the cell.
pub fn belongs(kinds: Kinds, cell: Cell, kind: u8, place: Place) -> bool
    ensures { result ≡ belongs kinds cell kind place }
{
    kinds.count(kind) && cell.holds(place)
}

// The amounts of the rows of some kinds that lie in a cell.
pub fn total<R: Row>(rows: &[R], kinds: Kinds, cell: Cell) -> u128
    ensures sum { result ≡ total_in R.kinded R.placed R.amounts kinds cell rows.now }
    ensures small { result < 2 ^ 100 }
{
    let mut sum: u128 = 0;
    for row in rows {
        if belongs(kinds, cell, row.kind(), row.place()) {
            sum += u128::from(row.amount());
        }
    }
    sum
}

// The quantities of all unit rows, of whatever use.
pub fn all_quantities(units: &[UnitRow]) -> u128
    ensures sum { result ≡ all_quantities units.now }
    ensures small { result < 2 ^ 100 }
{
    total(units, Kinds::Every, WHOLE)
}

// The costs that have one limit with a cost row: those of its line in its area on its day, or of
// its period line.
pub fn alike_costs(row: &CostRow, costs: &[CostRow]) -> u128
    ensures sum { result ≡ alike row.now costs.now }
    ensures small { result < 2 ^ 100 }
{
    let group = Cell {
        area: row.subzone,
        day: row.day,
        hour: 0,
    };
    total(costs, Kinds::Only(row.line), group)
}
