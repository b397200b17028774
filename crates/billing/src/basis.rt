// What a bill is worked out from: the line, and lawful rows of a book of some sizes.
ghost use Rattle.std.specs.Prelude.{◌≡◌, ◌<◌, ◌≤◌};
ghost use Rattle.tariff.specs.Limits.{most_amount};
ghost use Rattle.lines.specs.Cells.{axis, areas, days, hours};
ghost use Rattle.lines.specs.Totals.{cost_in, line_costs};
ghost use Rattle.billing.specs.Work.{Sound, Spans};

use lines::cell::{WHOLE, axis};
use lines::{Cell, Kinds, Line, total};
use std::ops::Range;
use tariff::limits::HOURS_OF_DAY;
use tariff::{CostRow, Sizes, UnitRow};

#[derive(Clone, Copy)]
pub(crate) struct Basis<'u, 'c> {
    pub line: Line,
    pub sizes: Sizes,
    pub units: &'u [UnitRow],
    pub costs: &'c [CostRow],
    ghost sound: { Sound line sizes units.now costs.now },
}

impl Basis<'_, '_> {
    // The line's costs in a cell. (A function of its own in the machine too: within the three loops over
    // the cells of a line its own loop is left without registers.)
    #[inline(never)]
    pub(crate) fn pool(self, cell: Cell) -> u32
        requires { cost_in self.line.number self.costs.now cell ≤ most_amount }
        ensures { result ≡ cost_in self.entry.line.number self.entry.costs.now cell }
    {
        total(self.costs, Kinds::Only(self.line.number), cell) as u32
    }

    // All costs of the line.
    pub(crate) fn all_costs(self) -> u128
        ensures { result ≡ line_costs self.entry.line.number self.entry.costs.now }
    {
        total(self.costs, Kinds::Only(self.line.number), WHOLE)
    }

    // The areas of the line.
    pub(crate) fn areas(self) -> Range<u8>
        ensures { Spans result (areas self.entry.line self.entry.sizes) }
    {
        values(self.line.area.zonal(), self.sizes.subzones)
    }

    // Its days.
    pub(crate) fn days(self) -> Range<u8>
        ensures { Spans result (days self.entry.line self.entry.sizes) }
    {
        values(self.line.span.dated(), self.sizes.days)
    }

    // Its hours.
    pub(crate) fn hours(self) -> Range<u8>
        ensures { Spans result (hours self.entry.line) }
    {
        values(self.line.span.timed(), HOURS_OF_DAY)
    }
}

// The values of a field, for a loop. (Of a `RangeInclusive` no lemma tells what a `for` has met, of a `Range` one does.)
fn values(needed: bool, most: u8) -> Range<u8>
    requires { most < 255 }
    ensures { Spans result (axis needed most) }
{
    let (first, last) = axis(needed, most).into_inner();
    first..last + 1
}
