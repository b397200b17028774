// Cells: one area at one time.
ghost use Rattle.std.specs.Prelude.{◌≡◌};
ghost use Rattle.lines.specs.Cells.{holds, axis, Inclusive};

use std::ops::RangeInclusive;

// Where a row stands; a field that its line does not need is 0.
#[derive(Clone, Copy, PartialEq, Eq, Debug)]
pub struct Place {
    pub subzone: u8,
    pub day: u8,
    pub hour: u8,
}

// One area at one time; 0 stands for the whole state, for all days, for all hours. (No Place: there 0 stands for nothing.)
#[derive(Clone, Copy, PartialEq, Eq, Debug)]
pub struct Cell {
    pub area: u8,
    pub day: u8,
    pub hour: u8,
}

// The whole state over the whole period.
pub const WHOLE: Cell = Cell {
    area: 0,
    day: 0,
    hour: 0,
};

impl Cell {
    // Whether a place lies in the cell; a statewide cell holds those of all subzones.
    pub fn holds(self, place: Place) -> bool
        ensures { result ≡ holds self place }
    {
        (self.area == 0 || self.area == place.subzone)
            && (self.day == 0 || self.day == place.day)
            && (self.hour == 0 || self.hour == place.hour)
    }
}

// The values of a field: 1 to a most where a line needs the field, else 0 alone.
pub fn axis(needed: bool, most: u8) -> RangeInclusive<u8>
    ensures { Inclusive result needed most }
{
    if needed { 1..=most } else { 0..=0 }
}
