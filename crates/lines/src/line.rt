// The table of the seven lines.
ghost use Rattle.std.specs.Prelude.{◌≡◌};
ghost use Rattle.std.specs.Option.{ok_or};
ghost use Rattle.lines.specs.Lines.{zonal, dated, timed, counts, line_of};
ghost use Rattle.tariff.specs.declared.refusal.Refusal.TheVariants.{FieldOutOfRange};

use tariff::Refusal;

// Whether a line is shared out in each subzone or in the whole state.
#[derive(Clone, Copy, PartialEq, Eq, Debug)]
pub enum Area {
    Subzone,
    State,
}

// Whether a line is shared out in each hour, on each day or once for the period.
#[derive(Clone, Copy, PartialEq, Eq, Debug)]
pub enum Span {
    Hour,
    Day,
    Period,
}

// Some kinds of rows; the kind of a unit row is its use, and that of a cost row its line. Flows are
// load, wheels through and other exports (uses 0 to 2), and station power is use 4. (Numbers, since unlawful rows have
// kinds too.)
#[derive(Clone, Copy, PartialEq, Eq, Debug)]
pub enum Kinds {
    Every,
    Only(u8),
    Flows,
    FlowsAndStations,
}

// A line: its number, area and cell, the uses that it counts, and the use of the units of its
// station part, if it has one.
#[derive(Clone, Copy, PartialEq, Eq, Debug)]
pub struct Line {
    pub number: u8,
    pub area: Area,
    pub span: Span,
    pub counted: Kinds,
    pub station: Option<u8>,
}

const LOAD: Kinds = Kinds::Only(0);

const STATION_POWER: u8 = 4;

impl Area {
    // Whether the line has a figure for each subzone.
    pub fn zonal(self) -> bool
        ensures { result ≡ zonal self }
    {
        matches!(self, Area::Subzone)
    }
}

impl Span {
    // Whether the line has a figure for each day.
    pub fn dated(self) -> bool
        ensures { result ≡ dated self }
    {
        matches!(self, Span::Hour | Span::Day)
    }

    // Whether the line has a figure for each hour.
    pub fn timed(self) -> bool
        ensures { result ≡ timed self }
    {
        matches!(self, Span::Hour)
    }
}

impl Kinds {
    // Whether a kind is among these.
    pub fn count(self, kind: u8) -> bool
        ensures { result ≡ counts self kind }
    {
        match self {
            Kinds::Every => true,
            Kinds::Only(only) => kind == only,
            Kinds::Flows => kind <= 2,
            Kinds::FlowsAndStations => kind <= 2 || kind == STATION_POWER,
        }
    }
}

impl Line {
    // The line of a number, if the schedule has it.
    #[tactic(auto, unfolding(crate::specs::Lines::line_of))]
    pub fn find(number: u8) -> Option<Line>
        ensures { result ≡ line_of number }
    {
        let (area, span, counted, station) = match number {
            // 6.1.9.1
            1 => (Area::Subzone, Span::Hour, LOAD, None),
            // 6.1.9.2
            2 => (Area::State, Span::Hour, LOAD, None),
            // 6.1.10.1
            3 => (Area::Subzone, Span::Hour, LOAD, Some(STATION_POWER)),
            // 6.1.11
            4 => (Area::State, Span::Hour, Kinds::Flows, Some(STATION_POWER)),
            // 6.1.12.3
            5 => (Area::Subzone, Span::Day, LOAD, Some(STATION_POWER)),
            // 6.1.13, costs recovered and funds paid out
            6 | 7 => (Area::State, Span::Period, Kinds::FlowsAndStations, None),
            _ => return None,
        };
        Some(Line {
            number,
            area,
            span,
            counted,
            station,
        })
    }

    // The line of a number, or the refusal of a number that the schedule does not have.
    // (No TryFrom: it would be a third name for what `find` and this answer.)
    pub fn of(number: u8) -> Result<Line, Refusal>
        ensures { result ≡ ok_or (line_of number) FieldOutOfRange }
    {
        Line::find(number).ok_or(Refusal::FieldOutOfRange)
    }
}
