// One record of a unit file, and the kinds of records.
ghost use Rattle.unit_file.specs.Kinds.{Decodes};

use tariff::{CostRow, Sizes, UnitRow};

// Rows and sizes are held by value; a note is a stretch of the bytes that it was read from.
#[derive(Clone, Copy, PartialEq, Eq, Debug)]
pub enum Record<'a> {
    Header(Sizes),
    Unit(UnitRow),
    Cost(CostRow),
    Note(&'a [u8]),
}

// What a record is, with the byte that says so in a file.
#[derive(Clone, Copy, PartialEq, Eq, Debug)]
pub(crate) enum Kind {
    Header = 0,
    Unit = 1,
    Cost = 2,
    Note = 3,
}

// A byte that says no kind.
#[derive(Clone, Copy, PartialEq, Eq, Debug)]
pub(crate) struct UnknownKind;

impl TryFrom<u8> for Kind {
    type Error = UnknownKind;

    ghost try_from_gives = { Decodes };

    fn try_from(byte: u8) -> Result<Kind, UnknownKind> {
        match byte {
            0 => Ok(Kind::Header),
            1 => Ok(Kind::Unit),
            2 => Ok(Kind::Cost),
            3 => Ok(Kind::Note),
            _ => Err(UnknownKind),
        }
    }
}
