// The nineteen reasons for which a call is refused.
ghost use Rattle.std.specs.Prelude.{◌≡◌, Some};
ghost use Rattle.tariff.specs.Refusals.{number, reason, told, table_word, told_words, words};

use std::fmt;

// The table of a book in which a row stands.
#[derive(Clone, Copy, PartialEq, Eq, Debug)]
pub enum Table {
    Unit,
    Cost,
}

// What a refusal tells beside its number. (No Option around it: what stands behind a reason is printed whatever it is.)
#[derive(Clone, Copy, PartialEq, Eq, Debug)]
pub enum Told {
    Nothing,
    Row { table: Table, row: usize },
    // a subzone, or 0 for the state, and a day
    AreaAndDay { subzone: u8, day: u8 },
    // a byte of a file, from 0
    Place(usize),
}

// A refusal, with what it tells. specs/Refusals.antt gives each its number and its reason.
#[derive(Clone, Copy, PartialEq, Eq, Debug)]
pub enum Refusal {
    SizeOutOfRange,
    TableUnfit,
    UnknownContributor,
    AlreadyAdmitted,
    PassNumbersUsedUp,
    NotAdmitted,
    PassNotValid,
    FieldOutOfRange,
    NoSuchRow,
    TableFull,
    SumTooLarge,
    PassOutstanding,
    UnlawfulRow { table: Table, row: usize },
    StationChargesTooLarge { subzone: u8, day: u8 },
    RuleInput,
    NoUnitFile,
    RecordLength { place: usize },
    RecordKind { place: usize },
    BufferTooShort,
}

impl Refusal {
    // The published number, 1 to 19. (By a match: an enum whose cases have fields has no numbers of its own.)
    pub fn number(self) -> u8
        ensures { result ≡ number self }
    {
        match self {
            Refusal::SizeOutOfRange => 1,
            Refusal::TableUnfit => 2,
            Refusal::UnknownContributor => 3,
            Refusal::AlreadyAdmitted => 4,
            Refusal::PassNumbersUsedUp => 5,
            Refusal::NotAdmitted => 6,
            Refusal::PassNotValid => 7,
            Refusal::FieldOutOfRange => 8,
            Refusal::NoSuchRow => 9,
            Refusal::TableFull => 10,
            Refusal::SumTooLarge => 11,
            Refusal::PassOutstanding => 12,
            Refusal::UnlawfulRow { .. } => 13,
            Refusal::StationChargesTooLarge { .. } => 14,
            Refusal::RuleInput => 15,
            Refusal::NoUnitFile => 16,
            Refusal::RecordLength { .. } => 17,
            Refusal::RecordKind { .. } => 18,
            Refusal::BufferTooShort => 19,
        }
    }

    // What the refusal tells; a file that is none is told at byte 0.
    pub fn told(self) -> Told
        ensures { result ≡ told self }
    {
        match self {
            Refusal::UnlawfulRow { table, row } => Told::Row { table, row },
            Refusal::StationChargesTooLarge { subzone, day } => Told::AreaAndDay { subzone, day },
            Refusal::NoUnitFile => Told::Place(0),
            Refusal::RecordLength { place } | Refusal::RecordKind { place } => Told::Place(place),
            _ => Told::Nothing,
        }
    }

    // The words for the reason.
    fn reason(self) -> &'static str
        ensures { result.now ≡ reason self }
    {
        match self {
            Refusal::SizeOutOfRange =>
                "a size is out of range (1 to 256 customers, 1 to 31 days, 1 to 32 subzones)",
            Refusal::TableUnfit =>
                "a table has fewer rows than the book counts, the marks are not 64, or a column has not one place a customer",
            Refusal::UnknownContributor => "a contributor number is above 63",
            Refusal::AlreadyAdmitted => "the contributor is admitted already (its mark is not 0)",
            Refusal::PassNumbersUsedUp => "every pass number up to 4294967295 has been given out",
            Refusal::NotAdmitted => "the contributor is not admitted (its mark is 0)",
            Refusal::PassNotValid => "the pass is not valid",
            Refusal::FieldOutOfRange =>
                "a field or a line number is outside what the book allows, or a file's sizes are not the book's",
            Refusal::NoSuchRow => "the book counts no such unit row",
            Refusal::TableFull => "the table has no free row",
            Refusal::SumTooLarge => "a sum of quantities or costs would pass 2147483647",
            Refusal::PassOutstanding => "a pass is still out (a mark is not 0)",
            Refusal::UnlawfulRow { .. } => "a row is unlawful, by a field or by the sum up to it",
            Refusal::StationChargesTooLarge { .. } =>
                "the station charges of one area and day add up to more than 2147483647 cents",
            Refusal::RuleInput =>
                "a sharing rule takes at most 256 customers, one place a customer, and a pool and a sum of units of at most 2147483647",
            Refusal::NoUnitFile =>
                "the file is empty, longer than 65536 bytes, or does not begin with byte 1",
            Refusal::RecordLength { .. } =>
                "a record is cut short, has length 0, or has not the length of its kind",
            Refusal::RecordKind { .. } =>
                "a kind is unknown, the header is missing or repeated, or a note has a byte outside 32 to 126",
            Refusal::BufferTooShort => "the buffer is too short for what is to be written",
        }
    }
}

impl fmt::Display for Table {
    ghost output = { λ t. Some (table_word t) };

    fn fmt<W: fmt::Write>(&self, f: &mut fmt::Formatter<W>) -> fmt::Result {
        match self {
            Table::Unit => f.write_str("unit"),
            Table::Cost => f.write_str("cost"),
        }
    }
}

// What is told, as it follows a reason: nothing, or words in brackets after a space.
impl fmt::Display for Told {
    ghost output = { λ t. Some (told_words t) };

    fn fmt<W: fmt::Write>(&self, f: &mut fmt::Formatter<W>) -> fmt::Result {
        match *self {
            Told::Nothing => f.write_str(""),
            Told::Row { table, row } => write!(f, " ({table} table, row {row})"),
            Told::AreaAndDay { subzone, day } => write!(f, " (subzone {subzone}, day {day})"),
            Told::Place(place) => write!(f, " (at byte {place})"),
        }
    }
}

// The refusal as a user reads it: its number, the reason, and what it tells.
impl fmt::Display for Refusal {
    ghost output = { λ r. Some (words r) };

    fn fmt<W: fmt::Write>(&self, f: &mut fmt::Formatter<W>) -> fmt::Result {
        let number = self.number();
        let reason = self.reason();
        let told = self.told();
        write!(f, "refusal {number}: {reason}{told}")
    }
}
