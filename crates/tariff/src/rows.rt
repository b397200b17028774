// The rows and the sizes of a book, in exactly the widths of the unit file, so that every row can
// be written and every written row can be represented, a row that a book refuses too.

// What a book is opened with: how many customers, days and subzones it has.
#[derive(Clone, Copy, PartialEq, Eq, Debug)]
pub struct Sizes {
    pub customers: u16,
    pub days: u8,
    pub subzones: u8,
}

// Billing units of one customer in one hour and subzone, in hundredths of a MWh. `usage` is the
// use of the units: 0 load, 1 wheel through, 2 other export, 3 export at a CTS Enabled Interface
// with ISO New England outside any wheel, 4 station power supplied as a third-party provider.
#[derive(Clone, Copy, PartialEq, Eq, Debug)]
pub struct UnitRow {
    pub customer: u16,
    pub day: u8,
    pub hour: u8,
    pub subzone: u8,
    pub usage: u8,
    pub quantity: u32,
}

// A cost in cents of one line; a field that the line does not need is 0.
#[derive(Clone, Copy, PartialEq, Eq, Debug)]
pub struct CostRow {
    pub line: u8,
    pub subzone: u8,
    pub day: u8,
    pub hour: u8,
    pub amount: u32,
}
