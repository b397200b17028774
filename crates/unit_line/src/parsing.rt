// Reads one line of the text form.
ghost use Rattle.std.specs.Prelude.{◌≡◌};
ghost use Rattle.std.specs.Option.{option_map};
ghost use Rattle.unit_file.specs.Records.{item_of};
ghost use Rattle.unit_line.specs.Parsing.{header_in, unit_in, cost_in, item_in};

use scanning::{after_word, at_end, field_of};
use tariff::{CostRow, Sizes, UnitRow};
use unit_file::Record;

fn header_in<'a>(text: &'a [u8]) -> Option<Record<'a>>
    ensures { option_map item_of result ≡ header_in text.now }
{
    let (customers, text) = field_of(text, b"customers ")?;
    let (days, text) = field_of(text, b" days ")?;
    let (subzones, text) = field_of(text, b" subzones ")?;
    let sizes = Sizes {
        customers,
        days,
        subzones,
    };
    at_end(text, Record::Header(sizes))
}

fn unit_in<'a>(text: &'a [u8]) -> Option<Record<'a>>
    ensures { option_map item_of result ≡ unit_in text.now }
{
    let (customer, text) = field_of(text, b"customer ")?;
    let (day, text) = field_of(text, b" day ")?;
    let (hour, text) = field_of(text, b" hour ")?;
    let (subzone, text) = field_of(text, b" subzone ")?;
    let (usage, text) = field_of(text, b" use ")?;
    let (quantity, text) = field_of(text, b" quantity ")?;
    let row = UnitRow {
        customer,
        day,
        hour,
        subzone,
        usage,
        quantity,
    };
    at_end(text, Record::Unit(row))
}

fn cost_in<'a>(text: &'a [u8]) -> Option<Record<'a>>
    ensures { option_map item_of result ≡ cost_in text.now }
{
    let (line, text) = field_of(text, b"line ")?;
    let (subzone, text) = field_of(text, b" subzone ")?;
    let (day, text) = field_of(text, b" day ")?;
    let (hour, text) = field_of(text, b" hour ")?;
    let (amount, text) = field_of(text, b" amount ")?;
    let row = CostRow {
        line,
        subzone,
        day,
        hour,
        amount,
    };
    at_end(text, Record::Cost(row))
}

// The record of a line, if it is the line of one.
pub fn parse_line<'a>(line: &'a [u8]) -> Option<Record<'a>>
    ensures { option_map item_of result ≡ item_in line.now }
{
    if let Some(rest) = after_word(line, b"book ") {
        header_in(rest)
    } else if let Some(rest) = after_word(line, b"units ") {
        unit_in(rest)
    } else if let Some(rest) = after_word(line, b"cost ") {
        cost_in(rest)
    } else {
        after_word(line, b"note ").map(Record::Note)
    }
}
