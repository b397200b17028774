// The rows of a line, as text.
ghost use Rattle.std.specs.Prelude.{◌≡◌, ◌+◌, ◌*◌, ◌≤◌, [], ◌++◌, length};
ghost use Rattle.std.specs.List.{range_with_len, flat_map};
ghost use Rattle.tariff.specs.Limits.{most_customers};
ghost use Rattle.line_rows.specs.Rows.{field, signed_field, row_text, row_unless, customer_row, sum_text, line_text};
ghost use Rattle.line_rows.specs.Writing.{most_row, most_sum, most_line};

use crate::columns::{Columns, RowFigures};
use crate::text::RowText;
use bill_rules::Remainders;

// The three figures of a row.
fn push_figures(text: &mut RowText, figures: RowFigures)
    requires { length text.old + 63 ≤ most_line }
    ensures pushed { text.new ≡ ((text.old ++ field figures.charge) ++ field figures.station) ++ field figures.credit }
    ensures near { length text.new ≤ length text.old + 63 }
{
    text.push_field(figures.charge);
    text.push_field(figures.station);
    text.push_field(figures.credit);
}

// What the line's rows leave of its costs.
fn push_remainders(text: &mut RowText, left: Remainders)
    requires { length text.old + 63 ≤ most_line }
    ensures pushed { text.new ≡ ((text.old ++ signed_field left.short) ++ signed_field left.over) ++ signed_field left.stranded }
    ensures near { length text.new ≤ length text.old + 63 }
{
    text.push_field(left.short);
    text.push_field(left.over);
    text.push_field(left.stranded);
}

// One customer's row.
fn push_row(text: &mut RowText, line: u8, customer: usize, figures: RowFigures)
    requires { length text.old + most_row ≤ most_line }
    ensures pushed { text.new ≡ text.old ++ row_text line customer figures.charge figures.station figures.credit }
    ensures near { length text.new ≤ length text.old + most_row }
{
    text.push_number(u64::from(line));
    text.push_field(customer as u64);
    push_figures(text, figures);
    text.push_bytes(b"\n");
}

// The row of a customer, unless all its figures are 0.
fn push_customer(text: &mut RowText, line: u8, customer: usize, figures: RowFigures)
    requires { length text.old + most_row ≤ most_line }
    ensures pushed { text.new ≡ text.old ++ row_unless line customer figures.charge figures.station figures.credit }
    ensures near { length text.new ≤ length text.old + most_row }
{
    if !figures.is_figureless() {
        push_row(text, line, customer, figures);
    }
}

// The rows of all customers, in rising order.
fn push_customers(text: &mut RowText, line: u8, columns: &Columns)
    requires { length text.old ≡ 0 }
    ensures pushed { text.new ≡ flat_map (customer_row line columns.now.charges.now columns.now.stations.now columns.now.credits.now) (range_with_len 0 (length columns.now.charges.now)) }
    ensures near { length text.new ≤ most_row * most_customers }
{
    let stations = columns.stations.iter();
    let credits = columns.credits.iter();
    let figures = columns.charges.iter().zip(stations).zip(credits);
    for (customer, ((charge, station), credit)) in figures.enumerate() {
        let figures = RowFigures {
            charge: *charge,
            station: *station,
            credit: *credit,
        };
        push_customer(text, line, customer, figures);
    }
}

// The row of the line's totals.
fn push_sum(text: &mut RowText, line: u8, totals: RowFigures, left: Remainders)
    requires { length text.old + most_sum ≤ most_line }
    ensures { text.new ≡ text.old ++ sum_text line totals.charge totals.station totals.credit left.short left.over left.stranded }
{
    text.push_number(u64::from(line));
    text.push_bytes(b" sum");
    push_figures(text, totals);
    push_remainders(text, left);
    text.push_bytes(b"\n");
}

// All rows of a line, into a text that is empty. It is the caller's: a text that is handed back is
// copied, with all its room.
pub(crate) fn push_line(text: &mut RowText, line: u8, columns: &Columns, left: Remainders)
    requires { text.old ≡ [] }
    ensures { text.new ≡ line_text line (record { charges = columns.now.charges.now; stations = columns.now.stations.now; credits = columns.now.credits.now; short = left.short; over = left.over; stranded = left.stranded }) }
{
    push_customers(text, line, columns);
    push_sum(text, line, columns.totals(), left);
}
