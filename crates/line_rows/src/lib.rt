// The bill of a line as rows of text, in a caller's buffer.
#![tactic(auto)]

mod columns;
mod rows;
mod text;

ghost use Rattle.std.specs.Prelude.{◌≡◌, ◌+◌, ◌≤◌, length, IfOk};
ghost use Rattle.tariff.specs.Refusals.{answer, unless};
ghost use Rattle.sharing.specs.Rule.{Lawful};
ghost use Rattle.buffer.specs.Putting.{pasted};
ghost use Rattle.book.specs.Shown.{frozen_book};
ghost use Rattle.line_rows.specs.Rows.{rows_of, text_refusal, text_in};
ghost use Rattle.line_rows.specs.Writing.{most_rows};

use book::FrozenBook;
use buffer::put_bytes;
use columns::Columns;
use rows::push_line;
use sharing::SharingRule;
use tariff::limits::MOST_CUSTOMERS;
use tariff::{CostRow, Refusal, UnitRow};
use text::RowText;

// Bytes that the rows of one line never pass.
pub const MOST_LINE_BYTES: usize = 27_648;

// Bills a line of a frozen book by a rule, and writes the rows of the bill from a place of the buffer
// on. Answers the place behind them. A bill that is refused, or rows that do not fit, leave the
// buffer as it was. No heap: the rows of the tables and the buffer are the caller's slices, lent to
// each call, so `out` and `place`, and the book and its rows, are parameters. `line` is a number,
// since an unknown line has to reach the book, which refuses it.
pub fn put_bill<R: SharingRule>(
    out: &mut [u8],
    place: usize,
    rule: &mut R,
    line: u8,
    book: &FrozenBook,
    units: &[UnitRow],
    costs: &[CostRow],
) -> Result<usize, Refusal>
    ensures answers { result ≡ answer (text_refusal (length out.old) place (rows_of (R.meaning rule.old) line (frozen_book book.now) units.now costs.now)) (place + length (text_in (rows_of (R.meaning rule.old) line (frozen_book book.now) units.now costs.now))) }
    ensures out { out.new ≡ unless (text_refusal (length out.old) place (rows_of (R.meaning rule.old) line (frozen_book book.now) units.now costs.now)) out.old (pasted out.old place (text_in (rows_of (R.meaning rule.old) line (frozen_book book.now) units.now costs.now))) }
    ensures short { IfOk (rows_of (R.meaning rule.old) line (frozen_book book.now) units.now costs.now) (λ rows. length rows ≤ most_rows line) }
    ensures lawful { Lawful (R.meaning rule.old) }
    ensures means { R.meaning rule.new ≡ R.meaning rule.old }
{
    let customers = book.customers();
    // No heap: the columns are arrays, and so is the text, which reaches the caller's buffer only
    // when it fits.
    let mut charges = [0u64; MOST_CUSTOMERS as usize];
    let mut stations = [0u64; MOST_CUSTOMERS as usize];
    let mut credits = [0u64; MOST_CUSTOMERS as usize];
    // made first, so that its room is zeroed once
    let mut text = RowText::new();
    let charges = &mut charges[..customers];
    let stations = &mut stations[..customers];
    let credits = &mut credits[..customers];
    let left = book.bill(rule, units, costs, line, charges, stations, credits)?;
    let columns = Columns {
        charges,
        stations,
        credits,
    };
    push_line(&mut text, line, &columns, left);
    put_bytes(out, place, text.bytes())
}
