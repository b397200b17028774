// The statement of a unit file: the bill of each line with costs, by Running, as text in a caller's
// buffer.
#![tactic(auto)]

ghost use Rattle.std.specs.Prelude.{◌≡◌, ℕ, ◌+◌, ◌≤◌, List, length, take, IfOk, nat_lt};
ghost use Rattle.lines.specs.Totals.{line_costs};
ghost use Rattle.tariff.specs.Refusals.{answer, unless};
ghost use Rattle.book_rules.specs.Run.{closed};
ghost use Rattle.book.specs.Shown.{frozen_book};
ghost use Rattle.buffer.specs.Putting.{pasted, put_refusal};
ghost use Rattle.line_rows.specs.Writing.{most_rows};
ghost use Rattle.statement_report.specs.Statement.{line_rows, most_bytes, lines_of, text_of, refused_text, Makes, statement_of, told};

use book::FrozenBook;
use buffer::{put_bytes, put_number};
use line_rows::put_bill;
use lines::cell::WHOLE;
use lines::{Kinds, total};
use settling::{NO_COST, NO_UNITS, file_sizes, settle_file};
use sharing::Running;
use tariff::limits::CONTRIBUTORS;
use tariff::{CostRow, Refusal, UnitRow};

// The unit rows that a statement has room for.
pub const UNIT_ROWS: usize = 2048;

// The cost rows that a statement has room for.
pub const COST_ROWS: usize = 512;

// Bytes that no statement passes.
pub const MOST_BYTES: usize = 65_536;

// The last line that a statement has a bill of.
const LAST_LINE: u8 = 7;

// How many bytes the text takes, and the refusal that it tells, where the file is refused. No heap:
// the text stands in the caller's buffer, so its length is a number beside it.
#[derive(Clone, Copy, PartialEq, Eq, Debug)]
pub struct Statement {
    pub length: usize,
    pub refusal: Option<Refusal>,
}

// A file's frozen book with the tables of its rows, which are lent: a statement allocates nothing.
#[derive(Clone, Copy)]
struct Settled<'a> {
    book: &'a FrozenBook,
    units: &'a [UnitRow],
    costs: &'a [CostRow],
}

impl Settled<'_> {
    fn has_costs(&self, line: u8) -> bool
        ensures { result ≡ nat_lt 0 (line_costs line self.now.costs.now) }
    {
        total(self.costs, Kinds::Only(line), WHOLE) > 0
    }

    // The rows of one line, none where it has no costs.
    fn put_line(&self, text: &mut [u8], place: usize, line: u8) -> Result<usize, Refusal>
        requires { place + most_rows line ≤ length text.old }
        ensures makes { (marks : List ℕ) → Makes (line_rows (closed (frozen_book self.now.book.now) self.now.units.now self.now.costs.now marks) line) text.old place result text.new }
        ensures near { IfOk result (λ end. end ≤ place + most_rows line) }
    {
        if !self.has_costs(line) {
            return Ok(place);
        }
        put_bill(
            text,
            place,
            &mut Running,
            line,
            self.book,
            self.units,
            self.costs,
        )
    }

    // The rows of all lines, in rising order.
    fn put_lines(&self, text: &mut [u8]) -> Result<usize, Refusal>
        requires { length text.old ≡ most_bytes }
        ensures makes { (marks : List ℕ) → Makes (lines_of (closed (frozen_book self.now.book.now) self.now.units.now self.now.costs.now marks)) text.old 0 result text.new }
        ensures near { IfOk result (λ end. end ≤ most_bytes) }
    {
        // a loop that keeps a place: the rows of a line begin behind those of the line before
        let mut place = 0;
        for line in 1..=LAST_LINE {
            place = self.put_line(text, place, line)?;
        }
        Ok(place)
    }
}

// The rows of all lines of a file's settled book.
fn put_statement(text: &mut [u8], file: &[u8]) -> Result<usize, Refusal>
    requires { length text.old ≡ most_bytes }
    ensures makes { Makes (text_of file.now) text.old 0 result text.new }
    ensures near { IfOk result (λ end. end ≤ most_bytes) }
{
    let sizes = file_sizes(file)?;
    // No heap: a statement allocates nothing, so its rows and marks are arrays.
    let mut units = [NO_UNITS; UNIT_ROWS];
    let mut costs = [NO_COST; COST_ROWS];
    let mut marks = [0u32; CONTRIBUTORS];
    let book = settle_file(sizes, &mut units, &mut costs, &mut marks, file)?;
    let settled = Settled {
        book: &book,
        units: &units,
        costs: &costs,
    };
    settled.put_lines(text)
}

// The row for a refusal, at the start of a row that has room for it. An array with a length, since
// nothing is allocated; the text of a line's bill has its own room in `line_rows`.
fn write_refused(row: &mut [u8; 16], refusal: Refusal) -> usize
    ensures text { take result row.new ≡ refused_text refusal }
    ensures near { result ≤ 16 }
{
    let at = put_bytes(row, 0, b"refused ").unwrap();
    let at = put_number(row, at, u64::from(refusal.number())).unwrap();
    put_bytes(row, at, b"\n").unwrap()
}

// Writes a text to the buffer, and tells its length.
fn put_told(out: &mut [u8], refusal: Option<Refusal>, text: &[u8]) -> Result<Statement, Refusal>
    ensures answers { result ≡ answer (put_refusal (length out.old) 0 text.now) (told (refusal, text.now)) }
    ensures out { out.new ≡ unless (put_refusal (length out.old) 0 text.now) out.old (pasted out.old 0 text.now) }
{
    let length = put_bytes(out, 0, text)?;
    Ok(Statement { length, refusal })
}

// Makes the statement of a unit file in the buffer. A file that is refused, by its form, by its book
// or by a bill, gets a statement too: the row for the refusal. The one refusal of the call itself is
// that of a buffer too short for the text, which stays as it was.
pub fn make_statement(file: &[u8], out: &mut [u8]) -> Result<Statement, Refusal>
    ensures answers { result ≡ answer (put_refusal (length out.old) 0 (statement_of file.now).1) (told (statement_of file.now)) }
    ensures out { out.new ≡ unless (put_refusal (length out.old) 0 (statement_of file.now).1) out.old (pasted out.old 0 (statement_of file.now).1) }
    ensures short { length (statement_of file.now).1 ≤ most_bytes }
{
    // No heap: the text is an array, and reaches the caller's buffer only when it is whole.
    let mut text = [0u8; MOST_BYTES];
    match put_statement(&mut text, file) {
        Ok(end) => put_told(out, None, &text[..end]),
        Err(refusal) => {
            let mut row = [0u8; 16];
            let end = write_refused(&mut row, refusal);
            put_told(out, Some(refusal), &row[..end])
        }
    }
}
