// Reads one line of a journal.
ghost use Rattle.std.specs.Prelude.{◌≡◌, ◌≢◌, ◌≤◌, ◌++◌, length, All, Some};
ghost use Rattle.journal_line.specs.Lines.{word_ends, call_in, opening_in, unit_row_in, cost_row_in, post_in, correct_in, cost_in, rule_in, bill_in, fields_in, line_in};
ghost use Rattle.std.specs.Option.{option_map};

use crate::calls::{CallName, Command, Fault, Line, Opening};
use crate::fields::{last, last_within, next, next_within};
use scanning::at_end;
use sharing::RuleName;
use std::str;
use tariff::{CostRow, Sizes, UnitRow};

// Separates the words of a line.
const SPACE: u8 = b' ';

// How long the longest words of the calls and of the rules are: `hand-in` and `running`.
const LONGEST: usize = 7;

// The most rows that a journal's tables can have.
const MOST_UNIT_ROWS: u64 = 65_536;

const MOST_COST_ROWS: u64 = 16_384;

// The first word of a line, or the first eight bytes of a longer one, and what follows.
fn first_word<'a>(line: &'a [u8]) -> (&'a [u8], &'a [u8])
    ensures whole { line.now ≡ result.0.now ++ result.1.now }
    ensures word { All (λ b. b ≢ 32) result.0.now }
    ensures ends { length result.0.now ≤ 7 → word_ends result.1.now ≡ Some result.1.now }
{
    // a call's word and the space behind it lie in these bytes, however long the line is
    let front = &line[..line.len().min(LONGEST + 1)];
    let end = front
        .iter()
        .position(|b| *b == SPACE)
        .unwrap_or(front.len());
    line.split_at(end)
}

// The call of a line, and what follows it.
fn call_in<'a>(line: &'a [u8]) -> Option<(CallName, &'a [u8])>
    ensures { option_map (λ p. (p.0, p.1.now)) result ≡ call_in line.now }
{
    let (word, rest) = first_word(line);
    let call = CallName::named(word)?;
    Some((call, rest))
}

fn opening_in(text: &[u8]) -> Option<Opening>
    ensures { result ≡ opening_in text.now }
{
    let (number, text) = next(text)?;
    let (customers, text) = next(text)?;
    let (days, text) = next(text)?;
    let (subzones, text) = next(text)?;
    let (unit_rows, text) = next_within(text, MOST_UNIT_ROWS)?;
    let cost_rows = last_within(text, MOST_COST_ROWS)?;
    Some(Opening {
        number,
        sizes: Sizes {
            customers,
            days,
            subzones,
        },
        unit_rows,
        cost_rows,
    })
}

fn unit_row_in(text: &[u8]) -> Option<UnitRow>
    ensures { result ≡ unit_row_in text.now }
{
    let (customer, text) = next(text)?;
    let (day, text) = next(text)?;
    let (hour, text) = next(text)?;
    let (subzone, text) = next(text)?;
    let (usage, text) = next(text)?;
    let quantity = last(text)?;
    Some(UnitRow {
        customer,
        day,
        hour,
        subzone,
        usage,
        quantity,
    })
}

fn cost_row_in(text: &[u8]) -> Option<CostRow>
    ensures { result ≡ cost_row_in text.now }
{
    let (line, text) = next(text)?;
    let (subzone, text) = next(text)?;
    let (day, text) = next(text)?;
    let (hour, text) = next(text)?;
    let amount = last(text)?;
    Some(CostRow {
        line,
        subzone,
        day,
        hour,
        amount,
    })
}

fn post_in(text: &[u8]) -> Option<Command>
    ensures { result ≡ post_in text.now }
{
    let (pass, text) = next(text)?;
    let row = unit_row_in(text)?;
    Some(Command::Post { pass, row })
}

fn correct_in(text: &[u8]) -> Option<Command>
    ensures { result ≡ correct_in text.now }
{
    let (pass, text) = next(text)?;
    let (row, text) = next(text)?;
    let quantity = last(text)?;
    Some(Command::Correct {
        pass,
        row,
        quantity,
    })
}

fn cost_in(text: &[u8]) -> Option<Command>
    ensures { result ≡ cost_in text.now }
{
    let (pass, text) = next(text)?;
    let row = cost_row_in(text)?;
    Some(Command::Cost { pass, row })
}

fn rule_in(text: &[u8]) -> Option<RuleName>
    ensures { result ≡ rule_in text.now }
{
    let word = text.strip_prefix(b" ")?;
    // what is longer than a rule's word is not read to its end
    if word.len() > LONGEST {
        return None;
    }
    RuleName::named(str::from_utf8(word).ok()?)
}

fn bill_in(text: &[u8]) -> Option<Command>
    ensures { result ≡ bill_in text.now }
{
    let (line, text) = next(text)?;
    let rule = rule_in(text)?;
    Some(Command::Bill { line, rule })
}

// What the fields behind a call say.
fn fields_in(call: CallName, text: &[u8]) -> Option<Line>
    ensures { result ≡ fields_in call text.now }
{
    let command = match call {
        CallName::Open => return opening_in(text).map(Line::Open),
        CallName::Admit => Command::Admit {
            contributor: last(text)?,
        },
        CallName::Remove => Command::Remove {
            contributor: last(text)?,
        },
        CallName::HandIn => Command::HandIn { pass: last(text)? },
        CallName::TakeIn => Command::TakeIn { pass: last(text)? },
        CallName::Post => post_in(text)?,
        CallName::Correct => correct_in(text)?,
        CallName::Cost => cost_in(text)?,
        CallName::Freeze => at_end(text, Command::Freeze)?,
        CallName::Reopen => at_end(text, Command::Reopen)?,
        CallName::Bill => bill_in(text)?,
    };
    Some(Line::Call(command))
}

// What a line of a journal says; a line that is empty or a remark, which begins with `#`, is skipped.
pub fn parse_line(line: &[u8]) -> Result<Line, Fault>
    ensures { result ≡ line_in line.now }
{
    if let [] | [b'#', ..] = line {
        return Ok(Line::Skipped);
    }
    let (call, fields) = call_in(line).ok_or(Fault::UnknownCall)?;
    fields_in(call, fields).ok_or(Fault::Fields(call))
}
