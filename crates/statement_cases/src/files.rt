// Unit files made for the cases, and the check of the statement of a file.
use statement_report::{Statement, make_statement};
use std::fmt::InlineText;
use std::process::Abort;
use std::test::Fail;
use tariff::{CostRow, Refusal, Sizes, UnitRow};
use unit_file::{Record, Writer};

// Customer, day, hour, subzone, use, quantity: in the cases a row is shorter as a tuple.
pub(crate) type Units = (u16, u8, u8, u8, u8, u32);

// Line, subzone, day, hour, amount.
pub(crate) type Cost = (u8, u8, u8, u8, u32);

// What a file's statement is to be: its rows, or the number of the refusal that it tells, as
// docs/REFUSALS.md publishes it.
pub(crate) type Expected = Result<&'static [u8], u8>;

// A file by its sizes (customers, days, subzones) and rows, and its statement.
#[derive(Clone, Copy)]
pub(crate) struct Case {
    pub what: &'static str,
    pub sizes: (u16, u8, u8),
    pub units: &'static [Units],
    pub costs: &'static [Cost],
    pub statement: Expected,
}

// The file of section 1 of docs/FORMAT.md.
pub(crate) const WORKED: Case = Case {
    what: "the worked file",
    sizes: (3, 1, 1),
    units: &[
        (0, 1, 1, 1, 0, 600),
        (1, 1, 1, 1, 0, 300),
        (2, 1, 1, 1, 4, 90),
    ],
    costs: &[(3, 1, 1, 1, 1000)],
    statement: Ok(b"3 0 666 0 66\n3 1 334 0 34\n3 2 0 100 0\n3 sum 1000 100 100 0 0 0\n"),
};

pub(crate) fn header(sizes: (u16, u8, u8)) -> Record<'static> {
    let (customers, days, subzones) = sizes;
    Record::Header(Sizes {
        customers,
        days,
        subzones,
    })
}

pub(crate) fn unit_row(row: Units) -> Record<'static> {
    let (customer, day, hour, subzone, usage, quantity) = row;
    Record::Unit(UnitRow {
        customer,
        day,
        hour,
        subzone,
        usage,
        quantity,
    })
}

pub(crate) fn cost_row(row: Cost) -> Record<'static> {
    let (line, subzone, day, hour, amount) = row;
    Record::Cost(CostRow {
        line,
        subzone,
        day,
        hour,
        amount,
    })
}

// Writes a file of these sizes and rows, and answers its length.
pub(crate) fn write_file(
    file: &mut [u8],
    sizes: (u16, u8, u8),
    units: &[Units],
    costs: &[Cost],
) -> Result<usize, Refusal> {
    let mut writer = Writer::new(file)?;
    writer.put(file, header(sizes))?;
    for row in units {
        writer.put(file, unit_row(*row))?;
    }
    for row in costs {
        writer.put(file, cost_row(*row))?;
    }
    writer.finish(file)
}

// What stands in a buffer before it is written to; no text has this byte.
pub(crate) const BLANK: u8 = 7;

pub(crate) fn is_blank(bytes: &[u8]) -> bool {
    bytes.iter().all(|byte| *byte == BLANK)
}

// The text of a statement: its rows, or the row for a refusal, which is made in `row`.
fn text_of<'a>(expected: Expected, row: &'a mut InlineText<16>) -> &'a [u8] {
    match expected {
        Ok(rows) => rows,
        Err(number) => {
            *row = InlineText::of(format_args!("refused {number}\n"));
            row.as_str().as_bytes()
        }
    }
}

// Checks that a buffer begins with a text, and that the bytes behind the text are blank.
pub(crate) fn check_text(rt: &impl Abort, out: &[u8], text: &[u8]) {
    assert!(rt; text.len() <= out.len());
    assert!(rt; &out[0..text.len()] == text);
    assert!(rt; is_blank(&out[text.len()..out.len()]));
}

// Gives the first bytes of a blank buffer to a check, which fills them, and checks that all others
// stay.
pub(crate) fn check_room<F: FnOnce(&mut [u8]) -> Result<(), Fail>>(
    rt: &impl Abort,
    bytes: &mut [u8],
    room: usize,
    fill: F,
) -> Result<(), Fail>
    requires { F.IsAlwaysCallable fill }
{
    let (out, beyond) = bytes
        .split_at_mut_checked(room)
        .ok_or_else(|| Fail::new("the text is too long for a case"))?;
    fill(out)?;
    assert!(rt; is_blank(beyond));
    Ok(())
}

// Checks the answer and the text of a statement made in a buffer of `room` bytes, and that all other
// bytes stay.
fn check_in(rt: &impl Abort, file: &[u8], room: usize, expected: Expected) -> Result<(), Fail> {
    check_room(rt, &mut [BLANK; 4096], room, |out| {
        let Statement { length, refusal } = make_statement(file, out)?;
        let mut row = InlineText::new();
        let text = text_of(expected, &mut row);
        assert_eq!(rt; length, text.len());
        assert_eq!(rt; refusal.map(Refusal::number), expected.err());
        check_text(rt, out, text);
        Ok(())
    })
}

// Checks that a buffer of `room` bytes is refused and stays as it was.
fn check_too_short(rt: &impl Abort, file: &[u8], room: usize) -> Result<(), Fail> {
    check_room(rt, &mut [BLANK; 4096], room, |out| {
        let answer = make_statement(file, out);
        assert_eq!(rt; answer, Err(Refusal::BufferTooShort));
        assert!(rt; is_blank(out));
        Ok(())
    })
}

// Checks the statement of a file in a buffer with room behind the text, in one with the length of
// the text, in one that is a byte shorter, and in an empty one.
pub(crate) fn check_file(rt: &impl Abort, file: &[u8], expected: Expected) -> Result<(), Fail> {
    let length = text_of(expected, &mut InlineText::new()).len();
    check_in(rt, file, 4096, expected)?;
    check_in(rt, file, length, expected)?;
    if length == 0 {
        return Ok(());
    }
    check_too_short(rt, file, length - 1)?;
    check_too_short(rt, file, 0)
}

// Checks the statement of the first bytes of a buffer.
pub(crate) fn check_front(
    rt: &impl Abort,
    bytes: &[u8],
    length: usize,
    expected: Expected,
) -> Result<(), Fail> {
    assert!(rt; length <= bytes.len());
    check_file(rt, &bytes[0..length], expected)
}

// Checks the statement of a file of these sizes and rows.
pub(crate) fn check_rows(
    rt: &impl Abort,
    sizes: (u16, u8, u8),
    units: &[Units],
    costs: &[Cost],
    expected: Expected,
) -> Result<(), Fail> {
    let mut file = [0; 1024];
    let length = write_file(&mut file, sizes, units, costs)?;
    check_front(rt, &file, length, expected)
}

pub(crate) fn check_case(rt: &impl Abort, case: Case) -> Result<(), Fail> {
    check_rows(rt, case.sizes, case.units, case.costs, case.statement)
}

pub(crate) fn check_cases(rt: &impl Abort, cases: &[Case]) -> Result<(), Fail> {
    for case in cases {
        check_case(rt, *case)?;
    }
    Ok(())
}
