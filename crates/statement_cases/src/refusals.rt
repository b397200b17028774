// Files that are refused, and the number of the refusal.
use crate::files::{
    Case, Cost, Expected, Units, check_cases, check_file, check_front, check_rows, cost_row,
    header, unit_row, write_file,
};
use std::process::Abort;
use std::test::Fail;
use tariff::Refusal;
use unit_file::{Record, Writer};

// Sizes outside their ranges.
const NO_SIZES: [(u16, u8, u8); 9] = [
    (0, 1, 1),
    (257, 1, 1),
    (65_535, 1, 1),
    (1, 0, 1),
    (1, 32, 1),
    (1, 255, 1),
    (1, 1, 0),
    (1, 1, 33),
    (0, 0, 0),
];

// Sizes at the ends of their ranges.
const SIZES: [(u16, u8, u8); 5] = [
    (1, 1, 1),
    (256, 1, 1),
    (1, 31, 1),
    (1, 1, 32),
    (256, 31, 32),
];

// Checks the statement of a header, and the refusal of one with a byte behind it that is no record.
fn check_sizes(
    rt: &impl Abort,
    sizes: (u16, u8, u8),
    expected: Expected,
    broken: u8,
) -> Result<(), Fail> {
    let mut file = [0; 9];
    let length = write_file(&mut file, sizes, &[], &[])?;
    assert_eq!(rt; length, 8);
    check_file(rt, &file[0..8], expected)?;
    check_file(rt, &file, Err(broken))
}

// The sizes are looked at before the rows.
#[test]
fn sizes(rt: HostRuntime) -> Result<(), Fail> {
    for sizes in &NO_SIZES {
        check_sizes(&rt, *sizes, Err(1), 1)?;
    }
    for sizes in &SIZES {
        check_sizes(&rt, *sizes, Ok(b""), 17)?;
    }
    Ok(())
}

// Unit rows with a field outside its range, in a book of 3 customers, 2 days and 2 subzones.
const NO_UNITS: [Units; 11] = [
    (3, 1, 1, 1, 0, 1),
    (65_535, 1, 1, 1, 0, 1),
    (0, 0, 1, 1, 0, 1),
    (0, 3, 1, 1, 0, 1),
    (0, 1, 0, 1, 0, 1),
    (0, 1, 25, 1, 0, 1),
    (0, 1, 1, 0, 0, 1),
    (0, 1, 1, 3, 0, 1),
    (0, 1, 1, 1, 5, 1),
    (0, 1, 1, 1, 255, 1),
    (0, 1, 1, 1, 0, 2_147_483_648),
];

const UNITS: [Units; 5] = [
    (0, 1, 1, 1, 0, 0),
    (2, 2, 24, 2, 4, 2_147_483_647),
    (1, 1, 24, 1, 3, 1),
    (1, 2, 1, 1, 2, 1),
    (1, 1, 1, 2, 1, 1),
];

#[test]
fn fields_of_unit_rows(rt: HostRuntime) -> Result<(), Fail> {
    for row in &NO_UNITS {
        check_rows(&rt, (3, 2, 2), &[*row], &[], Err(8))?;
    }
    for row in &UNITS {
        check_rows(&rt, (3, 2, 2), &[*row], &[], Ok(b""))?;
    }
    Ok(())
}

// Cost rows of unknown lines, with a field outside its range, or with one that the line does not
// need.
const NO_COSTS: [Cost; 35] = [
    (0, 1, 1, 1, 1),
    (0, 0, 0, 0, 1),
    (8, 1, 1, 1, 1),
    (8, 0, 0, 0, 1),
    (255, 0, 0, 0, 1),
    (1, 0, 1, 1, 1),
    (1, 3, 1, 1, 1),
    (1, 1, 0, 1, 1),
    (1, 1, 3, 1, 1),
    (1, 1, 1, 0, 1),
    (1, 1, 1, 25, 1),
    (2, 1, 1, 1, 1),
    (2, 0, 0, 1, 1),
    (2, 0, 1, 0, 1),
    (3, 0, 1, 1, 1),
    (3, 1, 3, 1, 1),
    (3, 1, 1, 0, 1),
    (4, 1, 1, 1, 1),
    (4, 0, 0, 1, 1),
    (4, 0, 1, 25, 1),
    (5, 0, 1, 0, 1),
    (5, 1, 0, 0, 1),
    (5, 1, 1, 1, 1),
    (6, 1, 0, 0, 1),
    (6, 0, 1, 0, 1),
    (6, 0, 0, 1, 1),
    (7, 1, 0, 0, 1),
    (7, 0, 1, 0, 1),
    (7, 0, 0, 1, 1),
    (1, 1, 1, 1, 0),
    (2, 0, 1, 1, 0),
    (5, 1, 1, 0, 0),
    (6, 0, 0, 0, 0),
    (1, 1, 1, 1, 2_147_483_648),
    (7, 0, 0, 0, 4_294_967_295),
];

const COSTS: [(Cost, &[u8]); 7] = [
    ((1, 2, 2, 24, 1), b"1 sum 0 0 0 0 0 1\n"),
    ((2, 0, 2, 24, 2), b"2 sum 0 0 0 0 0 2\n"),
    ((3, 2, 2, 24, 3), b"3 sum 0 0 0 0 0 3\n"),
    ((4, 0, 2, 24, 4), b"4 sum 0 0 0 0 0 4\n"),
    ((5, 2, 2, 0, 5), b"5 sum 0 0 0 0 0 5\n"),
    ((6, 0, 0, 0, 6), b"6 sum 0 0 0 0 0 6\n"),
    ((7, 0, 0, 0, 2_147_483_647), b"7 sum 0 0 0 0 0 2147483647\n"),
];

#[test]
fn fields_of_cost_rows(rt: HostRuntime) -> Result<(), Fail> {
    for row in &NO_COSTS {
        check_rows(&rt, (3, 2, 2), &[], &[*row], Err(8))?;
    }
    for case in &COSTS {
        check_rows(&rt, (3, 2, 2), &[], &[case.0], Ok(case.1))?;
    }
    Ok(())
}

const SUMS: [Case; 12] = [
    Case {
        what: "quantities one above the limit",
        sizes: (2, 2, 2),
        units: &[(0, 1, 1, 1, 0, 2_147_483_647), (1, 2, 2, 2, 4, 1)],
        costs: &[],
        statement: Err(11),
    },
    Case {
        what: "quantities at the limit",
        sizes: (2, 2, 2),
        units: &[
            (0, 1, 1, 1, 0, 2_147_483_646),
            (1, 2, 2, 2, 4, 1),
            (1, 1, 1, 1, 0, 0),
        ],
        costs: &[],
        statement: Ok(b""),
    },
    Case {
        what: "costs of a subzone and day one above the limit",
        sizes: (2, 2, 2),
        units: &[],
        costs: &[(3, 1, 1, 1, 2_147_483_647), (3, 1, 1, 2, 1)],
        statement: Err(11),
    },
    Case {
        what: "costs of a subzone and day at the limit, and other subzones, days and lines",
        sizes: (2, 2, 2),
        units: &[],
        costs: &[
            (3, 1, 1, 1, 2_147_483_646),
            (3, 1, 1, 2, 1),
            (3, 2, 1, 1, 1),
            (3, 1, 2, 1, 1),
            (1, 1, 1, 1, 1),
        ],
        statement: Ok(b"1 sum 0 0 0 0 0 1\n3 sum 0 0 0 0 0 2147483649\n"),
    },
    Case {
        what: "costs of the state and a day one above the limit",
        sizes: (2, 2, 2),
        units: &[],
        costs: &[(2, 0, 2, 24, 2_147_483_647), (2, 0, 2, 1, 1)],
        statement: Err(11),
    },
    Case {
        what: "costs of a daily line one above the limit",
        sizes: (2, 2, 2),
        units: &[],
        costs: &[(5, 1, 1, 0, 2_147_483_647), (5, 1, 1, 0, 1)],
        statement: Err(11),
    },
    Case {
        what: "costs of a period line one above the limit",
        sizes: (2, 2, 2),
        units: &[],
        costs: &[(6, 0, 0, 0, 2_147_483_647), (6, 0, 0, 0, 1)],
        statement: Err(11),
    },
    Case {
        what: "costs of both period lines at the limit",
        sizes: (2, 2, 2),
        units: &[],
        costs: &[
            (6, 0, 0, 0, 2_147_483_647),
            (7, 0, 0, 0, 2_147_483_646),
            (7, 0, 0, 0, 1),
        ],
        statement: Ok(b"6 sum 0 0 0 0 0 2147483647\n7 sum 0 0 0 0 0 2147483647\n"),
    },
    Case {
        what: "a field is looked at before a sum",
        sizes: (2, 2, 2),
        units: &[(0, 1, 1, 1, 0, 2_147_483_647), (1, 1, 25, 1, 0, 1)],
        costs: &[],
        statement: Err(8),
    },
    Case {
        what: "the first refused row stops the load",
        sizes: (2, 2, 2),
        units: &[
            (0, 1, 1, 1, 0, 2_147_483_647),
            (1, 1, 1, 1, 0, 1),
            (1, 1, 25, 1, 0, 1),
        ],
        costs: &[],
        statement: Err(11),
    },
    Case {
        what: "a refused unit row before a refused cost row",
        sizes: (2, 2, 2),
        units: &[(0, 1, 1, 1, 0, 2_147_483_647), (1, 1, 1, 1, 0, 1)],
        costs: &[(6, 0, 0, 0, 0)],
        statement: Err(11),
    },
    Case {
        what: "a refused row behind rows with figures",
        sizes: (2, 2, 2),
        units: &[(0, 1, 1, 1, 0, 5)],
        costs: &[(1, 1, 1, 1, 7), (1, 1, 1, 1, 2_147_483_641)],
        statement: Err(11),
    },
];

#[test]
fn sums(rt: HostRuntime) -> Result<(), Fail> {
    check_cases(&rt, &SUMS)
}

const STATIONS: [Case; 8] = [
    // 2147483647 × 2 ÷ 1.
    Case {
        what: "two station units, line 3",
        sizes: (2, 1, 1),
        units: &[(0, 1, 1, 1, 0, 1), (1, 1, 1, 1, 4, 2)],
        costs: &[(3, 1, 1, 1, 2_147_483_647)],
        statement: Err(14),
    },
    Case {
        what: "two station units, line 4",
        sizes: (2, 1, 1),
        units: &[(0, 1, 1, 1, 1, 1), (1, 1, 2, 1, 4, 2)],
        costs: &[(4, 0, 1, 3, 2_147_483_647)],
        statement: Err(14),
    },
    Case {
        what: "two station units, line 5",
        sizes: (2, 2, 2),
        units: &[(0, 2, 1, 2, 0, 1), (1, 2, 1, 2, 4, 2)],
        costs: &[(5, 2, 2, 0, 2_147_483_647)],
        statement: Err(14),
    },
    // 2 × 2147483647.
    Case {
        what: "one station unit of each of two customers",
        sizes: (2, 1, 1),
        units: &[(0, 1, 1, 1, 0, 1), (0, 1, 1, 1, 4, 1), (1, 1, 1, 1, 4, 1)],
        costs: &[(3, 1, 1, 1, 2_147_483_647)],
        statement: Err(14),
    },
    // 1073741824 × 2 ÷ 1 is 2147483648.
    Case {
        what: "one cent above the limit",
        sizes: (2, 1, 1),
        units: &[(0, 1, 1, 1, 0, 1), (1, 1, 1, 1, 4, 2)],
        costs: &[(3, 1, 1, 1, 1_073_741_824)],
        statement: Err(14),
    },
    // 1073741823 × 2 ÷ 1 is 2147483646.
    Case {
        what: "one cent below the limit",
        sizes: (2, 1, 1),
        units: &[(0, 1, 1, 1, 0, 1), (1, 1, 1, 1, 4, 2)],
        costs: &[(3, 1, 1, 1, 1_073_741_823)],
        statement: Ok(
            b"3 0 1073741823 0 2147483646\n3 1 0 2147483646 0\n3 sum 1073741823 2147483646 2147483646 0 0 0\n",
        ),
    },
    Case {
        what: "lines before and behind the refused one",
        sizes: (2, 1, 1),
        units: &[(0, 1, 1, 1, 0, 1), (1, 1, 1, 1, 4, 2)],
        costs: &[
            (1, 1, 1, 1, 5),
            (3, 1, 1, 1, 5),
            (5, 1, 1, 0, 2_147_483_647),
            (7, 0, 0, 0, 6),
        ],
        statement: Err(14),
    },
    // 2147483647 × 1 ÷ 3 is 715827882, and 2147483647 × 3 ÷ 3 the whole.
    Case {
        what: "lines without a station part",
        sizes: (2, 1, 1),
        units: &[(0, 1, 1, 1, 0, 1), (1, 1, 1, 1, 4, 2)],
        costs: &[(1, 1, 1, 1, 2_147_483_647), (6, 0, 0, 0, 2_147_483_647)],
        statement: Ok(
            b"1 0 2147483647 0 0\n1 sum 2147483647 0 0 0 0 0\n6 0 715827882 0 0\n6 1 1431655765 0 0\n6 sum 2147483647 0 0 0 0 0\n",
        ),
    },
];

#[test]
fn station_charges(rt: HostRuntime) -> Result<(), Fail> {
    check_cases(&rt, &STATIONS)
}

// What is wrong with a file, its bytes, and its statement. Sizes are 3 customers, 1 day, 1 subzone.
const FORMS: [(&str, &[u8], u8); 41] = [
    ("an empty file", b"", 16),
    ("version 2", b"\x02\0\x05\0\0\x03\x01\x01", 16),
    ("version 0", b"\0", 16),
    ("version 2 and a size of 0", b"\x02\0\x05\0\0\0\x01\x01", 16),
    ("a header cut short", b"\x01\0\x05\0\0\x03\x01", 17),
    ("a header of length 4", b"\x01\0\x04\0\0\x03\x01", 17),
    ("a header of length 6", b"\x01\0\x06\0\0\x03\x01\x01\0", 17),
    ("a first record of length 0", b"\x01\0\0", 17),
    ("half a length", b"\x01\0", 17),
    (
        "a header of length 4 and a size of 0",
        b"\x01\0\x04\0\0\0\x01",
        17,
    ),
    ("a stray byte", b"\x01\0\x05\0\0\x03\x01\x01\0", 17),
    (
        "a record of length 0",
        b"\x01\0\x05\0\0\x03\x01\x01\0\0",
        17,
    ),
    (
        "a unit row of length 10",
        b"\x01\0\x05\0\0\x03\x01\x01\0\x0a\x01\0\0\x01\x01\x01\0\0\0\x02",
        17,
    ),
    (
        "a unit row cut short",
        b"\x01\0\x05\0\0\x03\x01\x01\0\x0b\x01\0\0\x01\x01\x01\0\0\0\x02",
        17,
    ),
    (
        "a cost row of length 10",
        b"\x01\0\x05\0\0\x03\x01\x01\0\x0a\x02\x03\x01\x01\x01\0\0\x03\xe8\0",
        17,
    ),
    (
        "a cost row cut short",
        b"\x01\0\x05\0\0\x03\x01\x01\0\x09\x02\x03\x01\x01\x01\0\0\x03",
        17,
    ),
    ("an empty note", b"\x01\0\x05\0\0\x03\x01\x01\0\x01\x03", 17),
    (
        "a note cut short",
        b"\x01\0\x05\0\0\x03\x01\x01\0\x03\x03A",
        17,
    ),
    (
        "a second header of length 6",
        b"\x01\0\x05\0\0\x03\x01\x01\0\x06\0\0\x03\x01\x01\0",
        17,
    ),
    (
        "an unknown kind cut short",
        b"\x01\0\x05\0\0\x03\x01\x01\0\x02\x04",
        17,
    ),
    ("the version alone", b"\x01", 18),
    ("a note first", b"\x01\0\x02\x03A", 18),
    (
        "a note before the header",
        b"\x01\0\x02\x03A\0\x05\0\0\x03\x01\x01",
        18,
    ),
    (
        "a unit row first",
        b"\x01\0\x0b\x01\0\0\x01\x01\x01\0\0\0\x02\x58",
        18,
    ),
    (
        "a cost row first",
        b"\x01\0\x09\x02\x03\x01\x01\x01\0\0\x03\xe8",
        18,
    ),
    ("an unknown kind first", b"\x01\0\x01\x04", 18),
    ("kind 4", b"\x01\0\x05\0\0\x03\x01\x01\0\x01\x04", 18),
    ("kind 255", b"\x01\0\x05\0\0\x03\x01\x01\0\x02\xff\0", 18),
    (
        "the header twice",
        b"\x01\0\x05\0\0\x03\x01\x01\0\x05\0\0\x03\x01\x01",
        18,
    ),
    (
        "a second header of other sizes",
        b"\x01\0\x05\0\0\x03\x01\x01\0\x05\0\0\x02\x01\x01",
        18,
    ),
    (
        "a second header of no sizes",
        b"\x01\0\x05\0\0\x03\x01\x01\0\x05\0\0\0\x01\x01",
        18,
    ),
    (
        "a second header behind a note",
        b"\x01\0\x05\0\0\x03\x01\x01\0\x02\x03A\0\x05\0\0\x03\x01\x01",
        18,
    ),
    (
        "a note with byte 31",
        b"\x01\0\x05\0\0\x03\x01\x01\0\x03\x03A\x1f",
        18,
    ),
    (
        "a note with byte 127",
        b"\x01\0\x05\0\0\x03\x01\x01\0\x03\x03\x7fA",
        18,
    ),
    (
        "a note with byte 10",
        b"\x01\0\x05\0\0\x03\x01\x01\0\x02\x03\x0a",
        18,
    ),
    (
        "sizes of 0 and a second header",
        b"\x01\0\x05\0\0\0\x01\x01\0\x05\0\0\0\x01\x01",
        1,
    ),
    (
        "hour 25 and a stray byte",
        b"\x01\0\x05\0\0\x03\x01\x01\0\x0b\x01\0\0\x01\x19\x01\0\0\0\x02\x58\0",
        8,
    ),
    (
        "an unknown kind and hour 25",
        b"\x01\0\x05\0\0\x03\x01\x01\0\x01\x04\0\x0b\x01\0\0\x01\x19\x01\0\0\0\x02\x58",
        18,
    ),
    (
        "hour 25 cut short",
        b"\x01\0\x05\0\0\x03\x01\x01\0\x0b\x01\0\0\x01\x19\x01\0\0\0\x02",
        17,
    ),
    (
        "a stray byte behind a cost row",
        b"\x01\0\x05\0\0\x03\x01\x01\0\x09\x02\x03\x01\x01\x01\0\0\x03\xe8\0",
        17,
    ),
    (
        "station charges too large and a stray byte",
        b"\x01\0\x05\0\0\x03\x01\x01\0\x0b\x01\0\0\x01\x01\x01\0\0\0\0\x01\0\x0b\x01\0\0\x01\x01\x01\x04\0\0\0\x02\0\x09\x02\x03\x01\x01\x01\x7f\xff\xff\xff\0",
        17,
    ),
];

#[test]
fn forms(rt: HostRuntime) -> Result<(), Fail> {
    for case in &FORMS {
        check_file(&rt, case.1, Err(case.2))?;
    }
    check_file(&rt, b"\x01\0\x05\0\0\x03\x01\x01\0\x03\x03 ~", Ok(b""))
}

// A file that is too long is refused before its sizes are looked at.
#[test]
fn too_long(rt: HostRuntime) -> Result<(), Fail> {
    let mut file = [0; 65_537];
    write_file(&mut file, (0, 1, 1), &[], &[])?;
    check_file(&rt, &file, Err(16))?;
    check_front(&rt, &file, 65_536, Err(1))
}

// Writes a file with so many rows: units of customers 0 and 1 in turn, costs of 1 cent, and then
// one record more.
fn write_full(file: &mut [u8], units: u16, costs: u16, last: Record) -> Result<usize, Refusal> {
    let mut writer = Writer::new(file)?;
    writer.put(file, header((2, 1, 1)))?;
    for i in 0..units {
        writer.put(file, unit_row((i % 2, 1, 1, 1, 0, 1)))?;
    }
    for _ in 0..costs {
        writer.put(file, cost_row((6, 0, 0, 0, 1)))?;
    }
    writer.put(file, last)?;
    writer.finish(file)
}

fn check_full(
    rt: &impl Abort,
    units: u16,
    costs: u16,
    last: Record,
    expected: Expected,
) -> Result<(), Fail> {
    let mut file = [0; 40_000];
    let length = write_full(&mut file, units, costs, last)?;
    check_front(rt, &file, length, expected)
}

const TABLES_FULL: &[u8] = b"6 0 256 0 0\n6 1 256 0 0\n6 sum 512 0 0 0 0 0\n";

// A statement has room for 2,048 unit rows and 512 cost rows. 512 cents are shared by 1,024 units of
// each customer.
#[test]
fn full_tables(rt: HostRuntime) -> Result<(), Fail> {
    let note = Record::Note(b"full");
    let unit = unit_row((0, 1, 1, 1, 0, 1));
    let cost = cost_row((6, 0, 0, 0, 1));
    check_full(&rt, 2048, 512, note, Ok(TABLES_FULL))?;
    check_full(
        &rt,
        2047,
        511,
        note,
        Ok(b"6 0 255 0 0\n6 1 256 0 0\n6 sum 511 0 0 0 0 0\n"),
    )?;
    check_full(&rt, 2048, 511, cost, Ok(TABLES_FULL))?;
    check_full(&rt, 2047, 512, unit, Ok(TABLES_FULL))?;
    check_full(&rt, 2048, 512, unit, Err(10))?;
    check_full(&rt, 2048, 512, cost, Err(10))?;
    check_full(&rt, 2048, 0, unit, Err(10))?;
    check_full(&rt, 0, 512, cost, Err(10))
}

// A field is looked at before the table, and the table before a sum.
#[test]
fn order_at_full_tables(rt: HostRuntime) -> Result<(), Fail> {
    let late = unit_row((0, 1, 25, 1, 0, 1));
    let large = unit_row((0, 1, 1, 1, 0, 2_147_483_647));
    let no_line = cost_row((8, 0, 0, 0, 1));
    let much = cost_row((6, 0, 0, 0, 2_147_483_647));
    check_full(&rt, 2048, 512, late, Err(8))?;
    check_full(&rt, 2048, 512, large, Err(10))?;
    check_full(&rt, 2047, 512, large, Err(11))?;
    check_full(&rt, 2048, 512, no_line, Err(8))?;
    check_full(&rt, 2048, 512, much, Err(10))?;
    check_full(&rt, 2048, 511, much, Err(11))
}
