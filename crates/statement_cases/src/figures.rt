// Statements of files that are accepted. The figures were worked out by hand, as the comments say.
use crate::files::{
    Case, WORKED, check_case, check_cases, check_file, check_front, cost_row, header, unit_row,
};
use statement_report::make_statement;
use std::test::Fail;
use tariff::Refusal;
use unit_file::{Record, Writer};

// 1000 × 600 ÷ 900 is 666, and 1000 less that is 334; 1000 × 90 ÷ 900 is 100; 100 × 600 ÷ 900 is 66,
// and 100 less that is 34.
#[test]
fn worked_file(rt: HostRuntime) -> Result<(), Fail> {
    check_case(&rt, WORKED)?;
    check_file(
        &rt,
        b"\x01\0\x05\0\0\x03\x01\x01\0\x0b\x01\0\0\x01\x01\x01\0\0\0\x02\x58\0\x0b\x01\0\x01\x01\x01\x01\0\0\0\x01\x2c\0\x0b\x01\0\x02\x01\x01\x01\x04\0\0\0\x5a\0\x09\x02\x03\x01\x01\x01\0\0\x03\xe8",
        Ok(b"3 0 666 0 66\n3 1 334 0 34\n3 2 0 100 0\n3 sum 1000 100 100 0 0 0\n"),
    )
}

const LINES: [Case; 9] = [
    // In subzone 1, hour 1 shares 100 by 1 and 2: 100 × 1 ÷ 3 is 33, and 100 - 33 is 67. The wheel
    // through of hour 2 and the station power are not counted, so that 40 is stranded. Subzone 2
    // has its 7 for customer 2.
    Case {
        what: "line 1",
        sizes: (3, 2, 2),
        units: &[
            (0, 1, 1, 1, 0, 1),
            (1, 1, 1, 1, 0, 2),
            (2, 1, 1, 2, 0, 5),
            (0, 1, 2, 1, 1, 9),
            (1, 1, 1, 1, 4, 50),
        ],
        costs: &[(1, 1, 1, 1, 100), (1, 1, 1, 2, 40), (1, 2, 1, 1, 7)],
        statement: Ok(b"1 0 33 0 0\n1 1 67 0 0\n1 2 7 0 0\n1 sum 107 0 0 0 0 40\n"),
    },
    // Hour 1 of day 1 shares 100 by 1 and 2 of two subzones: 33 and 67. Hour 1 of day 2 has its 9
    // for customer 2; hour 2 of day 2 has no units.
    Case {
        what: "line 2",
        sizes: (3, 2, 2),
        units: &[(0, 1, 1, 1, 0, 1), (1, 1, 1, 2, 0, 2), (2, 2, 1, 1, 0, 5)],
        costs: &[(2, 0, 1, 1, 100), (2, 0, 2, 1, 9), (2, 0, 2, 2, 3)],
        statement: Ok(b"2 0 33 0 0\n2 1 67 0 0\n2 2 9 0 0\n2 sum 109 0 0 0 0 3\n"),
    },
    // Hour 1 has its 500 for customer 0; hour 3 has no units. The day has costs 500 + 400 and units
    // 600 + 300, so that customer 2 is charged 900 × 90 ÷ 900 = 90 for its station. Credits: 90 ×
    // 600 ÷ 900 is 60, and 90 - 60 is 30. Customer 1 has a credit alone, customer 2 a station
    // charge alone, customer 3 nothing.
    Case {
        what: "line 3",
        sizes: (4, 1, 1),
        units: &[
            (0, 1, 1, 1, 0, 600),
            (1, 1, 2, 1, 0, 300),
            (2, 1, 1, 1, 4, 90),
        ],
        costs: &[(3, 1, 1, 1, 500), (3, 1, 1, 3, 400)],
        statement: Ok(b"3 0 500 0 60\n3 1 0 0 30\n3 2 0 90 0\n3 sum 500 90 90 0 0 400\n"),
    },
    // Load, wheels through and exports of both subzones are counted, 100 + 200 + 300; use 3 is not.
    // 1000 × 100 ÷ 600 is 166, 1000 × 300 ÷ 600 - 166 is 334, 1000 - 500 is 500. The station power
    // of another hour of the day is charged 1000 × 60 ÷ 600 = 100. Credits: 100 × 100 ÷ 600 is 16,
    // 100 × 300 ÷ 600 - 16 is 34, 100 - 50 is 50.
    Case {
        what: "line 4",
        sizes: (5, 1, 2),
        units: &[
            (0, 1, 1, 1, 0, 100),
            (1, 1, 1, 2, 1, 200),
            (2, 1, 1, 1, 2, 300),
            (3, 1, 1, 1, 3, 400),
            (4, 1, 5, 2, 4, 60),
        ],
        costs: &[(4, 0, 1, 1, 1000)],
        statement: Ok(
            b"4 0 166 0 16\n4 1 334 0 34\n4 2 500 0 50\n4 4 0 100 0\n4 sum 1000 100 100 0 0 0\n",
        ),
    },
    // Day 1 of subzone 1 shares 100 by 10 and 20 of two hours: 100 × 10 ÷ 30 is 33, 100 - 33 is 67.
    // Its station power is charged 100 × 6 ÷ 30 = 20; credits: 20 × 10 ÷ 30 is 6, 20 - 6 is 14.
    // Subzone 2 has 11 for customer 0 on day 1, and 4 for nobody on day 2.
    Case {
        what: "line 5",
        sizes: (2, 2, 2),
        units: &[
            (0, 1, 1, 1, 0, 10),
            (1, 1, 24, 1, 0, 20),
            (1, 2, 1, 1, 0, 7),
            (0, 1, 2, 2, 0, 5),
            (0, 1, 3, 1, 4, 6),
        ],
        costs: &[(5, 1, 1, 0, 100), (5, 2, 1, 0, 11), (5, 2, 2, 0, 4)],
        statement: Ok(b"5 0 44 20 6\n5 1 67 0 14\n5 sum 111 20 20 0 0 4\n"),
    },
    // All uses but 3 are counted: 1 + 2 + 3 + 4. 60 + 40 shared by them is 10, 20, 30, 40.
    Case {
        what: "line 6",
        sizes: (4, 2, 2),
        units: &[
            (0, 1, 1, 1, 0, 1),
            (1, 2, 24, 2, 1, 2),
            (2, 1, 1, 1, 3, 50),
            (2, 2, 3, 1, 4, 3),
            (3, 1, 1, 2, 2, 4),
        ],
        costs: &[(6, 0, 0, 0, 60), (6, 0, 0, 0, 40)],
        statement: Ok(b"6 0 10 0 0\n6 1 20 0 0\n6 2 30 0 0\n6 3 40 0 0\n6 sum 100 0 0 0 0 0\n"),
    },
    // 55 × 1 ÷ 10 is 5, 55 × 3 ÷ 10 - 5 is 11, 55 × 6 ÷ 10 - 16 is 17, 55 - 33 is 22.
    Case {
        what: "line 7",
        sizes: (4, 2, 2),
        units: &[
            (0, 1, 1, 1, 0, 1),
            (1, 2, 24, 2, 1, 2),
            (2, 1, 1, 1, 3, 50),
            (2, 2, 3, 1, 4, 3),
            (3, 1, 1, 2, 2, 4),
        ],
        costs: &[(7, 0, 0, 0, 55)],
        statement: Ok(b"7 0 5 0 0\n7 1 11 0 0\n7 2 17 0 0\n7 3 22 0 0\n7 sum 55 0 0 0 0 0\n"),
    },
    // Line 1: 1 × 100 ÷ 400 is 0, so that customer 0 is left out. Line 2: 5 × 100 ÷ 400 is 1. Line 3:
    // subzone 2 has no load. Line 4: 60 by 100 and 500; 60 × 40 ÷ 600 is 4, of which customer 0 is
    // credited 4 × 100 ÷ 600 = 0. Line 5: 80 by 100 and 300; 80 × 40 ÷ 400 is 8, credited as 2 and 6.
    // Lines 6 and 7: 64 and 640 by 100, 500 and 40.
    Case {
        what: "all lines, in falling order",
        sizes: (3, 1, 2),
        units: &[
            (0, 1, 1, 1, 0, 100),
            (1, 1, 1, 1, 0, 300),
            (1, 1, 1, 2, 1, 200),
            (2, 1, 1, 1, 4, 40),
        ],
        costs: &[
            (7, 0, 0, 0, 640),
            (6, 0, 0, 0, 64),
            (5, 1, 1, 0, 80),
            (4, 0, 1, 1, 60),
            (3, 2, 1, 1, 9),
            (2, 0, 1, 1, 5),
            (1, 1, 1, 1, 1),
        ],
        statement: Ok(
            b"1 1 1 0 0\n1 sum 1 0 0 0 0 0\n2 0 1 0 0\n2 1 4 0 0\n2 sum 5 0 0 0 0 0\n3 sum 0 0 0 0 0 9\n4 0 10 0 0\n4 1 50 0 4\n4 2 0 4 0\n4 sum 60 4 4 0 0 0\n5 0 20 0 2\n5 1 60 0 6\n5 2 0 8 0\n5 sum 80 8 8 0 0 0\n6 0 10 0 0\n6 1 50 0 0\n6 2 4 0 0\n6 sum 64 0 0 0 0 0\n7 0 100 0 0\n7 1 500 0 0\n7 2 40 0 0\n7 sum 640 0 0 0 0 0\n",
        ),
    },
    // Units of all lines, but costs of lines 2 and 7 alone.
    Case {
        what: "lines without costs are left out",
        sizes: (2, 1, 1),
        units: &[(1, 1, 1, 1, 0, 8), (0, 1, 1, 1, 4, 2)],
        costs: &[(2, 0, 1, 1, 30), (7, 0, 0, 0, 20)],
        statement: Ok(
            b"2 1 30 0 0\n2 sum 30 0 0 0 0 0\n7 0 4 0 0\n7 1 16 0 0\n7 sum 20 0 0 0 0 0\n",
        ),
    },
];

#[test]
fn lines(rt: HostRuntime) -> Result<(), Fail> {
    check_cases(&rt, &LINES)
}

const NO_FIGURES: [Case; 8] = [
    Case {
        what: "the header alone",
        sizes: (3, 1, 1),
        units: &[],
        costs: &[],
        statement: Ok(b""),
    },
    Case {
        what: "units without costs",
        sizes: (3, 1, 1),
        units: &[(0, 1, 1, 1, 0, 600), (1, 1, 1, 1, 4, 300)],
        costs: &[],
        statement: Ok(b""),
    },
    Case {
        what: "costs of all lines without units",
        sizes: (1, 1, 1),
        units: &[],
        costs: &[
            (1, 1, 1, 1, 11),
            (2, 0, 1, 1, 12),
            (3, 1, 1, 1, 13),
            (4, 0, 1, 1, 14),
            (5, 1, 1, 0, 15),
            (6, 0, 0, 0, 16),
            (7, 0, 0, 0, 17),
        ],
        statement: Ok(
            b"1 sum 0 0 0 0 0 11\n2 sum 0 0 0 0 0 12\n3 sum 0 0 0 0 0 13\n4 sum 0 0 0 0 0 14\n5 sum 0 0 0 0 0 15\n6 sum 0 0 0 0 0 16\n7 sum 0 0 0 0 0 17\n",
        ),
    },
    Case {
        what: "quantities of 0",
        sizes: (2, 1, 1),
        units: &[(0, 1, 1, 1, 0, 0), (1, 1, 1, 1, 0, 0)],
        costs: &[(1, 1, 1, 1, 5), (6, 0, 0, 0, 6)],
        statement: Ok(b"1 sum 0 0 0 0 0 5\n6 sum 0 0 0 0 0 6\n"),
    },
    // The day's units are 0, and so is the station charge. Line 6 counts station power.
    Case {
        what: "station power alone",
        sizes: (2, 1, 1),
        units: &[(1, 1, 1, 1, 4, 9)],
        costs: &[
            (3, 1, 1, 1, 5),
            (4, 0, 1, 1, 6),
            (5, 1, 1, 0, 7),
            (6, 0, 0, 0, 8),
        ],
        statement: Ok(
            b"3 sum 0 0 0 0 0 5\n4 sum 0 0 0 0 0 6\n5 sum 0 0 0 0 0 7\n6 1 8 0 0\n6 sum 8 0 0 0 0 0\n",
        ),
    },
    Case {
        what: "use 3 is counted by no line",
        sizes: (1, 1, 1),
        units: &[(0, 1, 1, 1, 3, 9)],
        costs: &[
            (2, 0, 1, 1, 1),
            (4, 0, 1, 1, 2),
            (6, 0, 0, 0, 3),
            (7, 0, 0, 0, 4),
        ],
        statement: Ok(
            b"2 sum 0 0 0 0 0 1\n4 sum 0 0 0 0 0 2\n6 sum 0 0 0 0 0 3\n7 sum 0 0 0 0 0 4\n",
        ),
    },
    // Uses 1 and 2 are counted by lines 4, 6 and 7 alone.
    Case {
        what: "wheels through and exports",
        sizes: (2, 1, 1),
        units: &[(0, 1, 1, 1, 1, 1), (1, 1, 1, 1, 2, 3)],
        costs: &[
            (2, 0, 1, 1, 4),
            (3, 1, 1, 1, 4),
            (4, 0, 1, 1, 4),
            (5, 1, 1, 0, 4),
        ],
        statement: Ok(
            b"2 sum 0 0 0 0 0 4\n3 sum 0 0 0 0 0 4\n4 0 1 0 0\n4 1 3 0 0\n4 sum 4 0 0 0 0 0\n5 sum 0 0 0 0 0 4\n",
        ),
    },
    // Customer 0 has 1 × 1 ÷ 2 = 0 and customer 1 the cent; the station charge is 1 × 1 ÷ 2 = 0.
    Case {
        what: "figures less than a cent",
        sizes: (3, 1, 1),
        units: &[(0, 1, 1, 1, 0, 1), (1, 1, 1, 1, 0, 1), (2, 1, 1, 1, 4, 1)],
        costs: &[(3, 1, 1, 1, 1)],
        statement: Ok(b"3 1 1 0 0\n3 sum 1 0 0 0 0 0\n"),
    },
];

#[test]
fn no_figures(rt: HostRuntime) -> Result<(), Fail> {
    check_cases(&rt, &NO_FIGURES)
}

const LARGE_FIGURES: [Case; 7] = [
    // 100 × 5 ÷ 1.
    Case {
        what: "a station charge above the pool",
        sizes: (2, 1, 1),
        units: &[(0, 1, 1, 1, 0, 1), (1, 1, 1, 1, 4, 5)],
        costs: &[(3, 1, 1, 1, 100)],
        statement: Ok(b"3 0 100 0 500\n3 1 0 500 0\n3 sum 100 500 500 0 0 0\n"),
    },
    Case {
        what: "station charges at the limit",
        sizes: (2, 1, 1),
        units: &[(0, 1, 1, 1, 0, 1), (1, 1, 1, 1, 4, 1)],
        costs: &[(3, 1, 1, 1, 2_147_483_647)],
        statement: Ok(
            b"3 0 2147483647 0 2147483647\n3 1 0 2147483647 0\n3 sum 2147483647 2147483647 2147483647 0 0 0\n",
        ),
    },
    // Each day has its own R: 2 × 2147483647 together.
    Case {
        what: "station charges at the limit on two days",
        sizes: (2, 2, 1),
        units: &[
            (0, 1, 1, 1, 0, 1),
            (1, 1, 1, 1, 4, 1),
            (0, 2, 1, 1, 0, 1),
            (1, 2, 1, 1, 4, 1),
        ],
        costs: &[(5, 1, 1, 0, 2_147_483_647), (5, 1, 2, 0, 2_147_483_647)],
        statement: Ok(
            b"5 0 4294967294 0 4294967294\n5 1 0 4294967294 0\n5 sum 4294967294 4294967294 4294967294 0 0 0\n",
        ),
    },
    // 4 × 2147483647.
    Case {
        what: "costs at the limit in two subzones on two days",
        sizes: (1, 2, 2),
        units: &[
            (0, 1, 1, 1, 0, 1),
            (0, 2, 1, 1, 0, 1),
            (0, 1, 1, 2, 0, 1),
            (0, 2, 1, 2, 0, 1),
        ],
        costs: &[
            (1, 1, 1, 1, 2_147_483_647),
            (1, 1, 2, 1, 2_147_483_647),
            (1, 2, 1, 1, 2_147_483_647),
            (1, 2, 2, 1, 2_147_483_647),
        ],
        statement: Ok(b"1 0 8589934588 0 0\n1 sum 8589934588 0 0 0 0 0\n"),
    },
    // 2 × 2147483647.
    Case {
        what: "stranded costs above 32 bits",
        sizes: (1, 2, 1),
        units: &[],
        costs: &[(5, 1, 1, 0, 2_147_483_647), (5, 1, 2, 0, 2_147_483_647)],
        statement: Ok(b"5 sum 0 0 0 0 0 4294967294\n"),
    },
    // 2147483647 × 2147483646 ÷ 2147483647, and the one cent that is left.
    Case {
        what: "quantities and costs at the limit",
        sizes: (2, 1, 1),
        units: &[(0, 1, 1, 1, 0, 2_147_483_646), (1, 1, 1, 1, 0, 1)],
        costs: &[(6, 0, 0, 0, 2_147_483_647)],
        statement: Ok(b"6 0 2147483646 0 0\n6 1 1 0 0\n6 sum 2147483647 0 0 0 0 0\n"),
    },
    Case {
        what: "the last customer, day, hour and subzone",
        sizes: (256, 31, 32),
        units: &[(255, 31, 24, 32, 0, 2), (254, 31, 24, 32, 4, 3)],
        costs: &[(3, 32, 31, 24, 10)],
        statement: Ok(b"3 254 0 15 0\n3 255 10 0 15\n3 sum 10 15 15 0 0 0\n"),
    },
];

#[test]
fn large_figures(rt: HostRuntime) -> Result<(), Fail> {
    check_cases(&rt, &LARGE_FIGURES)
}

fn put_note(writer: &mut Writer, file: &mut [u8], note: &[u8]) -> Result<(), Refusal> {
    writer.put(file, Record::Note(note))
}

// Writes the file of a case with its cost rows first, notes between the rows, and then so many notes
// of 200 bytes and a last one.
fn write_noted(file: &mut [u8], case: Case, notes: usize, last: &[u8]) -> Result<usize, Refusal> {
    let mut writer = Writer::new(file)?;
    writer.put(file, header(case.sizes))?;
    put_note(&mut writer, file, b"cost 9")?;
    for row in case.costs {
        writer.put(file, cost_row(*row))?;
        put_note(&mut writer, file, b" ")?;
    }
    for row in case.units {
        writer.put(file, unit_row(*row))?;
        put_note(&mut writer, file, b"~")?;
    }
    for _ in 0..notes {
        put_note(&mut writer, file, &[b'n'; 200])?;
    }
    put_note(&mut writer, file, last)?;
    writer.finish(file)
}

// The worked file has 58 bytes, its notes between the rows 9 + 4 + 3 × 4 = 25. 322 notes of 203 bytes and
// one of 87 make it 65,536: 58 + 25 + 65,366 + 87.
#[test]
fn notes(rt: HostRuntime) -> Result<(), Fail> {
    let mut file = [0; 65_540];
    let few = write_noted(&mut file, WORKED, 0, b"!")?;
    assert_eq!(rt; few, 87);
    check_front(&rt, &file, few, WORKED.statement)?;
    let full = write_noted(&mut file, WORKED, 322, &[b'n'; 84])?;
    assert_eq!(rt; full, 65_536);
    check_front(&rt, &file, full, WORKED.statement)?;
    check_front(&rt, &file, 65_537, Err(16))
}

// Writes a file in which each of 256 customers has one unit, and 256 cents are to be shared.
fn write_many(file: &mut [u8]) -> Result<usize, Refusal> {
    let mut writer = Writer::new(file)?;
    writer.put(file, header((256, 1, 1)))?;
    for customer in 0..256u16 {
        writer.put(file, unit_row((customer, 1, 1, 1, 0, 1)))?;
    }
    writer.put(file, cost_row((6, 0, 0, 0, 256)))?;
    writer.finish(file)
}

// Rows of 10 bytes for 10 customers, of 11 for 90, of 12 for 156, and 20 bytes of sums.
#[test]
fn all_customers(rt: HostRuntime) -> Result<(), Fail> {
    let mut file = [0; 4096];
    let length = write_many(&mut file)?;
    assert!(rt; length <= file.len());
    let mut out = [b'.'; 4096];
    let answer = make_statement(&file[0..length], &mut out)?;
    assert_eq!(rt; answer.refusal, None);
    assert_eq!(rt; answer.length, 2982);
    assert!(rt; &out[0..20] == b"6 0 1 0 0\n6 1 1 0 0\n".as_slice());
    assert!(rt; &out[90..111] == b"6 9 1 0 0\n6 10 1 0 0\n".as_slice());
    assert!(rt; &out[1079..1102] == b"6 99 1 0 0\n6 100 1 0 0\n".as_slice());
    assert!(rt; &out[2950..2983] == b"6 255 1 0 0\n6 sum 256 0 0 0 0 0\n.".as_slice());
    Ok(())
}
