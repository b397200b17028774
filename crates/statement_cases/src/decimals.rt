// The decimal digits of numbers, and buffers with and without room for them.
use crate::files::{BLANK, check_room, check_text, is_blank};
use buffer::{put_number, put_signed};
use std::process::Abort;
use std::test::Fail;
use tariff::Refusal;

// Zero, and each power of ten and the number before it, to the largest number.
const NUMBERS: [(u64, &[u8]); 44] = [
    (0, b"0"),
    (1, b"1"),
    (9, b"9"),
    (10, b"10"),
    (99, b"99"),
    (100, b"100"),
    (999, b"999"),
    (1_000, b"1000"),
    (9_999, b"9999"),
    (10_000, b"10000"),
    (99_999, b"99999"),
    (100_000, b"100000"),
    (999_999, b"999999"),
    (1_000_000, b"1000000"),
    (9_999_999, b"9999999"),
    (10_000_000, b"10000000"),
    (99_999_999, b"99999999"),
    (100_000_000, b"100000000"),
    (999_999_999, b"999999999"),
    (1_000_000_000, b"1000000000"),
    (9_999_999_999, b"9999999999"),
    (10_000_000_000, b"10000000000"),
    (99_999_999_999, b"99999999999"),
    (100_000_000_000, b"100000000000"),
    (999_999_999_999, b"999999999999"),
    (1_000_000_000_000, b"1000000000000"),
    (9_999_999_999_999, b"9999999999999"),
    (10_000_000_000_000, b"10000000000000"),
    (99_999_999_999_999, b"99999999999999"),
    (100_000_000_000_000, b"100000000000000"),
    (999_999_999_999_999, b"999999999999999"),
    (1_000_000_000_000_000, b"1000000000000000"),
    (9_999_999_999_999_999, b"9999999999999999"),
    (10_000_000_000_000_000, b"10000000000000000"),
    (99_999_999_999_999_999, b"99999999999999999"),
    (100_000_000_000_000_000, b"100000000000000000"),
    (999_999_999_999_999_999, b"999999999999999999"),
    (1_000_000_000_000_000_000, b"1000000000000000000"),
    (9_999_999_999_999_999_999, b"9999999999999999999"),
    (10_000_000_000_000_000_000, b"10000000000000000000"),
    (12_345_678_901_234_567_890, b"12345678901234567890"),
    (4_294_967_295, b"4294967295"),
    (4_294_967_296, b"4294967296"),
    (18_446_744_073_709_551_615, b"18446744073709551615"),
];

const SIGNED: [(i64, &[u8]); 14] = [
    (0, b"0"),
    (1, b"1"),
    (-1, b"-1"),
    (9, b"9"),
    (-9, b"-9"),
    (10, b"10"),
    (-10, b"-10"),
    (-99, b"-99"),
    (-100, b"-100"),
    (-2_147_483_648, b"-2147483648"),
    (1_000_000_000_000_000_000, b"1000000000000000000"),
    (-1_000_000_000_000_000_000, b"-1000000000000000000"),
    (9_223_372_036_854_775_807, b"9223372036854775807"),
    (-9_223_372_036_854_775_808, b"-9223372036854775808"),
];

// Where the digits are written.
const PLACE: usize = 3;

// Checks a number that is written in a buffer of `room` bytes, and that all other bytes stay.
fn check_written<F: Fn(&mut [u8], usize) -> Result<usize, Refusal>>(
    rt: &impl Abort,
    put: &F,
    digits: &[u8],
    room: usize,
) -> Result<(), Fail>
    requires { F.IsAlwaysCallable put.now }
{
    assert!(rt; digits.len() <= 20);
    check_room(rt, &mut [BLANK; 32], room, |out| {
        let answer = put(out, PLACE);
        assert_eq!(rt; answer, Ok(PLACE + digits.len()));
        assert!(rt; PLACE <= out.len());
        assert!(rt; is_blank(&out[0..PLACE]));
        check_text(rt, &out[PLACE..out.len()], digits);
        Ok(())
    })
}

// Checks that a number is refused at a place of a buffer of `room` bytes, and that all bytes stay.
fn check_refused<F: Fn(&mut [u8], usize) -> Result<usize, Refusal>>(
    rt: &impl Abort,
    put: &F,
    place: usize,
    room: usize,
) -> Result<(), Fail>
    requires { F.IsAlwaysCallable put.now }
{
    check_room(rt, &mut [BLANK; 32], room, |out| {
        let answer = put(out, place);
        assert_eq!(rt; answer, Err(Refusal::BufferTooShort));
        assert!(rt; is_blank(out));
        Ok(())
    })
}

// Checks the digits that `put` writes into a buffer from a place on.
fn check_number<F: Fn(&mut [u8], usize) -> Result<usize, Refusal>>(
    rt: &impl Abort,
    put: F,
    digits: &[u8],
) -> Result<(), Fail>
    requires { F.IsAlwaysCallable put }
{
    assert!(rt; digits.len() >= 1 && digits.len() <= 20);
    let end = PLACE + digits.len();
    check_written(rt, &put, digits, 32)?;
    check_written(rt, &put, digits, end)?;
    check_refused(rt, &put, PLACE, end - 1)?;
    check_refused(rt, &put, 0, 0)?;
    check_refused(rt, &put, 32, 32)?;
    check_refused(rt, &put, 33, 32)?;
    check_refused(rt, &put, usize::MAX, 32)
}

#[test]
fn numbers(rt: HostRuntime) -> Result<(), Fail> {
    for case in &NUMBERS {
        check_number(&rt, |out, place| put_number(out, place, case.0), case.1)?;
    }
    Ok(())
}

#[test]
fn signed_numbers(rt: HostRuntime) -> Result<(), Fail> {
    for case in &SIGNED {
        check_number(&rt, |out, place| put_signed(out, place, case.0), case.1)?;
    }
    Ok(())
}
