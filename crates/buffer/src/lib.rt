// Bytes and decimal numbers, written into a caller's buffer.
#![tactic(auto)]

ghost use Rattle.std.specs.Prelude.{◌≡◌, ◌+◌, ◌^◌, ◌<◌, ◌≤◌, [], ◌∷◌, length, decimal, nat_lt};
ghost use Rattle.std.specs.Fmt.{signed_decimal};
ghost use Rattle.tariff.specs.Refusals.{answer, first_of, unless};
ghost use Rattle.tariff.specs.declared.refusal.Refusal.TheVariants.{BufferTooShort};
ghost use Rattle.buffer.specs.Putting.{pasted, put_refusal};

use tariff::Refusal;

// Each power of ten that a u64 holds, at its exponent.
const POWERS: [u64; 20] = [
    1,
    10,
    100,
    1000,
    10000,
    100000,
    1000000,
    10000000,
    100000000,
    1000000000,
    10000000000,
    100000000000,
    1000000000000,
    10000000000000,
    100000000000000,
    1000000000000000,
    10000000000000000,
    100000000000000000,
    1000000000000000000,
    10000000000000000000,
];

// The place behind so many bytes from a place on, or the refusal of a buffer that ends before it.
fn end_within(room: usize, place: usize, size: usize) -> Result<usize, Refusal>
    ensures { result ≡ answer (first_of ((nat_lt room (place + size), BufferTooShort) ∷ [])) (place + size) }
{
    place
        .checked_add(size)
        .filter(|end| *end <= room)
        .ok_or(Refusal::BufferTooShort)
}

// Writes bytes from a place on; a buffer too short is refused and stays as it was. Answers the place behind them.
// (Buffer and place are two parameters and no struct, here and below: of a `&mut` slice that a struct lends
// a contract sees nested pairs at the end and no names.)
pub fn put_bytes(out: &mut [u8], place: usize, bytes: &[u8]) -> Result<usize, Refusal>
    ensures answers { result ≡ answer (put_refusal (length out.old) place bytes.now) (place + length bytes.now) }
    ensures out { out.new ≡ unless (put_refusal (length out.old) place bytes.now) out.old (pasted out.old place bytes.now) }
{
    let end = end_within(out.len(), place, bytes.len())?;
    out[place..end].copy_from_slice(bytes);
    Ok(end)
}

fn power_of_ten(exponent: usize) -> u64
    requires { exponent < 20 }
    ensures { result ≡ 10 ^ exponent }
{
    POWERS[exponent]
}

// The digits of a number; 0 has one.
fn digit_count(number: u64) -> usize
    ensures count { result ≡ length (decimal number) }
    ensures small { result ≤ 20 }
{
    number.max(1).ilog10() as usize + 1
}

// Fills a part that is as long as the number, from the highest digit on. (The powers go by number: of what
// `iter_mut().zip(powers)` writes a proof knows the length alone, while it knows all that `iter_mut().enumerate()` writes.)
fn fill_digits(part: &mut [u8], number: u64)
    requires { length part.old ≡ length (decimal number) }
    ensures { part.new ≡ decimal number }
{
    let count = part.len();
    for (i, digit) in part.iter_mut().enumerate() {
        *digit = b'0' + (number / power_of_ten(count - 1 - i) % 10) as u8;
    }
}

// Writes a number in decimal digits, as `put_bytes` writes bytes.
pub fn put_number(out: &mut [u8], place: usize, number: u64) -> Result<usize, Refusal>
    ensures answers { result ≡ answer (put_refusal (length out.old) place (decimal number)) (place + length (decimal number)) }
    ensures out { out.new ≡ unless (put_refusal (length out.old) place (decimal number)) out.old (pasted out.old place (decimal number)) }
{
    let end = end_within(out.len(), place, digit_count(number))?;
    fill_digits(&mut out[place..end], number);
    Ok(end)
}

// Writes a number in decimal digits, after a `-` if it is below 0.
pub fn put_signed(out: &mut [u8], place: usize, number: i64) -> Result<usize, Refusal>
    ensures answers { result ≡ answer (put_refusal (length out.old) place (signed_decimal number)) (place + length (signed_decimal number)) }
    ensures out { out.new ≡ unless (put_refusal (length out.old) place (signed_decimal number)) out.old (pasted out.old place (signed_decimal number)) }
{
    let magnitude = number.unsigned_abs();
    if number >= 0 {
        return put_number(out, place, magnitude);
    }
    let end = end_within(out.len(), place, 1 + digit_count(magnitude))?;
    out[place] = b'-';
    fill_digits(&mut out[place + 1..end], magnitude);
    Ok(end)
}
