// The text of rows while it is made: bytes and decimal numbers, one behind the other.
ghost use Rattle.std.specs.Prelude.{◌≡◌, ℕ, ◌+◌, ◌≤◌, List, [], ◌++◌, length, take, codes, decimal};
ghost use Rattle.std.specs.Fmt.{signed_decimal};
ghost use Rattle.tariff.specs.Refusals.{answer, unless};
ghost use Rattle.buffer.specs.Putting.{pasted, put_refusal};
ghost use Rattle.line_rows.specs.Writing.{most_line};

use crate::MOST_LINE_BYTES;
use buffer::{put_bytes, put_number, put_signed};
use std::marker::Model;
use tariff::Refusal;

// A number as a row shows it: at most 20 bytes, its decimal digits and maybe a sign.
pub(crate) trait Decimal: Copy {
    ghost digits: { Self → List ℕ };

    fn put(self, out: &mut [u8], place: usize) -> Result<usize, Refusal>
        ensures answers { result ≡ answer (put_refusal (length out.old) place (digits self)) (place + length (digits self)) }
        ensures out { out.new ≡ unless (put_refusal (length out.old) place (digits self)) out.old (pasted out.old place (digits self)) }
        ensures short { length (digits self) ≤ 20 };
}

impl Decimal for u64 {
    ghost digits = { λ n. decimal n };

    fn put(self, out: &mut [u8], place: usize) -> Result<usize, Refusal> {
        put_number(out, place, self)
    }
}

impl Decimal for i64 {
    ghost digits = { λ n. signed_decimal n };

    fn put(self, out: &mut [u8], place: usize) -> Result<usize, Refusal> {
        put_signed(out, place, self)
    }
}

// Room for the rows of one line, and how much of it is written: an array with a length, since the
// calls that keep a bill allocate nothing. Its room is no const parameter: it is made for one use.
#[derive(Drop)]
pub(crate) struct RowText {
    bytes: [u8; MOST_LINE_BYTES],
    length: usize,
}

impl Model for RowText {
    ghost Value = { List ℕ };

    ghost view = { λ t. take t.length t.bytes };

    ghost invariant = { λ t. t.length ≤ most_line };
}

impl RowText {
    pub(crate) fn new() -> RowText
        ensures { result ≡ [] }
    {
        RowText {
            bytes: [0; MOST_LINE_BYTES],
            length: 0,
        }
    }

    pub(crate) fn bytes(&self) -> &[u8]
        ensures { result.now ≡ self.now }
    {
        &self.bytes[..self.length]
    }

    pub(crate) fn push_bytes(&mut self, bytes: &[u8])
        requires { length self.old + length bytes.now ≤ most_line }
        ensures { self.new ≡ self.old ++ bytes.now }
    {
        self.length = put_bytes(&mut self.bytes, self.length, bytes).unwrap();
    }

    pub(crate) fn push_number<N: Decimal>(&mut self, number: N)
        requires { length self.old + 20 ≤ most_line }
        ensures pushed { self.new ≡ self.old ++ N.digits number }
        ensures near { length self.new ≤ length self.old + 20 }
    {
        self.length = number.put(&mut self.bytes, self.length).unwrap();
    }

    // A number behind a space.
    pub(crate) fn push_field<N: Decimal>(&mut self, number: N)
        requires { length self.old + 21 ≤ most_line }
        ensures pushed { self.new ≡ self.old ++ (codes " " ++ N.digits number) }
        ensures near { length self.new ≤ length self.old + 21 }
    {
        self.push_bytes(b" ");
        self.push_number(number);
    }
}
